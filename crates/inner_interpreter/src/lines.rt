//! Taking a line of typed bytes.

ghost use Rattle.std.specs.Prelude.{ℕ, List, Option, ◌++◌, ◌≡◌, ◌≤◌, ◌<◌, true, vec_len, vec_capacity, IfOk, IfErr, Some};
ghost use Rattle.std.specs.List.{list_all};
ghost use Rattle.machine.specs.Answer.{is_typed, is_return};
ghost use Rattle.inner_interpreter.specs.Ends.{Marks};
ghost use Rattle.inner_interpreter.specs.Lines.{IsBegun, IsLine};
ghost use Rattle.inner_interpreter.specs.Reads.{IsLineGiven, as_given};

use crate::ends::{EndFault, Input};

/// Whether a byte ends a line.
fn is_return(byte: u8) -> bool
    ensures { result ≡ is_return byte }
{
    byte == 10 || byte == 13
}

/// Takes a line of at most `n` bytes, and answers whether a return ended it.
pub fn take_line<R: Input>(line: &mut Vec<u8>, reader: &mut R, n: u16) -> Result<bool, EndFault>
    requires { 65535 ≤ vec_capacity line.old }
    ensures told { (typed : List ℕ) → R.unread reader.old ≡ Some typed →
        IfOk result (λ returned. IsLine n typed line.new.items returned (R.unread reader.new)) }
    ensures begun { (typed : List ℕ) → R.unread reader.old ≡ Some typed →
        IfErr result (λ _. IsBegun n typed (R.unread reader.new)) }
    ensures given { IfOk result (λ returned. (given : List (Option ℕ)) × (R.reads reader.new ≡ R.reads reader.old ++ given) ×
        IsLineGiven n line.new.items returned given) }
    ensures unfinished { IfErr result (λ _. R.reads reader.new ≡ R.reads reader.old ++ as_given line.new.items) }
    ensures typed { list_all is_typed line.new.items ≡ true }
    ensures fewer { IfOk result (λ returned. returned ≡ true → vec_len line.new < n) }
    ensures bound { vec_len line.new ≤ n }
    ensures room { 65535 ≤ vec_capacity line.new }
    ensures mark { Marks (R.failed reader.old) (R.failed reader.new) result }
{
    line.clear();
    for _ in 0..n {
        let Some(byte) = reader.byte()? else {
            return Ok(false);
        };
        if is_return(byte) {
            return Ok(true);
        }
        line.push(byte).unwrap();
    }
    Ok(false)
}
