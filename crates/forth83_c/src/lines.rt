//! A line of the typed bytes.

ghost use Rattle.std.specs.Prelude.{◌≡◌, ◌≤◌, ◌<◌, ◌++◌, ℕ, List, length, take, drop, true, IfSome, IsNone};
ghost use Rattle.std.specs.List.{list_all};
ghost use Rattle.machine.specs.Answer.{is_return, is_typed};
ghost use Rattle.inner_interpreter.specs.Lines.{line_of};
ghost use Rattle.machine_parts.specs.declared.parts.Request.TheVariants as request;
ghost use Rattle.forth83_c.specs.Driven.{AreTooFew};

/// A line at the front of the typed bytes: how many bytes it has, whether a return ended it, and where the bytes after it
/// begin.
#[derive(Clone, Copy, Debug)]
pub struct Line {
    pub count: usize,
    pub returned: bool,
    pub next: usize,
}

/// Whether a byte ends a line.
fn is_return(byte: u8) -> bool
    ensures { result ≡ is_return byte }
{
    byte == 10 || byte == 13
}

/// The line of at most `n` bytes; none if neither a return ends it nor so many bytes exist.
pub fn whole_line(typed: &[u8], n: u16) -> Option<Line>
    ensures line { IfSome result (λ line. (more : List ℕ) → line_of n (typed.now ++ more) ≡
        record { bytes = take line.count typed.now; returned = line.returned; rest = drop line.next typed.now ++ more }) }
    ensures typed { IfSome result (λ line. list_all is_typed (take line.count typed.now) ≡ true) }
    ensures few { IfSome result (λ line. line.count ≤ n) }
    ensures fewer { IfSome result (λ line. line.returned ≡ true → line.count < n) }
    ensures there { IfSome result (λ line. line.count ≤ line.next) }
    ensures most { IfSome result (λ line. line.next ≤ length typed.now) }
    ensures none { IsNone result → AreTooFew (request.Line n) typed.now }
{
    for i in 0..n {
        let place = usize::from(i);
        if place >= typed.len() {
            return None;
        }
        if is_return(typed[place]) {
            return Some(Line {
                count: place,
                returned: true,
                next: place + 1,
            });
        }
    }
    let count = usize::from(n);
    Some(Line {
        count,
        returned: false,
        next: count,
    })
}
