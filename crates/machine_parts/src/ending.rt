//! How rows end.

ghost use Rattle.std.specs.Prelude.{◌≡◌, ◌≤◌, ◌++◌, length, drop};
ghost use Rattle.machine_parts.specs.Row.{leaves};

use crate::faults::DATA_OVERFLOW;
use crate::parts::{Outcome, Parts};

/// The data stack gets the cells `given`, the new top first, in place of its `taken` top cells; fault 2 if
/// there is no room for them. Rows write it as `leaves!`.
#[tactic(auto, unfolding(crate::specs::Row::room))]
pub fn leave(parts: &mut Parts, taken: usize, given: &[u16]) -> Outcome
    requires { taken ≤ length parts.old.values }
    ensures { (parts.new, result) ≡ leaves parts.old (given.now ++ drop taken parts.old.values) }
{
    match parts.values.replace(taken, given) {
        Ok(()) => Outcome::Done,
        Err(_) => Outcome::Fault(DATA_OVERFLOW),
    }
}

/// Cells that are written with the top last, as the list with the top first.
#[macro_export]
macro_rules! top_first {
    ([$($done:expr),*]) => {
        [$($done),*]
    };
    ([$($done:expr),*] $next:expr $(, $later:expr)*) => {
        $crate::top_first!([$next $(, $done)*] $($later),*)
    };
}

/// A row leaves these cells in place of so many top cells. They are written as its stack effect is, the top last.
#[macro_export]
macro_rules! leaves {
    ($parts:ident, $taken:expr, [$($given:expr),*]) => {
        $crate::leave($parts, $taken, &$crate::top_first!([] $($given),*))
    };
}
