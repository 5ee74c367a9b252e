//! The stacks of a record, in the cells in which they lie. A stack is the cells from the place of its top on, 256 if it is empty.

ghost use Rattle.std.specs.Prelude.{◌≡◌, ◌≤◌, ◌<◌, ◌==◌, ◌∷◌, ◌++◌, [], length, take, drop, slice_range, if◌then◌else◌, IfSome, IsNone};
ghost use Rattle.forth83_c.specs.Calls.{needs};

/// Puts a cell on a stack, if there is room: where its top is then.
pub fn put_cell(cells: &mut [u16; 257], top: u16, x: u16) -> Option<u16>
    requires { top ≤ 256 }
    ensures put { IfSome result (λ place. slice_range cells.new place 256 ≡ x ∷ slice_range cells.old top 256) }
    ensures place { IfSome result (λ place. place ≤ 256) }
    ensures full { IsNone result → 256 ≤ length (slice_range cells.old top 256) }
    ensures stays { IsNone result → cells.new ≡ cells.old }
{
    if top == 0 {
        return None;
    }
    let place = top - 1;
    cells[usize::from(place)] = x;
    Some(place)
}

/// The top cell of a stack, and where the top is without it.
#[tactic(auto, using(stacks::proofs::Apart::lowered))]
pub fn top_cell(cells: &[u16; 257], top: u16) -> Option<(u16, u16)>
    requires { top ≤ 256 }
    ensures taken { IfSome result (λ p. slice_range cells.now top 256 ≡ p.0 ∷ slice_range cells.now p.1 256) }
    ensures place { IfSome result (λ p. p.1 ≤ 256) }
    ensures empty { IsNone result → slice_range cells.now top 256 ≡ [] }
{
    if top == 256 {
        return None;
    }
    Some((cells[usize::from(top)], top + 1))
}

/// The two top cells, the top first.
fn top_two(cells: &[u16; 257], top: u16) -> Option<[u16; 2]>
    requires { top ≤ 256 }
    ensures two { IfSome result (λ line. line ≡ take 2 (slice_range cells.now top 256)) }
    ensures few { IsNone result → length (slice_range cells.now top 256) < 2 }
{
    let (first, below) = top_cell(cells, top)?;
    let (second, _place) = top_cell(cells, below)?;
    Some([first, second])
}

/// The cells that a request needs of the data stack: those of a line.
pub fn top_line(cells: &[u16; 257], top: u16, asks: u16) -> Option<[u16; 2]>
    requires { top ≤ 256 }
    ensures line { IfSome result (λ line. (if asks == 2 then line else []) ≡ take (needs asks) (slice_range cells.now top 256)) }
    ensures few { IsNone result → (asks ≡ 2) × (length (slice_range cells.now top 256) < 2) }
{
    if asks == 2 {
        top_two(cells, top)
    } else {
        Some([0; 2])
    }
}

/// Where the top is without the cells that a request needs, as far as it has them.
#[tactic(auto, using(crate::proofs::Celled::lowered_all, stacks::proofs::Apart::lowered))]
pub fn behind_line(_cells: &[u16; 257], top: u16, asks: u16) -> u16
    requires { top ≤ 256 }
    ensures off { slice_range _cells.now result 256 ≡ drop (needs asks) (slice_range _cells.now top 256) }
    ensures place { result ≤ 256 }
{
    if asks != 2 {
        return top;
    }
    if top > 254 {
        return 256;
    }
    top + 2
}

/// Puts two cells on a stack, the second one on top, if there is room for both: where its top is then.
fn put_two(cells: &mut [u16; 257], top: u16, line: [u16; 2]) -> Option<u16>
    requires { top ≤ 256 }
    ensures put { IfSome result (λ place. slice_range cells.new place 256 ≡ line ++ slice_range cells.old top 256) }
    ensures place { IfSome result (λ place. place ≤ 256) }
    ensures full { IsNone result → 254 < length (slice_range cells.old top 256) }
    ensures stays { IsNone result → cells.new ≡ cells.old }
{
    if top < 2 {
        return None;
    }
    let below = put_cell(cells, top, line[1])?;
    put_cell(cells, below, line[0])
}

/// Puts the cells that a request needs on the data stack, if there is room: where its top is then.
pub fn put_line(cells: &mut [u16; 257], top: u16, asks: u16, line: [u16; 2]) -> Option<u16>
    requires { top ≤ 256 }
    ensures put { IfSome result (λ place. slice_range cells.new place 256 ≡ (if asks == 2 then line else []) ++ slice_range cells.old top 256) }
    ensures place { IfSome result (λ place. place ≤ 256) }
    ensures full { IsNone result → (asks ≡ 2) × (254 < length (slice_range cells.old top 256)) }
    ensures stays { IsNone result → cells.new ≡ cells.old }
{
    if asks == 2 {
        put_two(cells, top, line)
    } else {
        Some(top)
    }
}
