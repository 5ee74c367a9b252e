//! Whether no two runtime cells are equal.

ghost use Rattle.std.specs.Prelude.{◌≡◌, ◌≢◌, ◌↔◌, ◌≤◌, ◌<◌, IsTrue, length, slice_index};
ghost use Rattle.colon_bodies.specs.Plain.{AreApart};
ghost use Rattle.see.specs.PlainWords.{IsAlone};

/// Whether two runtime cells are equal and not 0.
fn is_shared(runtime: &[u16], i: usize, j: usize) -> bool
    requires controls { 28 ≤ length runtime.now }
    requires within { (i < 28) × (j < 28) }
    ensures { IsTrue result ↔
        ((slice_index runtime.now i ≢ 0) × (slice_index runtime.now i ≡ slice_index runtime.now j)) }
{
    runtime[i] != 0 && runtime[i] == runtime[j]
}

/// Whether no runtime cell above is equal to this one, or it is 0.
fn is_alone(runtime: &[u16], i: usize) -> bool
    requires controls { 28 ≤ length runtime.now }
    requires within { i < 28 }
    ensures { IsTrue result ↔ IsAlone (slice_index runtime.now) i 28 }
{
    for j in i + 1..28 {
        if is_shared(runtime, i, j) {
            return false;
        }
    }
    true
}

/// Whether no two runtime cells are equal and not 0.
pub fn are_apart(runtime: &[u16]) -> bool
    requires { 28 ≤ length runtime.now }
    ensures { IsTrue result ↔ AreApart (slice_index runtime.now) }
{
    for i in 5..28 {
        if !is_alone(runtime, i) {
            return false;
        }
    }
    true
}
