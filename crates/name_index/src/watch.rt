//! Which addresses are watched.

ghost use Rattle.std.specs.Prelude.{◌≡◌, ◌<◌, ◌+◌, ℕ, true, false};
ghost use Rattle.name_index.specs.Ranges.{is_met};
ghost use Rattle.name_index.specs.Watch.{is_watched, IsBeside, IsUnwatched};

/// The first address of the dictionary.
pub const DICTIONARY: u16 = 256;

/// Whether one of the addresses from `start` to `end - 1`, which are some, is watched: those of the dictionary below `top`.
#[tactic(auto, unfolding(crate::specs::Ranges::is_met))]
fn is_met(top: u16, start: u32, end: u32) -> bool
    ensures { result ≡ is_met top start end }
{
    DICTIONARY < top && start < u32::from(top) && u32::from(DICTIONARY) < end
}

/// Whether one of the `n` addresses from `at` on is watched, if the dictionary is watched below `top`. Addresses wrap.
pub fn is_touched(top: u16, at: u16, n: u16) -> bool
    ensures beside { result ≡ false → (a : ℕ) → is_watched top a ≡ true → IsBeside at n a }
    ensures unwatched { IsUnwatched top at n → result ≡ false }
{
    if n == 0 {
        return false;
    }
    let start = u32::from(at);
    let end = start + u32::from(n);
    if is_met(top, start, end) {
        return true;
    }
    is_met(top, 0, end.saturating_sub(65536))
}
