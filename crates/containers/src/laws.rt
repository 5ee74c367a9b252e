//! Laws of reading and writing containers.

ghost use Rattle.std.specs.Prelude.{◌≡◌, ◌≤◌, true, ℕ, List, ◌++◌, drop, length, slice_index};
ghost use Rattle.std.specs.List.{list_all};
ghost use Rattle.containers.specs.Cleaning.{cleaned, is_text};
ghost use Rattle.containers.specs.Layouts.{IsLayout, Layout};
ghost use Rattle.containers.specs.Containers.{IsBeside, IsRead, IsWritten};

/// What was read of a container gives the container again if it is written into it, or into one of the same length that has
/// the same bytes wherever none of the screens is.
pub fn returning_law()
    ensures { (l : Layout) (container other screens written : List ℕ) → IsRead l container screens →
        IsWritten l screens other written → length other ≡ length container →
        ((at : ℕ) → IsBeside l (length screens) at → slice_index other at ≡ slice_index container at) →
        written ≡ container }
{}

/// What is read of a container that screens were written into are these screens, and after them what was read of it before.
pub fn rereading_law()
    ensures { (l : Layout) (container old screens written again : List ℕ) → IsLayout l → IsRead l container old →
        length screens ≤ length old → IsWritten l screens container written → IsRead l written again →
        again ≡ screens ++ drop (length screens) old }
{}

/// What is cleaned is text, and what is text stays as it is.
pub fn cleaning_law()
    ensures text { (bytes : List ℕ) → list_all is_text (cleaned bytes) ≡ true }
    ensures kept { (bytes : List ℕ) → list_all is_text bytes ≡ true → cleaned bytes ≡ bytes }
{}
