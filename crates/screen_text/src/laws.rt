//! Laws of screens as text.

ghost use Rattle.std.specs.Prelude.{◌≡◌, ℕ, List};
ghost use Rattle.screen_text.specs.Screens.{Screen, AreWritable, bytes_of, numbers_of, screens_of, text_of};
ghost use Rattle.screen_text.specs.Reading.{IsRead, read};

/// The text of screens is read as just these screens, with all their bytes.
pub fn rereading_law()
    ensures { (screens : List Screen) → AreWritable screens →
        IsRead (read (text_of screens)) (numbers_of screens) (bytes_of screens) }
{}

/// What a text is read as can be written, and the text of that is read as the same.
pub fn printing_law()
    ensures writable { (text numbers bytes : List ℕ) → IsRead (read text) numbers bytes →
        AreWritable (screens_of numbers bytes) }
    ensures numbers { (text numbers bytes : List ℕ) → IsRead (read text) numbers bytes →
        numbers_of (screens_of numbers bytes) ≡ numbers }
    ensures bytes { (text numbers bytes : List ℕ) → IsRead (read text) numbers bytes →
        bytes_of (screens_of numbers bytes) ≡ bytes }
    ensures same { (text numbers bytes : List ℕ) → IsRead (read text) numbers bytes →
        IsRead (read (text_of (screens_of numbers bytes))) numbers bytes }
{}
