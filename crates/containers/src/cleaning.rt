//! Bytes made text.

ghost use Rattle.std.specs.Prelude.{◌≡◌};
ghost use Rattle.containers.specs.Cleaning.{cleaned, cleaned_byte, is_text};

/// Whether a text of screens can carry this byte.
#[tactic(auto, unfolding(crate::specs::Cleaning::is_text))]
fn is_text(byte: u8) -> bool
    ensures { result ≡ is_text byte }
{
    byte >= 32 && byte <= 126
}

/// A byte without its high bit, and a blank if that is no text.
#[tactic(auto, unfolding(crate::specs::Cleaning::cleaned_byte))]
fn cleaned_byte(byte: u8) -> u8
    ensures { result ≡ cleaned_byte byte }
{
    let low = byte % 128;
    if is_text(low) { low } else { b' ' }
}

/// Makes text of bytes, of each by itself: without high bits, and blanks in place of what is no text then, as tabs and NULs.
#[tactic(auto, unfolding(crate::specs::Cleaning::cleaned))]
pub fn clean(bytes: &mut [u8])
    ensures { bytes.new ≡ cleaned bytes.old }
{
    for byte in bytes.iter_mut() {
        *byte = cleaned_byte(*byte);
    }
}
