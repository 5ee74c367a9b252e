//! The words of a definition, found in its thread.

ghost use Rattle.std.specs.Prelude.{◌≡◌, IsTrue, true, ℕ, ◌≤◌, ◌<◌, ◌^◌, ◌+◌, length, map, slice_index, vec_len};
ghost use Rattle.colon_bodies.specs.Plain.{AreApart};
ghost use Rattle.colon_bodies.specs.Tokens.{laid};
ghost use Rattle.see.specs.Parts.{token_in};
ghost use Rattle.see.specs.Printing.{its_words};
ghost use Rattle.see.specs.Rooms.{IsRoomFor};
ghost use Rattle.see.specs.Shown.{Shown, OfThread};

use crate::apart::are_apart;
use crate::find::find;
use crate::plain::are_plain;
use crate::thread::makes;
use crate::thread_room::ThreadRoom;

/// Finds the words of a thread that is at `at`, and `;`, if the bytes are the thread of a plain definition: they are then in the
/// room, as all words. `runtime` holds the compilation address of each control primitive k at k, 0 if it has none; none is
/// found if two of these addresses from 5 on are equal and not 0.
pub fn thread_words(room: &mut ThreadRoom, bytes: &[u8], runtime: &[u16], at: u16) -> bool
    requires reach { at + length bytes.now < 2 ^ 16 }
    requires controls { 28 ≤ length runtime.now }
    requires room { IsRoomFor (length bytes.now) room.old }
    ensures sound { IsTrue result → AreApart (slice_index runtime.now) × Shown (slice_index runtime.now) at bytes.now
        (map (token_in bytes.now) room.new.whole.items) }
    ensures complete { OfThread (slice_index runtime.now) at bytes.now
        (λ d. (result ≡ true) × (map (token_in bytes.now) room.new.whole.items ≡ its_words d)) }
    ensures few { IsTrue result → vec_len room.new.whole ≤ length bytes.now + 1 }
    ensures short { IsTrue result → laid (map (token_in bytes.now) room.new.whole.items) ≤ length bytes.now }
    ensures kept { (n : ℕ) → IsRoomFor n room.old → IsRoomFor n room.new }
{
    if !are_apart(runtime) {
        return false;
    }
    if !find(room, bytes, runtime, at) {
        return false;
    }
    if !are_plain(&room.whole, bytes, runtime) {
        return false;
    }
    makes(&mut room.draft, &room.whole, bytes, runtime, at)
}
