//! The replies to a request, in a host's room.

ghost use Rattle.std.specs.Prelude.{◌≡◌, ◌++◌, ◌+◌, ◌-◌, [], take, drop, length};
ghost use Rattle.forth83_c.specs.Replied.{filled, size_as};

use inner_interpreter::{ByteLog, EndFault, Output};

/// A writer into a room. It takes each byte, and counts it; those beyond the room are lost.
#[derive(Drop)]
pub struct Replies<'r> {
    pub room: &'r mut [u8],
    pub size: usize,
    pub before: ByteLog,
    pub taken: ByteLog,
    ghost put: { room.now ≡ filled before.bytes taken.bytes },
    ghost counted: { size ≡ size_as (length taken.bytes) },
}

/// Puts bytes from a place on, as far as the room goes.
#[tactic(auto, using(crate::proofs::Replying::put_fits, crate::proofs::Replying::put_none))]
fn put_part(room: &mut [u8], at: usize, bytes: &[u8])
    ensures { room.new ≡ take at room.old ++ (take (length room.old - at) bytes.now ++ drop (at + length bytes.now) room.old) }
{
    let n = room.len();
    if n <= at {
        return;
    }
    let fits = (n - at).min(bytes.len());
    let end = at + fits;
    room[at..end].copy_from_slice(&bytes[..fits]);
}

impl<'r> Replies<'r> {
    /// The room, which has taken no byte.
    #[tactic(auto, using(crate::proofs::Replying::filled_none, crate::proofs::Replying::none_size))]
    pub fn new(room: &'r mut [u8]) -> Replies<'r>
        ensures same { result.room.ghost_name ≡ room.entry.ghost_name }
        ensures before { result.before.bytes ≡ room.entry.now }
        ensures none { result.taken.bytes ≡ [] }
    {
        let before = ByteLog::grown(&ByteLog::new(), &room[..]);
        Replies {
            room,
            size: 0,
            before,
            taken: ByteLog::new(),
        }
    }
}

impl Output for Replies<'_> {
    ghost use Rattle.std.specs.Prelude.{Some, true, false, ◌∷◌, ◌++◌, length};

    // which room it is, what that had, and then the bytes that it took
    ghost sent = { λ w. Some (w.room.ghost_name ∷ (length w.before.bytes ∷ (w.before.bytes ++ w.taken.bytes))) };

    ghost passed = { λ w. true };

    ghost failed = { λ w. false };

    fn send(&mut self, bytes: &[u8]) -> Result<usize, EndFault> {
        put_part(self.room, self.size, bytes);
        self.size = self.size.saturating_add(bytes.len());
        self.taken = ByteLog::grown(&self.taken, bytes);
        Ok(bytes.len())
    }

    fn flush(&mut self) -> Result<(), EndFault> {
        Ok(())
    }
}
