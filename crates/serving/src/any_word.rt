//! Room in which SEE shows any word.

ghost use Rattle.std.specs.Prelude.{◌≡◌, ◌≢◌, IfErr};
ghost use Rattle.memory.specs.Mirrored.{stored};
ghost use Rattle.see.specs.Seeing.{IsSeenIn};
ghost use Rattle.see.specs.declared.refusal.SeeRefused.TheVariants.{OutOfMemory};

use memory::Memory;
use see::{SeeRefused, SeeRoom, see_in};
use std::alloc::Global;
use std::marker::Model;

/// The most bytes that the thread of a word has.
const MOST: u16 = 65535;

/// Room in which any word is shown.
#[derive(Drop)]
pub struct AnyWord {
    room: SeeRoom,
}

impl Model for AnyWord {
    ghost use Rattle.std.specs.Prelude.{◌≡◌, ℕ, List};

    ghost Value = { List ℕ };

    ghost view = { λ w. w.room.text };

    ghost invariant = { λ w. w.room.most ≡ 65535 };
}

impl AnyWord {
    /// Room for every word.
    pub fn new(alloc: Global) -> Result<AnyWord, memory::OutOfMemory> {
        Ok(AnyWord {
            room: SeeRoom::new(alloc, MOST)?,
        })
    }

    /// Shows the word that a name means; memory is never lacking.
    pub fn show(&mut self, memory: &Memory, name: &[u8]) -> Result<(), SeeRefused>
        ensures seen { IsSeenIn (stored memory.now) name.now self.new result }
        ensures roomy { IfErr result (λ e. e ≢ OutOfMemory) }
    {
        see_in(&mut self.room, memory, name)
    }

    /// The text of the word that was shown last.
    pub fn text(&self) -> &[u8]
        ensures { result.now ≡ self.now }
    {
        self.room.text()
    }
}
