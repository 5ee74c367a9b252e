//! The law that joins screens of a device and texts.

ghost use Rattle.std.specs.Prelude.{◌≡◌, ◌≤◌, ◌+◌, ℕ, List, Ok};
ghost use Rattle.block_buffers.specs.Disks.{Disk};
ghost use Rattle.device_text.specs.Pages.{AreBlocks, pages, screens_at};
ghost use Rattle.screen_text.specs.Screens.{AreWritable, text_of};

/// What is printed of screens is the text of these screens, and a text can carry them.
pub fn pages_law()
    ensures text { (d : Disk) (screen n : ℕ) (text : List ℕ) → pages d screen n ≡ Ok text →
        text ≡ text_of (screens_at d.blocks screen n) }
    ensures writable { (d : Disk) (screen n : ℕ) (text : List ℕ) → AreBlocks d.blocks → screen + n ≤ 65536 →
        pages d screen n ≡ Ok text → AreWritable (screens_at d.blocks screen n) }
{}
