//! Laws that join the crates below.

ghost use Rattle.std.specs.Prelude.{◌≡◌, ◌<◌, ◌≤◌, ◌+◌, ℕ, List, length, Some, None, Ok, Err};
ghost use Rattle.block_buffers.specs.Disks.{Disk};
ghost use Rattle.device_text.specs.Pages.{AreBlocks, pages, screens_at};
ghost use Rattle.dictionary.specs.Search.{sought};
ghost use Rattle.image_builder.specs.Places.{Place};
ghost use Rattle.image_builder.specs.Headers.{titled};
ghost use Rattle.screen_text.specs.Blocks.{with_screens};
ghost use Rattle.screen_text.specs.Reading.{read};
ghost use Rattle.subcommands.specs.Images.{OfBuilt};
ghost use Rattle.subcommands.specs.Texts.{HasScreens, file_of};
ghost use Rattle.see.specs.View.{viewed};
ghost use Rattle.see.specs.declared.refusal.ViewRefused.TheVariants.{NotFound};

/// In the memory that an image is loaded to which `build` answers, `view` says the screen of a name: of the newest item
/// that is spelled so in the last current vocabulary, else in FORTH. If there is none the name isn't found.
pub fn view_law()
    ensures there { OfBuilt (λ items m. (name : List ℕ) (p : Place) → 0 < length name → titled name items ≡ Some p →
        viewed m (sought m name) ≡ Ok p.screen) }
    ensures nowhere { OfBuilt (λ items m. (name : List ℕ) → 0 < length name → titled name items ≡ None →
        viewed m (sought m name) ≡ Err NotFound) }
{}

/// What `text` prints of the screens of a block file, `screens` writes: into any file just these screens, and into the same
/// file the bytes that it has.
pub fn text_law()
    ensures written { (d : Disk) (from n : ℕ) (text file : List ℕ) → AreBlocks d.blocks → from + n ≤ 65536 →
        pages d from n ≡ Ok text → HasScreens (read text) file (with_screens file (screens_at d.blocks from n)) }
    ensures same { (d : Disk) (from n : ℕ) (text : List ℕ) → AreBlocks d.blocks → from + n ≤ 65536 →
        pages d from n ≡ Ok text → HasScreens (read text) (file_of d.blocks) (file_of d.blocks) }
{}
