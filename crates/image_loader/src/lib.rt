//! Images as files: a header of 14 bytes in version 1 and 16 in version 2, and then the bytes of memory.
#![tactic(auto)]

mod borrowed;
mod fault;
mod header;
mod image;
mod reader;
mod upgrading;
mod writer;

ghost use Rattle.std.specs.Prelude.{◌≡◌, List, ℕ};
ghost use Rattle.image_loader.specs.Files.{Contents, IsFile};

pub use borrowed::BorrowedImage;
pub use fault::ImageFault;
pub use image::Image;
pub use reader::{read, read_in_place};
pub use upgrading::{UpgradeFault, upgrade};
pub use writer::{ShortRoom, file_header, write, write_into};

/// The law of files: bytes are the file of one image at most. So what `read` gives of what
/// `write` made of an image is that image.
pub fn file_law()
    ensures { (bytes : List ℕ) (first second : Contents) →
        IsFile bytes first → IsFile bytes second → first ≡ second }
{}
