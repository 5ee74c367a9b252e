//! What a file is known to be: by its first bytes, by its size, and by its directory.

use crate::apple::is_apple;
use crate::commodore::is_commodore;
use crate::cpm::is_cpm;
use crate::fat::is_fat;
use crate::lif::is_lif;
use crate::rt11::volume_of;
use std::alloc::{AllocError, Global};
use std::fmt;

/// What a file is known to be that is no blocks.
#[derive(Clone, Copy, Debug, PartialEq, Eq)]
pub enum Kind {
    /// Files that are no sectors.
    Teledisk,
    PackedTeledisk,
    Hfe,
    Scp,
    Gcr1541,
    Woz,
    Gzip,
    Zip,
    /// A disk of an Atari, whose sectors come after a head.
    Atari,
    /// Disks with a directory that other programs read.
    Fat,
    Cpm,
    /// Disks with a directory that is read here.
    Lif,
    AppleDos,
    Commodore,
    Rt11,
}

/// What helps with a disk whose files can be taken out of it.
const FILES: &str = "forth83 import --list DISK lists its files, and import DISK:NAME takes one";

/// What helps with a file that a program makes sectors of.
const DSKTRANS: &str =
    "dsktrans of the package libdsk-utils converts it: dsktrans -itype tele -otype raw IN OUT";

/// The same of tracks that come from a disk's signals.
const GREASEWEAZLE: &str = "Greaseweazle's `gw convert IN OUT.img` makes sectors of it";

impl Kind {
    /// What helps with it.
    pub fn advice(self) -> &'static str {
        match self {
            Kind::Teledisk | Kind::PackedTeledisk => DSKTRANS,
            Kind::Hfe | Kind::Scp => GREASEWEAZLE,
            Kind::Gcr1541 => "c1541 of the package vice makes a D64 of it",
            Kind::Woz => "AppleCommander or CiderPress makes a disk in DOS order of it",
            Kind::Gzip => "gunzip makes the disk of it",
            Kind::Zip => "unzip takes the disk out of it",
            Kind::Atari => "import it with --format atr",
            Kind::Commodore => {
                "forth83 import --list DISK lists its files, and import DISK:NAME takes one; --format d64 takes its sectors"
            }
            Kind::Fat | Kind::Cpm | Kind::Lif | Kind::AppleDos | Kind::Rt11 => FILES,
        }
    }

    /// Whether it has a directory, which is read here or by another program.
    pub fn has_directory(self) -> bool {
        matches!(
            self,
            Kind::Fat | Kind::Cpm | Kind::Lif | Kind::AppleDos | Kind::Commodore | Kind::Rt11
        )
    }
}

impl fmt::Display for Kind {
    fn fmt<W: fmt::Write>(&self, f: &mut fmt::Formatter<W>) -> fmt::Result {
        f.write_str(match self {
            Kind::Teledisk => "a Teledisk file (TD0)",
            Kind::PackedTeledisk => "a compressed Teledisk file (TD0)",
            Kind::Hfe => "the tracks of an HxC emulator (HFE)",
            Kind::Scp => "the flux of a disk (SCP)",
            Kind::Gcr1541 => "the tracks of a Commodore disk (G64)",
            Kind::Woz => "the tracks of an Apple disk (WOZ)",
            Kind::Gzip => "compressed by gzip",
            Kind::Zip => "a ZIP file",
            Kind::Atari => "a disk of an Atari (ATR)",
            Kind::Fat => "a disk of DOS (FAT)",
            Kind::Cpm => "a disk of CP/M",
            Kind::Lif => "a volume of HP (LIF)",
            Kind::AppleDos => "a disk of Apple DOS 3.3",
            Kind::Commodore => "a disk of a Commodore 1541 (D64)",
            Kind::Rt11 => "a volume of RT-11",
        })
    }
}

/// What a file is by its first bytes, if that is known.
fn by_first_bytes(file: &[u8]) -> Option<Kind> {
    match file {
        [b'T', b'D', 0, ..] => Some(Kind::Teledisk),
        [b't', b'd', 0, ..] => Some(Kind::PackedTeledisk),
        [b'H', b'X', b'C', b'P', b'I', b'C', b'F', b'E', ..] => Some(Kind::Hfe),
        [b'S', b'C', b'P', ..] => Some(Kind::Scp),
        [b'G', b'C', b'R', b'-', b'1', b'5', b'4', b'1', ..] => Some(Kind::Gcr1541),
        [b'W', b'O', b'Z', b'1' | b'2', ..] => Some(Kind::Woz),
        [0x1f, 0x8b, ..] => Some(Kind::Gzip),
        [b'P', b'K', 3, 4, ..] => Some(Kind::Zip),
        [0x96, 2, ..] => Some(Kind::Atari),
        _ => None,
    }
}

/// What a file of sectors is known to be; none if it may be sectors of screens.
pub fn kind_of(alloc: Global, sectors: &[u8]) -> Result<Option<Kind>, AllocError> {
    if let Some(kind) = by_first_bytes(sectors) {
        return Ok(Some(kind));
    }
    if is_fat(sectors) {
        return Ok(Some(Kind::Fat));
    }
    if is_lif(sectors) {
        return Ok(Some(Kind::Lif));
    }
    if is_apple(sectors) {
        return Ok(Some(Kind::AppleDos));
    }
    if is_commodore(sectors) {
        return Ok(Some(Kind::Commodore));
    }
    if volume_of(alloc, sectors)?.is_some() {
        return Ok(Some(Kind::Rt11));
    }
    Ok(if is_cpm(sectors) {
        Some(Kind::Cpm)
    } else {
        None
    })
}
