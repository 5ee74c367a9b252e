//! Disks of DOS, by their boot sector. mtools reads them.

use crate::bytes::{byte_at, little};

/// How many bytes the boot sector has.
const BOOT: usize = 512;

/// Whether a disk has the boot sector of DOS.
pub fn is_fat(disk: &[u8]) -> bool {
    disk.len() >= BOOT
        && matches!(byte_at(disk, 0), 0xeb | 0xe9)
        && matches!(little(disk, 11), 128 | 256 | 512 | 1024)
        && matches!(byte_at(disk, 13), 1 | 2 | 4 | 8 | 16 | 32)
        && matches!(byte_at(disk, 16), 1 | 2)
        && byte_at(disk, 21) >= 0xf0
}
