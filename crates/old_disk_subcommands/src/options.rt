//! What `unpack` and `pack` name, and how a container is read by that.

ghost use Rattle.std.specs.Prelude.{◌≡◌, ◌⊎◌, IfErr, OnOk, option_map};
ghost use Rattle.old_disk_subcommands.specs.Unpacked.{RefusesSkew, RefusesValues};

use disk_volumes::Asked;
use named_files::Files;
use old_disks::{Format, Options, Records, Refusal, read_skew};

/// A container, a file of blocks, and how screens lie in the container.
#[derive(Clone, Copy)]
pub struct OldDisk<'a> {
    pub container: &'a str,
    pub blocks: &'a str,
    /// The name of the format.
    pub format: &'a str,
    /// Numbers in place of the format's own. Commas separate those of a skew.
    pub offset: Option<u32>,
    pub sector: Option<u16>,
    pub skew: Option<&'a str>,
    /// The number of the first screen.
    pub first: Option<u32>,
    /// How many bytes a track has, if those of two sides come in turn.
    pub sides: Option<u32>,
    /// Whether screens have 512 bytes.
    pub is_half: bool,
    /// Whether letters are those of code page 37.
    pub is_ebcdic: bool,
}

/// What `unpack` names.
#[derive(Clone, Copy)]
pub struct Unpacking<'a> {
    pub disk: OldDisk<'a>,
    /// Records of this width in place of lines of 64, how many of them are a screen, and how many bytes of each are text.
    pub width: Option<u32>,
    pub lines: Option<u32>,
    pub columns: Option<u32>,
    /// Whether what is read is made text.
    pub cleans: bool,
    /// Whether the screens come after those of a file that exists.
    pub appends: bool,
    /// The file of the container's directory that is read in place of the container.
    pub file: Option<&'a str>,
}

/// What is asked for of a container: whether it is said how screens lie in it, otherwise it must not be known to be something else.
pub fn asked_for(unpacking: Unpacking<'_>) -> Asked<'_>
    ensures file { option_map (λ name. name.now) result.file ≡ option_map (λ name. name.now) unpacking.entry.file }
{
    let disk = unpacking.disk;
    let is_told = disk.format != "blocks"
        || disk.offset.is_some()
        || disk.sector.is_some()
        || disk.skew.is_some()
        || disk.sides.is_some()
        || disk.is_half
        || unpacking.width.is_some();
    Asked {
        file: unpacking.file,
        is_told,
    }
}

/// A number of bytes, of lines or of a screen; more than there can be if it is none of this system.
fn size(number: u32) -> usize {
    usize::try_from(number).unwrap_or(usize::MAX)
}

/// The numbers of a skew, or none if it is not given. If they are none, that is printed, and the status is the error.
fn skew_of<F: Files>(files: &mut F, skew: Option<&str>) -> Result<Vec<usize>, u8>
    ensures same { OnOk result (files.new ≡ files.old) }
    ensures files { (F.log files.new).files ≡ (F.log files.old).files }
    ensures refused { IfErr result (λ status. RefusesSkew status (F.log files.old).asked (F.log files.new).asked) }
{
    let Some(skew) = skew else {
        return Ok(Vec::new(files.alloc()));
    };
    match read_skew(files.alloc(), skew.as_bytes()) {
        Ok(numbers) => Ok(numbers),
        Err(Refusal::OutOfMemory) => Err(files.out_of_memory()),
        Err(_) => Err(files.refuse_use("--skew", "takes whole numbers, with commas between them")),
    }
}

/// How a container is read or written. If a value can't be used, that is printed, and the status is the error.
pub fn options_of<F: Files>(files: &mut F, disk: OldDisk<'_>) -> Result<Options, u8>
    ensures same { OnOk result (files.new ≡ files.old) }
    ensures files { (F.log files.new).files ≡ (F.log files.old).files }
    ensures refused { IfErr result (λ status. RefusesValues disk.entry.format.now status (F.log files.old).asked (F.log files.new).asked) }
{
    let Some(format) = Format::named(disk.format.as_bytes()) else {
        return Err(files.refuse_use(
            disk.format,
            "is no format; docs/OLD-SOURCES.md has them all",
        ));
    };
    let skew = skew_of(files, disk.skew)?;
    Ok(Options {
        format,
        offset: disk.offset,
        sector: disk.sector.map(usize::from),
        skew,
        first: disk.first.map_or(0, size),
        side: disk.sides.map(size),
        records: None,
        cleans: false,
        is_half: disk.is_half,
        is_ebcdic: disk.is_ebcdic,
    })
}

/// How `unpack` reads a container.
pub fn with_records(options: Options, unpacking: Unpacking<'_>) -> Options {
    let mut options = options;
    options.cleans = unpacking.cleans;
    options.records = Records::new(
        unpacking.width.map_or(0, size),
        unpacking.lines.map(size),
        unpacking.columns.map(size),
    );
    options
}
