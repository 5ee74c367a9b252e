//! The words of `import` and `export`, and of `unpack` and `pack`.

/// A container, a file of blocks, and how screens lie in the container.
#[derive(Drop)]
pub struct ContainerWords {
    pub container: String,
    pub blocks: String,
    /// The name of the format.
    pub format: String,
    /// Numbers in place of the format's own.
    pub offset: Option<u32>,
    pub sector: Option<u16>,
    pub skew: Option<String>,
    /// Whether what is read is made text.
    pub cleans: bool,
}

/// The same for containers of any kind.
#[derive(Drop)]
pub struct DiskWords {
    pub container: ContainerWords,
    /// The number of the first screen.
    pub first: Option<u32>,
    /// How many bytes a track has, if those of two sides come in turn.
    pub sides: Option<u32>,
    /// Whether screens have 512 bytes.
    pub is_half: bool,
    /// Whether letters are those of code page 37.
    pub is_ebcdic: bool,
}

/// The words of `unpack`.
#[derive(Drop)]
pub struct UnpackWords {
    pub disk: DiskWords,
    /// Records in place of lines: their width, how many are a screen, and how many bytes of each are text.
    pub width: Option<u32>,
    pub lines: Option<u32>,
    pub columns: Option<u32>,
    /// Whether the screens come after those of a file that exists.
    pub appends: bool,
    /// The file of the container's directory that is taken.
    pub file: Option<String>,
}
