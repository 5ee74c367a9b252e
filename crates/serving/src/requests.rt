//! Requests of a host.

ghost use Rattle.std.specs.Prelude.{◌≡◌, ◌<◌, ◌+◌, true, length, slice_index};
ghost use Rattle.serving.specs.Requests.{bytes_wish, cell_in, is_page, is_quit, line_wish, long_in, page_in, page_wish, sized, wish_of, wished};

use machine::Answer;

/// The version of the requests and their replies.
pub const VERSION: u16 = 1;

/// What is made of the list of all headers.
#[derive(Clone, Copy, Debug, PartialEq, Eq)]
pub enum Listing {
    /// Their link fields.
    Headers,
    /// Each with its name.
    Words,
    /// DEBUG's line of the state.
    TraceLine,
}

/// A request.
#[derive(Clone, Copy)]
pub enum Command<'a> {
    /// Ticks, at most so many.
    Run(u32),
    /// What the machine asked for.
    Answer(Answer<'a>),
    /// A word is entered.
    Enter(u16),
    /// A cell is written.
    SetCell { address: u16, x: u16 },
    /// 1 to 2,046 bytes are written.
    SetBytes { at: u16, bytes: &'a [u8] },
    /// What the machine has beside memory.
    Look,
    /// All of that, to be put back.
    Registers,
    /// It is put back.
    PutBack(&'a [u8]),
    /// At most 2,048 bytes of memory.
    Memory { at: u16, n: u16 },
    /// The compilation address that a name means.
    Find(&'a [u8]),
    /// The view cell of the word that a name means.
    View(&'a [u8]),
    /// The colon word that a name means, as text.
    See(&'a [u8]),
    /// What is made of the list of all headers.
    Listed(Listing),
    /// Where the thread of the colon word is that a name means.
    Extent(&'a [u8]),
    /// The image up to HERE, which starts with this word.
    Image(u16),
    /// The updated buffers are written.
    Save,
    /// The same, and no request comes after it.
    Quit,
    /// The version of the requests and their replies.
    Version,
    /// A frame that is no request.
    Unknown,
}

/// The byte at a place of a body, 0 after its end.
fn byte_in(body: &[u8], at: usize) -> u8
    ensures { result ≡ slice_index body.now at }
{
    if at < body.len() { body[at] } else { 0 }
}

/// The cell at a place of a body.
pub fn cell_in(body: &[u8], at: usize) -> u16
    requires { at < 65536 }
    ensures { result ≡ cell_in body.now at }
{
    u16::from(byte_in(body, at)) + 256 * u16::from(byte_in(body, at + 1))
}

/// The number of four bytes at the front of a body.
fn long_in(body: &[u8]) -> u32
    ensures { result ≡ long_in body.now }
{
    u32::from(cell_in(body, 0)) + 65536 * u32::from(cell_in(body, 2))
}

/// A request whose frame has so many bytes.
#[tactic(auto, unfolding(crate::specs::Requests::sized))]
fn sized<'a>(body: &[u8], n: usize, command: Command<'a>) -> Command<'a>
    ensures { wish_of result ≡ sized body.now n (wish_of command.entry) }
{
    if body.len() == n {
        command
    } else {
        Command::Unknown
    }
}

/// A line, and whether a return ended it.
#[tactic(auto, unfolding(crate::specs::Requests::line_wish))]
fn line_command<'a>(body: &'a [u8]) -> Command<'a>
    ensures { wish_of result ≡ line_wish body.now }
{
    let [returned, bytes @ ..] = body else {
        return Command::Unknown;
    };
    match *returned {
        0 => Command::Answer(Answer::Line {
            bytes,
            returned: false,
        }),
        1 => Command::Answer(Answer::Line {
            bytes,
            returned: true,
        }),
        _ => Command::Unknown,
    }
}

/// Whether a body is a page.
#[tactic(auto, unfolding(crate::specs::Requests::is_page))]
fn is_page(body: &[u8]) -> bool
    ensures { result ≡ is_page body.now }
{
    body.len() == 1024
}

/// The page that a body is.
#[tactic(auto, unfolding(crate::specs::Requests::page_in, crate::specs::Requests::is_page))]
fn page_in(body: &[u8]) -> &[u8; 1024]
    requires { is_page body.now ≡ true }
    ensures { result.now ≡ page_in body.now }
{
    let Some((page, _)) = body.split_first_chunk::<1024>() else {
        unreachable!()
    };
    page
}

#[tactic(auto, unfolding(crate::specs::Requests::page_wish))]
fn page_command<'a>(body: &'a [u8]) -> Command<'a>
    ensures { wish_of result ≡ page_wish body.now }
{
    if is_page(body) {
        let page = page_in(body);
        return Command::Answer(Answer::ReadOk(page));
    }
    Command::Unknown
}

/// Bytes, and where they are written.
#[tactic(auto, unfolding(crate::specs::Requests::bytes_wish))]
fn bytes_command<'a>(body: &'a [u8]) -> Command<'a>
    ensures { wish_of result ≡ bytes_wish body.now }
{
    let [low, high, bytes @ ..] = body else {
        return Command::Unknown;
    };
    let at = u16::from(*low) + 256 * u16::from(*high);
    Command::SetBytes { at, bytes }
}

/// The request that a frame spells.
#[tactic(auto, unfolding(crate::specs::Requests::wished))]
pub fn command_of<'a>(kind: u8, body: &'a [u8]) -> Command<'a>
    ensures { wish_of result ≡ wished kind body.now }
{
    match kind {
        b'r' => sized(body, 4, Command::Run(long_in(body))),
        b'k' => sized(body, 1, Command::Answer(Answer::Key(byte_in(body, 0)))),
        b'l' => line_command(body),
        b'x' => sized(body, 0, Command::Answer(Answer::InputEnd)),
        b'u' => sized(body, 0, Command::Answer(Answer::InputFault)),
        b'p' => page_command(body),
        b'f' => sized(body, 0, Command::Answer(Answer::ReadFault)),
        b'w' => sized(body, 0, Command::Answer(Answer::WriteOk)),
        b'g' => sized(body, 0, Command::Answer(Answer::WriteFault)),
        b'n' => sized(body, 2, Command::Enter(cell_in(body, 0))),
        b'c' => {
            let (address, x) = (cell_in(body, 0), cell_in(body, 2));
            sized(body, 4, Command::SetCell { address, x })
        }
        b'M' => bytes_command(body),
        b'v' => sized(body, 0, Command::Look),
        b'G' => sized(body, 0, Command::Registers),
        b'P' => Command::PutBack(body),
        b'm' => {
            let (at, n) = (cell_in(body, 0), cell_in(body, 2));
            sized(body, 4, Command::Memory { at, n })
        }
        b'y' => Command::Find(body),
        b'i' => Command::View(body),
        b'z' => Command::See(body),
        b'h' => sized(body, 0, Command::Listed(Listing::Headers)),
        b'a' => sized(body, 0, Command::Listed(Listing::Words)),
        b'j' => Command::Extent(body),
        b'd' => sized(body, 0, Command::Listed(Listing::TraceLine)),
        b't' => sized(body, 2, Command::Image(cell_in(body, 0))),
        b'b' => sized(body, 0, Command::Save),
        b'q' => sized(body, 0, Command::Quit),
        b'V' => sized(body, 0, Command::Version),
        _ => Command::Unknown,
    }
}

/// Whether no request comes after this one.
pub fn is_quit(command: Command<'_>) -> bool
    ensures { result ≡ is_quit (wish_of command.entry) }
{
    matches!(command, Command::Quit)
}
