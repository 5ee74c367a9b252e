//! Frames are sent.

ghost use Rattle.std.specs.Prelude.{◌≡◌, ◌<◌, ◌≤◌, ◌+◌, ◌*◌, ◌-◌, ◌^◌, ◌∷◌, ◌++◌, [], length, take, drop, OnErr, OnOk};
ghost use Rattle.std.specs.Io.KnownBytes.{Appends};
ghost use Rattle.memory.specs.Bytes.{bytes, cell_bytes};
ghost use Rattle.serving.specs.Registers.{cells_bytes};
ghost use Rattle.serving.specs.Replies.{cells_reply, refusal};
ghost use Rattle.inner_interpreter.specs.Ends.{Marks};
ghost use Rattle.inner_interpreter.specs.Moves.{shown_bytes};
ghost use Rattle.inner_interpreter.specs.Sent.{AppendsPart};
ghost use Rattle.serving.specs.Frames.{frame, joined, long_reply, pieces, shown_reply};

use inner_interpreter::{EndFault, LentMachine, Output, Shown, send_all};
use machine_parts::parts::Span;
use memory::cell_bytes;

/// The most bytes that a frame of a reply has.
const MOST: usize = 2048;

/// Bytes in three places, one after another.
#[derive(Clone, Copy)]
pub struct Joined<'a> {
    pub front: &'a [u8],
    pub middle: &'a [u8],
    pub back: &'a [u8],
}

/// Bytes in two places.
#[tactic(auto, using(crate::proofs::Joining::file_joined), unfolding(crate::specs::Frames::joined))]
fn pair<'a>(front: &'a [u8], middle: &'a [u8]) -> Joined<'a>
    ensures { joined result ≡ front.now ++ middle.now }
{
    Joined {
        front,
        middle,
        back: b"",
    }
}

/// Bytes in one place.
#[tactic(auto, using(crate::proofs::Joining::joined_alone), unfolding(crate::specs::Frames::joined))]
fn alone(bytes: &[u8]) -> Joined<'_>
    ensures { joined result ≡ bytes.now }
{
    Joined {
        front: bytes,
        middle: b"",
        back: b"",
    }
}

/// How many bytes there are.
#[tactic(auto, unfolding(crate::specs::Frames::joined))]
fn joined_len(bytes: Joined<'_>) -> usize
    requires { length (joined bytes) < 2 ^ 63 }
    ensures { result ≡ length (joined bytes.entry) }
{
    bytes.front.len() + bytes.middle.len() + bytes.back.len()
}

/// At most `n` bytes after the first `skip`.
fn part(bytes: &[u8], skip: usize, n: usize) -> &[u8]
    ensures part { result.now ≡ take n (drop skip bytes.now) }
    ensures few { length result.now ≤ n }
{
    if bytes.len() < skip {
        return &bytes[bytes.len()..];
    }
    let rest = &bytes[skip..];
    if rest.len() < n {
        return rest;
    }
    &rest[..n]
}

/// `n - m`, and 0 if that is less.
fn less(n: usize, m: usize) -> usize
    ensures { result ≡ n - m }
{
    if n < m { 0 } else { n - m }
}

/// A frame's kind and size.
#[tactic(auto, unfolding(memory::specs::Bytes::cell_bytes))]
pub fn send_head<W: Output>(writer: &mut W, kind: u8, size: u16) -> Result<(), EndFault>
    ensures ok { OnOk result (Appends (W.sent writer.old) (W.sent writer.new) (kind ∷ cell_bytes size)) }
    ensures err { OnErr result (AppendsPart (W.sent writer.old) (W.sent writer.new) (kind ∷ cell_bytes size)) }
    ensures mark { Marks (W.failed writer.old) (W.failed writer.new) result }
{
    send_all(writer, &[kind, (size % 256) as u8, (size / 256) as u8])
}

/// At most `n` bytes of two places after the first `skip`.
#[tactic(auto, using(inner_interpreter::proofs::Sending::part_second, inner_interpreter::proofs::Sending::part_first, inner_interpreter::proofs::Sending::appends_both, crate::proofs::Joining::part_joined))]
fn send_two<W: Output>(
    writer: &mut W,
    front: &[u8],
    back: &[u8],
    skip: usize,
    n: usize,
) -> Result<(), EndFault>
    ensures ok { OnOk result (Appends (W.sent writer.old) (W.sent writer.new) (take n (drop skip (front.now ++ back.now)))) }
    ensures err { OnErr result (AppendsPart (W.sent writer.old) (W.sent writer.new) (take n (drop skip (front.now ++ back.now)))) }
    ensures mark { Marks (W.failed writer.old) (W.failed writer.new) result }
{
    let first = part(front, skip, n);
    match send_all(writer, first) {
        Ok(()) => send_all(writer, part(back, less(skip, front.len()), n - first.len())),
        Err(fault) => Err(fault),
    }
}

/// At most `n` bytes after the first `skip`.
#[tactic(auto, using(inner_interpreter::proofs::Sending::part_second, inner_interpreter::proofs::Sending::part_first, inner_interpreter::proofs::Sending::appends_both, crate::proofs::Joining::part_joined), unfolding(crate::specs::Frames::joined))]
fn send_joined<W: Output>(
    writer: &mut W,
    bytes: Joined<'_>,
    skip: usize,
    n: usize,
) -> Result<(), EndFault>
    ensures ok { OnOk result (Appends (W.sent writer.old) (W.sent writer.new) (take n (drop skip (joined bytes.entry)))) }
    ensures err { OnErr result (AppendsPart (W.sent writer.old) (W.sent writer.new) (take n (drop skip (joined bytes.entry)))) }
    ensures mark { Marks (W.failed writer.old) (W.failed writer.new) result }
{
    let first = part(bytes.front, skip, n);
    match send_all(writer, first) {
        Ok(()) => {
            let after = less(skip, bytes.front.len());
            send_two(writer, bytes.middle, bytes.back, after, n - first.len())
        }
        Err(fault) => Err(fault),
    }
}

/// `n` bytes after the first `skip`, as a frame.
#[tactic(auto, using(crate::proofs::Joining::part_length, crate::proofs::Joining::frame_of, crate::proofs::Joining::part_of_frame, crate::proofs::Joining::part_in_frame))]
fn send_piece<W: Output>(
    writer: &mut W,
    kind: u8,
    bytes: Joined<'_>,
    skip: usize,
    n: usize,
) -> Result<(), EndFault>
    requires there { skip + n ≤ length (joined bytes) }
    requires few { n < 65536 }
    ensures ok { OnOk result (Appends (W.sent writer.old) (W.sent writer.new) (frame kind (take n (drop skip (joined bytes.entry))))) }
    ensures err { OnErr result (AppendsPart (W.sent writer.old) (W.sent writer.new)
        (frame kind (take n (drop skip (joined bytes.entry))))) }
    ensures mark { Marks (W.failed writer.old) (W.failed writer.new) result }
{
    match send_head(writer, kind, n as u16) {
        Ok(()) => send_joined(writer, bytes, skip, n),
        Err(fault) => Err(fault),
    }
}

/// What comes after the first `skip` bytes: so many full frames, and one with the rest.
#[tactic(auto, using(inner_interpreter::proofs::Sending::part_second, inner_interpreter::proofs::Sending::part_first, inner_interpreter::proofs::Sending::appends_both, crate::proofs::Joining::drop_further, crate::proofs::Joining::rest_whole), unfolding(crate::specs::Frames::pieces))]
fn send_pieces<W: Output>(
    writer: &mut W,
    kind: u8,
    bytes: Joined<'_>,
    skip: usize,
    full: usize,
) -> Result<(), EndFault>
    requires there { skip + 2048 * full ≤ length (joined bytes) }
    requires few { length (joined bytes) < skip + 2048 * full + 65536 }
    requires all { length (joined bytes) < 2 ^ 63 }
    ensures ok { OnOk result (Appends (W.sent writer.old) (W.sent writer.new) (pieces full kind (drop skip (joined bytes.entry)))) }
    ensures err { OnErr result (AppendsPart (W.sent writer.old) (W.sent writer.new)
        (pieces full kind (drop skip (joined bytes.entry)))) }
    ensures mark { Marks (W.failed writer.old) (W.failed writer.new) result }
{
    if full == 0 {
        return send_piece(writer, kind, bytes, skip, joined_len(bytes) - skip);
    }
    match send_piece(writer, kind, bytes, skip, MOST) {
        Ok(()) => send_pieces(writer, kind, bytes, skip + MOST, full - 1),
        Err(fault) => Err(fault),
    }
}

/// A long reply.
#[tactic(auto, unfolding(crate::specs::Frames::long_reply))]
fn send_long<W: Output>(writer: &mut W, kind: u8, bytes: Joined<'_>) -> Result<(), EndFault>
    requires { length (joined bytes) < 2 ^ 63 }
    ensures ok { OnOk result (Appends (W.sent writer.old) (W.sent writer.new) (long_reply kind (joined bytes.entry))) }
    ensures err { OnErr result (AppendsPart (W.sent writer.old) (W.sent writer.new) (long_reply kind (joined bytes.entry))) }
    ensures mark { Marks (W.failed writer.old) (W.failed writer.new) result }
{
    send_pieces(writer, kind, bytes, 0, joined_len(bytes) / MOST)
}

/// Bytes that are shown.
#[tactic(auto, unfolding(crate::specs::Frames::shown_reply, crate::specs::Frames::shown_pieces))]
fn send_shown<W: Output>(writer: &mut W, bytes: Joined<'_>) -> Result<(), EndFault>
    requires { length (joined bytes) < 2 ^ 63 }
    ensures ok { OnOk result (Appends (W.sent writer.old) (W.sent writer.new) (shown_reply (joined bytes.entry))) }
    ensures err { OnErr result (AppendsPart (W.sent writer.old) (W.sent writer.new) (shown_reply (joined bytes.entry))) }
    ensures mark { Marks (W.failed writer.old) (W.failed writer.new) result }
{
    let size = joined_len(bytes);
    if size == 0 {
        return Ok(());
    }
    send_pieces(writer, b's', bytes, 0, (size - 1) / MOST)
}

/// The bytes of a span, and after them these.
#[tactic(auto, using(crate::proofs::Joining::span_joined), unfolding(crate::specs::Frames::joined))]
fn send_span<W: Output>(
    machine: &LentMachine,
    writer: &mut W,
    span: Span,
    back: &[u8],
) -> Result<(), EndFault>
    requires { length back.now < 2 }
    ensures ok { OnOk result (Appends (W.sent writer.old) (W.sent writer.new)
        (shown_reply (bytes machine.now.parts.memory span.at span.len ++ back.now))) }
    ensures err { OnErr result (AppendsPart (W.sent writer.old) (W.sent writer.new)
        (shown_reply (bytes machine.now.parts.memory span.at span.len ++ back.now))) }
    ensures mark { Marks (W.failed writer.old) (W.failed writer.new) result }
{
    let (front, middle) = machine.memory().span(span.at, span.len);
    send_shown(
        writer,
        Joined {
            front,
            middle,
            back,
        },
    )
}

/// A byte that is shown.
fn send_byte<W: Output>(writer: &mut W, byte: u8) -> Result<(), EndFault>
    ensures ok { OnOk result (Appends (W.sent writer.old) (W.sent writer.new) (shown_reply (byte ∷ []))) }
    ensures err { OnErr result (AppendsPart (W.sent writer.old) (W.sent writer.new) (shown_reply (byte ∷ []))) }
    ensures mark { Marks (W.failed writer.old) (W.failed writer.new) result }
{
    send_shown(writer, alone(&[byte]))
}

/// Nothing is shown.
#[tactic(auto, using(inner_interpreter::proofs::Moving::appends_none), unfolding(crate::specs::Frames::shown_reply, crate::specs::Frames::shown_pieces))]
fn send_nothing<W: Output>(_writer: &W)
    ensures { Appends (W.sent _writer.now) (W.sent _writer.now) (shown_reply []) }
{}

/// The bytes that an act showed.
#[tactic(auto, using(crate::proofs::Joining::alone), unfolding(inner_interpreter::specs::Moves::shown_bytes))]
pub fn show<W: Output>(machine: &LentMachine, writer: &mut W, shown: Shown) -> Result<(), EndFault>
    ensures ok { OnOk result (Appends (W.sent writer.old) (W.sent writer.new)
        (shown_reply (shown_bytes machine.now.parts.memory shown))) }
    ensures err { OnErr result (AppendsPart (W.sent writer.old) (W.sent writer.new)
        (shown_reply (shown_bytes machine.now.parts.memory shown))) }
    ensures mark { Marks (W.failed writer.old) (W.failed writer.new) result }
{
    match shown {
        Shown::Nothing => {
            send_nothing(writer);
            Ok(())
        }
        Shown::Byte(byte) => send_byte(writer, byte),
        Shown::Span(span) => send_span(machine, writer, span, b""),
        Shown::Line(span) => send_span(machine, writer, span, b" "),
    }
}

/// How many bytes an act showed.
#[tactic(auto, unfolding(inner_interpreter::specs::Moves::shown_bytes))]
pub fn shown_len(machine: &LentMachine, shown: Shown) -> u32
    ensures len { result ≡ length (shown_bytes machine.now.parts.memory shown) }
    ensures few { result ≤ 65536 }
{
    match shown {
        Shown::Nothing => 0,
        Shown::Byte(_) => 1,
        Shown::Span(span) => span_len(machine, span),
        Shown::Line(span) => span_len(machine, span) + 1,
    }
}

/// How many bytes a span has.
#[tactic(auto, using(crate::proofs::Joining::span_length))]
fn span_len(machine: &LentMachine, span: Span) -> u32
    ensures len { result ≡ length (bytes machine.now.parts.memory span.at span.len) }
    ensures few { result ≤ 65535 }
{
    let (_front, _back) = machine.memory().span(span.at, span.len);
    u32::from(span.len)
}

/// A frame.
#[tactic(auto, using(crate::proofs::Joining::whole_part))]
pub fn send_frame<W: Output>(writer: &mut W, kind: u8, body: &[u8]) -> Result<(), EndFault>
    requires { length body.now < 65536 }
    ensures ok { OnOk result (Appends (W.sent writer.old) (W.sent writer.new) (frame kind body.now)) }
    ensures err { OnErr result (AppendsPart (W.sent writer.old) (W.sent writer.new) (frame kind body.now)) }
    ensures mark { Marks (W.failed writer.old) (W.failed writer.new) result }
{
    send_piece(writer, kind, alone(body), 0, body.len())
}

/// Bytes of memory as a frame.
#[tactic(auto, using(crate::proofs::Joining::whole_part, crate::proofs::Joining::span_length))]
pub fn send_memory<W: Output>(
    machine: &LentMachine,
    writer: &mut W,
    kind: u8,
    at: u16,
    n: u16,
) -> Result<(), EndFault>
    ensures ok { OnOk result (Appends (W.sent writer.old) (W.sent writer.new)
        (frame kind (bytes machine.now.parts.memory at n))) }
    ensures err { OnErr result (AppendsPart (W.sent writer.old) (W.sent writer.new)
        (frame kind (bytes machine.now.parts.memory at n))) }
    ensures mark { Marks (W.failed writer.old) (W.failed writer.new) result }
{
    let (front, middle) = machine.memory().span(at, n);
    send_piece(writer, kind, pair(front, middle), 0, usize::from(n))
}

/// Cells, each in two bytes.
pub fn send_list<W: Output>(writer: &mut W, cells: &[u16]) -> Result<(), EndFault>
    ensures ok { OnOk result (Appends (W.sent writer.old) (W.sent writer.new) (cells_bytes cells.now)) }
    ensures err { OnErr result (AppendsPart (W.sent writer.old) (W.sent writer.new) (cells_bytes cells.now)) }
    ensures mark { Marks (W.failed writer.old) (W.failed writer.new) result }
{
    for cell in cells {
        match send_all(writer, &cell_bytes(*cell)) {
            Ok(()) => {}
            Err(fault) => return Err(fault),
        }
    }
    Ok(())
}

/// Cells as a frame of their own.
#[tactic(auto, using(crate::proofs::States::cells_length, crate::proofs::Joining::frame_of, crate::proofs::Joining::part_of_frame, crate::proofs::Joining::part_in_frame), unfolding(crate::specs::Replies::cells_reply))]
pub fn send_cells<W: Output>(writer: &mut W, kind: u8, cells: &[u16]) -> Result<(), EndFault>
    requires { length cells.now < 32768 }
    ensures ok { OnOk result (Appends (W.sent writer.old) (W.sent writer.new) (cells_reply kind cells.now)) }
    ensures err { OnErr result (AppendsPart (W.sent writer.old) (W.sent writer.new) (cells_reply kind cells.now)) }
    ensures mark { Marks (W.failed writer.old) (W.failed writer.new) result }
{
    match send_head(writer, kind, 2 * cells.len() as u16) {
        Ok(()) => send_list(writer, cells),
        Err(fault) => Err(fault),
    }
}

/// A refusal.
#[tactic(auto, unfolding(crate::specs::Replies::refusal))]
pub fn refuse<W: Output>(writer: &mut W, cause: u8) -> Result<(), EndFault>
    ensures ok { OnOk result (Appends (W.sent writer.old) (W.sent writer.new) (refusal cause)) }
    ensures err { OnErr result (AppendsPart (W.sent writer.old) (W.sent writer.new) (refusal cause)) }
    ensures mark { Marks (W.failed writer.old) (W.failed writer.new) result }
{
    send_frame(writer, b'!', &[cause])
}

/// A long reply of bytes that lie in two places.
pub fn send_pair<W: Output>(
    writer: &mut W,
    kind: u8,
    front: &[u8],
    middle: &[u8],
) -> Result<(), EndFault>
    requires { length front.now + length middle.now < 2 ^ 63 }
    ensures ok { OnOk result (Appends (W.sent writer.old) (W.sent writer.new) (long_reply kind (front.now ++ middle.now))) }
    ensures err { OnErr result (AppendsPart (W.sent writer.old) (W.sent writer.new) (long_reply kind (front.now ++ middle.now))) }
    ensures mark { Marks (W.failed writer.old) (W.failed writer.new) result }
{
    send_long(writer, kind, pair(front, middle))
}

/// A long reply of bytes that lie in one place.
pub fn send_text<W: Output>(writer: &mut W, kind: u8, text: &[u8]) -> Result<(), EndFault>
    ensures ok { OnOk result (Appends (W.sent writer.old) (W.sent writer.new) (long_reply kind text.now)) }
    ensures err { OnErr result (AppendsPart (W.sent writer.old) (W.sent writer.new) (long_reply kind text.now)) }
    ensures mark { Marks (W.failed writer.old) (W.failed writer.new) result }
{
    send_long(writer, kind, alone(text))
}
