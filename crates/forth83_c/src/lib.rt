//! The machine for hosts in C: a record that the host owns, and functions of it.
#![tactic(auto)]

mod advising;
mod calling;
mod driving;
mod finding;
mod judging;
mod kept;
pub mod laws;
mod lent;
mod lines;
mod looking;
mod no_blocks;
mod obeying;
pub mod record;
mod replies;
mod running;
mod screens;
mod showing;
mod stack_cells;
mod status;
mod stop;
mod surveying;
mod text;
mod tracing;
mod unpacking;

ghost use Rattle.std.specs.Prelude.{◌≡◌, ◌≢◌, ◌<◌, ◌≤◌, ◌⊎◌, ◌+◌, ◌%◌, ◌*◌, length, take, drop, true, IsTrue};
ghost use Rattle.dictionary.specs.Adding.{is_name};
ghost use Rattle.image_loader.specs.Files.{Contents, IsFile, IsCutShort, IsFollowed, HasBadMagic, HasBadVersion, HasBadBuffers, HasBadSize};
ghost use Rattle.machine.specs.State.{loaded_state};
ghost use Rattle.machine.specs.Answer.{InputEnd, ReadFault, ReadOk, WriteFault, WriteOk};
ghost use Rattle.forth83_c.specs.Called.{AsksPage, HasAnswered, HasBegun, HasEntered, HasFound, HasPopped, HasPushed, HasRun, HasSaved, TellsByCode, TellsMachine, WhyNotAnswered, WhyNotEntered, WhyNotFound, WhyNoPage, WhyNotPushed, WhyNotPopped, WhyNotSaved};
ghost use Rattle.forth83_c.specs.Kept.{IsKept, SameBeside};
ghost use Rattle.forth83_c.specs.Calls.{ByCode, HasCalled, HasResumed, WhyNotCalled, WhyNotResumed};
ghost use Rattle.serving.specs.Requests.{wished};
ghost use Rattle.serving.specs.Room.{may_move, move_room};
ghost use Rattle.forth83_c.specs.Replied.{HasReplied, TellsReplied};
ghost use Rattle.forth83_c.specs.Looked.{HasExtent, HasListed, HasSeen, HasTraced, HasViewed, WhyNoExtent, WhyNotListed, WhyNotSeen, WhyNotSurveyed, WhyNotTraced, WhyNotViewed};
ghost use Rattle.forth83_c.specs.Paged.{HasNoText, HasNoScreens};
ghost use Rattle.forth83_c.specs.declared.kept.TheConstants.{ABI};
ghost use Rattle.screen_text.specs.Reading.{IsRead, read};
ghost use Rattle.screen_text.specs.Screens.{screen_text};

use inner_interpreter::Answer;
use lessons::{JudgedFiles, Progress};
use record::{Forth83, Forth83End};
use screens::NoScreens;
use status::Status;
use std::alloc::Global;
use surveying::NamedBlocks;
use unpacking::Told;

/// Loads an image, of which `image` are the bytes of the file, for a device of `block_count` blocks.
#[unsafe(no_mangle)]
pub extern "C" fn forth83_load_3(image: &[u8], block_count: u32, machine: &mut Forth83) -> u32
    // What is kept then is the machine that the file's image starts with.
    ensures loaded { (contents : Contents) → IsFile image.now contents → result ≡ 0 →
        IsKept machine.new (loaded_state contents block_count) }
    ensures begun { result ≡ 0 → HasBegun machine.new }
    ensures found { result ≡ 0 → (contents : Contents) × IsFile image.now contents }

    // Each file is loaded: no memory is asked for.
    ensures accepted { (contents : Contents) → IsFile image.now contents → result ≡ 0 }
    ensures known { result ≢ 2 }

    // Other bytes are refused by the first field that fits no file.
    ensures truncated { IsCutShort image.now → result ≡ 4 }
    ensures trailing { IsFollowed image.now → result ≡ 5 }
    ensures bad_magic { HasBadMagic image.now → result ≡ 6 }
    ensures bad_version { HasBadVersion image.now → result ≡ 7 }
    ensures bad_buffers { HasBadBuffers image.now → result ≡ 8 }
    ensures bad_size { HasBadSize image.now → result ≡ 9 }

    // If it is refused the record is as it was.
    ensures stays { result ≢ 0 → machine.new ≡ machine.old }
{
    running::load(image, block_count, machine).code()
}

/// Goes on with the machine: by the typed bytes, for at most `limit` ticks, up to where the host is needed. What it shows is
/// put into `shown`. With room for 131,072 bytes all of it is; with less, bytes of memory that do not fit are left to the host,
/// and `end` says which they are.
#[unsafe(no_mangle)]
pub extern "C" fn forth83_run(
    alloc: Global,
    machine: &mut Forth83,
    typed: &[u8],
    shown: &mut [u8],
    limit: u64,
    end: &mut Forth83End,
) -> u32
    ensures ran { result ≡ 0 → HasRun machine.old machine.new typed.now shown.new limit end.new }
    ensures beyond { result ≡ 0 → drop end.new.shown shown.new ≡ drop end.new.shown shown.old }

    // It is refused if there is no room, or if the record keeps no machine; all is then as it was.
    ensures refused { (result ≡ 0) ⊎ ((result ≡ 1) ⊎ (result ≡ 3)) }
    ensures room { length shown.old ≡ 0 → result ≡ 3 }
    ensures roomy { result ≡ 3 → length shown.old ≡ 0 }
    ensures no_machine { 0 < length shown.old → TellsMachine machine.old result }
    ensures stays { result ≢ 0 → machine.new ≡ machine.old }
    ensures silent { result ≢ 0 → shown.new ≡ shown.old }
    ensures untold { result ≢ 0 → end.new ≡ end.old }
{
    running::run(alloc, machine, typed, shown, limit, end).code()
}

/// Answers a request for a block with its bytes, 1,024 of them.
#[unsafe(no_mangle)]
#[tactic(auto, using(crate::proofs::Codes::code_zero))]
pub extern "C" fn forth83_read(alloc: Global, machine: &mut Forth83, page: &[u8]) -> u32
    ensures answered { result ≡ 0 → HasAnswered machine.old machine.new (ReadOk page.now) }
    ensures size { length page.now ≢ 1024 → result ≡ 13 }
    ensures no_machine { length page.now ≡ 1024 → TellsMachine machine.old result }
    ensures why { length page.now ≡ 1024 → TellsByCode (WhyNotAnswered (ReadOk page.now)) machine.old result }
    ensures known { result ≢ 2 }
    ensures stays { result ≢ 0 → machine.new ≡ machine.old }
{
    if page.len() != 1024 {
        return Status::BadPage.code();
    }
    let mut bytes = [0u8; 1024];
    bytes.copy_from_slice(page);
    running::answer(alloc, machine, Answer::ReadOk(&bytes)).code()
}

/// Answers that a block's bytes are kept.
#[unsafe(no_mangle)]
#[tactic(auto, using(crate::proofs::Codes::code_zero))]
pub extern "C" fn forth83_written(alloc: Global, machine: &mut Forth83) -> u32
    ensures answered { result ≡ 0 → HasAnswered machine.old machine.new WriteOk }
    ensures no_machine { TellsMachine machine.old result }
    ensures why { TellsByCode (WhyNotAnswered WriteOk) machine.old result }
    ensures known { result ≢ 2 }
    ensures stays { result ≢ 0 → machine.new ≡ machine.old }
{
    running::answer(alloc, machine, Answer::WriteOk).code()
}

/// Answers that nothing is typed any more: the machine halts.
#[unsafe(no_mangle)]
#[tactic(auto, using(crate::proofs::Codes::code_zero))]
pub extern "C" fn forth83_ended(alloc: Global, machine: &mut Forth83) -> u32
    ensures answered { result ≡ 0 → HasAnswered machine.old machine.new InputEnd }
    ensures no_machine { TellsMachine machine.old result }
    ensures why { TellsByCode (WhyNotAnswered InputEnd) machine.old result }
    ensures known { result ≢ 2 }
    ensures stays { result ≢ 0 → machine.new ≡ machine.old }
{
    running::answer(alloc, machine, Answer::InputEnd).code()
}

/// Answers that the block can't be read, or that its bytes can't be kept.
#[unsafe(no_mangle)]
#[tactic(auto, using(crate::proofs::Codes::code_zero))]
pub extern "C" fn forth83_failed(alloc: Global, machine: &mut Forth83) -> u32
    ensures read { result ≡ 0 → machine.old.asks ≢ 4 → HasAnswered machine.old machine.new ReadFault }
    ensures write { result ≡ 0 → machine.old.asks ≡ 4 → HasAnswered machine.old machine.new WriteFault }
    ensures no_machine { TellsMachine machine.old result }
    ensures why_read { machine.old.asks ≢ 4 → TellsByCode (WhyNotAnswered ReadFault) machine.old result }
    ensures why_write { machine.old.asks ≡ 4 → TellsByCode (WhyNotAnswered WriteFault) machine.old result }
    ensures known { result ≢ 2 }
    ensures stays { result ≢ 0 → machine.new ≡ machine.old }
{
    if machine.asks == 4 {
        return running::answer(alloc, machine, Answer::WriteFault).code();
    }
    running::answer(alloc, machine, Answer::ReadFault).code()
}

/// Puts the bytes of the block that is asked to be kept into `page`, which has 1,024.
#[unsafe(no_mangle)]
#[tactic(auto, using(crate::proofs::Codes::code_zero))]
pub extern "C" fn forth83_page(machine: &Forth83, page: &mut [u8]) -> u32
    ensures asks { result ≡ 0 → AsksPage machine.now page.new }
    ensures size { length page.old ≢ 1024 → result ≡ 13 }
    ensures no_machine { length page.old ≡ 1024 → TellsMachine machine.now result }
    ensures why { length page.old ≡ 1024 → TellsByCode WhyNoPage machine.now result }
    ensures stays { result ≢ 0 → page.new ≡ page.old }
    ensures known { result ≢ 2 }
{
    running::asked_page(machine, page).code()
}

/// Enters the word at a compilation address: the return stack is emptied, and the word comes next.
#[unsafe(no_mangle)]
#[tactic(auto, using(crate::proofs::Codes::code_zero))]
pub extern "C" fn forth83_enter(machine: &mut Forth83, word: u16) -> u32
    ensures entered { result ≡ 0 → HasEntered machine.old machine.new word }
    ensures no_machine { TellsMachine machine.old result }
    ensures why { TellsByCode WhyNotEntered machine.old result }
    ensures stays { result ≢ 0 → machine.new ≡ machine.old }
    ensures known { result ≢ 2 }
{
    running::enter(machine, word).code()
}

/// Calls the word at a compilation address: where the machine is is kept aside, and the word comes next. When it has returned, a run ends.
#[unsafe(no_mangle)]
#[tactic(auto, using(crate::proofs::Codes::code_zero))]
pub extern "C" fn forth83_call(machine: &mut Forth83, word: u16) -> u32
    ensures called { result ≡ 0 → HasCalled machine.old machine.new word }
    ensures why { ByCode WhyNotCalled machine.old result }
    ensures stays { result ≢ 0 → machine.new ≡ machine.old }
{
    calling::call(machine, word).code()
}

/// Puts the machine back where it was before the call, whether the word has returned or not.
#[unsafe(no_mangle)]
#[tactic(auto, using(crate::proofs::Codes::code_zero))]
pub extern "C" fn forth83_resume(machine: &mut Forth83) -> u32
    ensures resumed { result ≡ 0 → HasResumed machine.old machine.new }
    ensures why { ByCode WhyNotResumed machine.old result }
    ensures stays { result ≢ 0 → machine.new ≡ machine.old }
{
    calling::resume(machine).code()
}

/// The layout of the records of this library.
#[unsafe(no_mangle)]
pub extern "C" fn forth83_abi() -> u32
    ensures { result ≡ ABI }
{
    kept::ABI
}

/// Puts the compilation address of the word that a name means into `word`, as FIND finds it: in CONTEXT's vocabulary, and then
/// in FORTH.
#[unsafe(no_mangle)]
#[tactic(auto, using(crate::proofs::Codes::code_zero))]
pub extern "C" fn forth83_find(machine: &Forth83, name: &[u8], word: &mut u16) -> u32
    ensures found { result ≡ 0 → HasFound machine.now name.now word.new }

    // What is found has a name of 1 to 31 bytes.
    ensures named { result ≡ 0 → IsTrue (is_name name.now) }

    // It isn't found if the search comes to no header, or gives up at a chain that is too long; nothing is shown then.
    ensures no_machine { TellsMachine machine.now result }
    ensures why { TellsByCode (WhyNotFound name.now) machine.now result }
    ensures untold { result ≢ 0 → word.new ≡ word.old }
    ensures known { result ≢ 2 }
{
    finding::find(machine, name, word).code()
}

/// Puts the view cell of the word that a name means into `block`: the number of the block in which the word was made.
#[unsafe(no_mangle)]
#[tactic(auto, using(crate::proofs::Codes::code_zero))]
pub extern "C" fn forth83_view(machine: &Forth83, name: &[u8], block: &mut u16) -> u32
    ensures viewed { result ≡ 0 → HasViewed machine.now name.now block.new }
    ensures no_machine { TellsMachine machine.now result }
    ensures why { TellsByCode (WhyNotViewed name.now) machine.now result }
    ensures untold { result ≢ 0 → block.new ≡ block.old }
    ensures known { result ≢ 2 }
{
    looking::view(machine, name, block).code()
}

/// Puts the link fields of all headers of all vocabularies into `list`, ascending and each once, and how many they are into `count`.
#[unsafe(no_mangle)]
#[tactic(auto, using(crate::proofs::Codes::code_zero))]
pub extern "C" fn forth83_headers(
    alloc: Global,
    machine: &Forth83,
    list: &mut [u16],
    count: &mut usize,
) -> u32
    ensures listed { result ≡ 0 → HasListed machine.now (take count.new list.new) }
    ensures fits { result ≡ 0 → count.new ≤ length list.new }
    ensures beyond { result ≡ 0 → drop count.new list.new ≡ drop count.new list.old }
    ensures no_machine { TellsMachine machine.now result }
    ensures why { TellsByCode (WhyNotListed (length list.old)) machine.now result }
    ensures stays { result ≢ 0 → list.new ≡ list.old }
    ensures untold { result ≢ 0 → count.new ≡ count.old }
{
    looking::headers(alloc, machine, list, count).code()
}

/// Puts where the thread of the colon word that a name means begins into `from`, and where it ends into `end`, as DEBUG takes it.
#[unsafe(no_mangle)]
#[tactic(auto, using(crate::proofs::Codes::code_zero))]
pub extern "C" fn forth83_extent(
    alloc: Global,
    machine: &Forth83,
    name: &[u8],
    from: &mut u16,
    end: &mut u16,
) -> u32
    ensures extent { result ≡ 0 → HasExtent machine.now name.now from.new end.new }
    ensures no_machine { TellsMachine machine.now result }
    ensures why { TellsByCode (WhyNoExtent name.now) machine.now result }
    ensures untold_from { result ≢ 0 → from.new ≡ from.old }
    ensures untold_end { result ≢ 0 → end.new ≡ end.old }
{
    looking::extent(alloc, machine, name, from, end).code()
}

/// Puts SEE's text of the colon word that a name means into `text`, and how many bytes it has into `size`.
#[unsafe(no_mangle)]
#[tactic(auto, using(crate::proofs::Codes::code_zero))]
pub extern "C" fn forth83_see(
    alloc: Global,
    machine: &Forth83,
    name: &[u8],
    text: &mut [u8],
    size: &mut usize,
) -> u32
    ensures seen { result ≡ 0 → HasSeen machine.now name.now (take size.new text.new) }
    ensures fits { result ≡ 0 → size.new ≤ length text.new }
    ensures beyond { result ≡ 0 → drop size.new text.new ≡ drop size.new text.old }
    ensures no_machine { TellsMachine machine.now result }
    ensures why { TellsByCode (WhyNotSeen name.now (length text.old)) machine.now result }
    ensures stays { result ≢ 0 → text.new ≡ text.old }
    ensures untold { result ≢ 0 → size.new ≡ size.old }
{
    looking::see(alloc, machine, name, text, size).code()
}

/// Puts DEBUG's line of the tick that comes next into `text`, and how many bytes it has into `size`.
#[unsafe(no_mangle)]
#[tactic(auto, using(crate::proofs::Codes::code_zero))]
pub extern "C" fn forth83_trace_line(
    alloc: Global,
    machine: &Forth83,
    text: &mut [u8],
    size: &mut usize,
) -> u32
    ensures traced { result ≡ 0 → HasTraced machine.now (take size.new text.new) }
    ensures fits { result ≡ 0 → size.new ≤ length text.new }
    ensures beyond { result ≡ 0 → drop size.new text.new ≡ drop size.new text.old }
    ensures no_machine { TellsMachine machine.now result }
    ensures why { TellsByCode (WhyNotTraced (length text.old)) machine.now result }
    ensures stays { result ≢ 0 → text.new ≡ text.old }
    ensures untold { result ≢ 0 → size.new ≡ size.old }
{
    tracing::trace_line(alloc, machine, text, size).code()
}

/// Puts the text of a screen of 1,024 bytes into `text`, and how many bytes it has into `size`: a heading with its number, and its lines.
#[unsafe(no_mangle)]
#[tactic(auto, using(crate::proofs::Codes::code_zero))]
pub extern "C" fn forth83_text(
    alloc: Global,
    number: u16,
    page: &[u8],
    text: &mut [u8],
    size: &mut usize,
) -> u32
    ensures written { result ≡ 0 → take size.new text.new ≡ screen_text number page.now }
    ensures fits { result ≡ 0 → size.new ≤ length text.new }
    ensures beyond { result ≡ 0 → drop size.new text.new ≡ drop size.new text.old }
    ensures why { HasNoText number page.now (length text.old) result }
    ensures stays { result ≢ 0 → text.new ≡ text.old }
    ensures untold { result ≢ 0 → size.new ≡ size.old }
{
    screens::write(alloc, number, page, text, size).code()
}

/// Puts the numbers of the screens of a text into `numbers`, their bytes into `pages`, 1,024 for each, and how many they are into `count`. Of
/// a text that is none of screens the first line at fault goes into `line`, counted from 1, and what is wrong with it into `cause`.
#[unsafe(no_mangle)]
pub extern "C" fn forth83_screens(
    alloc: Global,
    text: &[u8],
    numbers: &mut [u16],
    pages: &mut [u8],
    count: &mut usize,
    line: &mut usize,
    cause: &mut u16,
) -> u32
    ensures read { result ≡ 0 → IsRead (read text.now) (take count.new numbers.new) (take (1024 * count.new) pages.new) }
    ensures fits { result ≡ 0 → (count.new ≤ length numbers.new) × (1024 * count.new ≤ length pages.new) }
    ensures beyond { result ≡ 0 → (drop count.new numbers.new ≡ drop count.new numbers.old)
        × (drop (1024 * count.new) pages.new ≡ drop (1024 * count.new) pages.old) }
    ensures why { result ≢ 0 → HasNoScreens (read text.now) (length numbers.old) (length pages.old) line.new cause.new result }
    ensures stays { result ≢ 0 → (numbers.new ≡ numbers.old) × (pages.new ≡ pages.old) }
{
    match screens::screens(alloc, text, numbers, pages) {
        Ok(found) => {
            *count = found;
            0
        }
        Err(NoScreens::OutOfMemory) => 2,
        Err(NoScreens::ShortRoom) => 3,
        Err(NoScreens::Refused(fault)) => {
            *line = fault.line;
            *cause = screens::number_of(fault.cause);
            23
        }
    }
}

/// Puts a report on old screens into `text`, how many bytes it has into `size`, and the dialect that is to be loaded before them into
/// `dialect`: 1 fig-FORTH, 2 Forth-79, 3 F83, 4 polyFORTH, 0 none. The screens are those of a file of blocks of this name; their words are
/// compared with those of the machine's Forth.
#[unsafe(no_mangle)]
#[tactic(auto, using(crate::proofs::Codes::code_zero))]
pub extern "C" fn forth83_survey(
    alloc: Global,
    machine: &Forth83,
    name: &[u8],
    blocks: &[u8],
    text: &mut [u8],
    size: &mut usize,
    dialect: &mut u16,
) -> u32
    ensures fits { result ≡ 0 → size.new ≤ length text.new }
    ensures beyond { result ≡ 0 → drop size.new text.new ≡ drop size.new text.old }
    ensures no_machine { TellsMachine machine.now result }
    ensures why { TellsByCode WhyNotSurveyed machine.now result }
    ensures stays { result ≢ 0 → text.new ≡ text.old }
    ensures untold { result ≢ 0 → size.new ≡ size.old }
    ensures unnamed { result ≢ 0 → dialect.new ≡ dialect.old }
{
    let blocks = NamedBlocks {
        name,
        bytes: blocks,
    };
    surveying::survey(alloc, machine, blocks, text, size, dialect).code()
}

/// Puts the blocks of a container of another system into `room`, and how many bytes they have into `size`, by options as on a command
/// line; the number of the first one into `first`; and what is said of them, or why they are not read, into `said`.
#[unsafe(no_mangle)]
pub extern "C" fn forth83_unpack(
    alloc: Global,
    options: &[u8],
    container: &[u8],
    room: &mut [u8],
    size: &mut usize,
    first: &mut u16,
    said: &mut [u8],
    said_size: &mut usize,
) -> u32
    ensures known { (result ≡ 0) ⊎ ((result ≡ 2) ⊎ ((result ≡ 3) ⊎ (result ≡ 23))) }
    ensures fits { result ≡ 0 → size.new ≤ length room.new }
    ensures beyond { result ≡ 0 → drop size.new room.new ≡ drop size.new room.old }
    ensures whole { result ≡ 0 → size.new % 1024 ≡ 0 }
    ensures stays { result ≢ 0 → room.new ≡ room.old }
{
    let told = Told {
        room: said,
        size: said_size,
    };
    match unpacking::unpack(alloc, options, container, room, size, told) {
        Ok(number) => {
            *first = number;
            0
        }
        Err(why) => why.code(),
    }
}

/// Puts blocks into a container of another system, in its place, by options as on a command line; and what is said of them, or why they are
/// not written, into `said`.
#[unsafe(no_mangle)]
pub extern "C" fn forth83_pack(
    alloc: Global,
    options: &[u8],
    blocks: &[u8],
    container: &mut [u8],
    said: &mut [u8],
    said_size: &mut usize,
) -> u32
    ensures known { (result ≡ 0) ⊎ ((result ≡ 2) ⊎ ((result ≡ 3) ⊎ (result ≡ 23))) }
    ensures len { length container.new ≡ length container.old }
    ensures stays { result ≢ 0 → container.new ≡ container.old }
{
    let told = Told {
        room: said,
        size: said_size,
    };
    match unpacking::pack(alloc, options, blocks, container, told) {
        Ok(()) => 0,
        Err(why) => why.code(),
    }
}

/// Puts the name of the format that a container may have into `said`, by its size, its head and its first lines.
#[unsafe(no_mangle)]
pub extern "C" fn forth83_guess_format(
    alloc: Global,
    container: &[u8],
    said: &mut [u8],
    said_size: &mut usize,
) -> u32
    ensures { (result ≡ 0) ⊎ ((result ≡ 2) ⊎ ((result ≡ 3) ⊎ (result ≡ 23))) }
{
    let told = Told {
        room: said,
        size: said_size,
    };
    match unpacking::guess(alloc, container, told) {
        Ok(()) => 0,
        Err(why) => why.code(),
    }
}

/// Puts what is said of a case, as docs/FORMATS.md describes it, into `reply`, and how many bytes it has into `written`: what a fault means and what was
/// probably meant, or what is said of EXIT in a counted loop. With too little room, `written` says how much is needed.
#[unsafe(no_mangle)]
pub extern "C" fn forth83_advise(
    alloc: Global,
    case: &[u8],
    reply: &mut [u8],
    written: &mut usize,
) -> u32
    // 0: the answer is at the front of the room; 2: out of memory; 3: it needs more room; 23: the bytes are no case.
    ensures known { (result ≡ 0) ⊎ ((result ≡ 2) ⊎ ((result ≡ 3) ⊎ (result ≡ 23))) }
    ensures fits { result ≡ 0 → written.new ≤ length reply.new }
    ensures beyond { result ≡ 0 → drop written.new reply.new ≡ drop written.new reply.old }
    ensures needs { result ≡ 3 → length reply.new < written.new }
    ensures stays { result ≢ 0 → reply.new ≡ reply.old }
{
    advising::advise(alloc, case, reply, written)
}

/// Judges the next lesson of what a pupil wrote, with the course's own checkers: puts its line into `text`, and how many bytes it has into `size`,
/// which is 0 if no lesson is left. The image is one that has loaded the checkers, `texts` what is said of faults, and `course` and `pupil` are
/// blocks. `next` and `stopped` say how far the judging is: both are 0 at the beginning. With too little room, `size` says how much is needed.
#[unsafe(no_mangle)]
pub extern "C" fn forth83_judge(
    alloc: Global,
    image: &[u8],
    texts: &[u8],
    course: &[u8],
    pupil: &[u8],
    ticks: u64,
    next: &mut u16,
    stopped: &mut u16,
    text: &mut [u8],
    size: &mut usize,
) -> u32
    // Bytes that are no image's file are refused by the first field that fits no file.
    ensures truncated { IsCutShort image.now → result ≡ 4 }
    ensures trailing { IsFollowed image.now → result ≡ 5 }
    ensures bad_magic { HasBadMagic image.now → result ≡ 6 }
    ensures bad_version { HasBadVersion image.now → result ≡ 7 }
    ensures bad_buffers { HasBadBuffers image.now → result ≡ 8 }
    ensures bad_size { HasBadSize image.now → result ≡ 9 }

    // With an image, 0: the line is at the front of the room; 2: out of memory; 3: the line needs more room.
    ensures known { (contents : Contents) → IsFile image.now contents → (result ≡ 0) ⊎ ((result ≡ 2) ⊎ (result ≡ 3)) }
    ensures found { result ≡ 0 → (contents : Contents) × IsFile image.now contents }
    ensures fits { result ≡ 0 → size.new ≤ length text.new }
    ensures beyond { result ≡ 0 → drop size.new text.new ≡ drop size.new text.old }
    ensures needs { result ≡ 3 → length text.new < size.new }

    // After a line comes the next lesson; at the end, and if nothing was judged, nothing changes.
    ensures onward { result ≡ 0 → 0 < size.new → next.new ≡ next.old + 1 }
    ensures ended { result ≡ 0 → size.new ≡ 0 → next.new ≡ next.old }
    ensures stays { result ≢ 0 → text.new ≡ text.old }
    ensures waits { result ≢ 0 → next.new ≡ next.old }
    ensures patient { result ≢ 0 → stopped.new ≡ stopped.old }
{
    let files = JudgedFiles {
        texts,
        course,
        pupil,
    };
    let mut progress = Progress {
        next: *next,
        stopped: *stopped,
    };
    let code = judging::judge(alloc, image, files, ticks, &mut progress, text, size);
    *next = progress.next;
    *stopped = progress.stopped;
    code
}

/// Obeys a request of a server's host: the frame of this kind and these bytes. The reply is put into `room`, and how many bytes it has into `size`;
/// of one that is longer than the room, the room has the front.
#[unsafe(no_mangle)]
#[tactic(auto, using(crate::proofs::Codes::code_one))]
pub extern "C" fn forth83_serve(
    alloc: Global,
    machine: &mut Forth83,
    kind: u8,
    body: &[u8],
    room: &mut [u8],
    size: &mut usize,
) -> u32
    // The request is obeyed, also if the room is too small for the reply.
    ensures replied { result ≢ 1 → HasReplied machine.old machine.new (wished kind body.now) room.old room.new size.new }

    // 0: the reply is in the room; 22: it is longer than the room; 1: the record keeps no machine, and all is as it was.
    ensures told { ByCode (TellsReplied size.new (length room.new)) machine.old result }

    // The reply to a request that may move the machine has 73,830 bytes at most.
    ensures room { result ≢ 1 → may_move (wished kind body.now) ≡ true → size.new ≤ move_room }
    ensures stays { result ≡ 1 → machine.new ≡ machine.old }
    ensures silent { result ≡ 1 → room.new ≡ room.old }
    ensures untold { result ≡ 1 → size.new ≡ size.old }
{
    obeying::serve(alloc, machine, kind, body, room, size).code()
}

/// Pushes a number on the data stack. `Waiting` while a request waits, since what it needs is on top.
#[unsafe(no_mangle)]
#[tactic(auto, using(crate::proofs::Codes::code_zero))]
pub extern "C" fn forth83_push(machine: &mut Forth83, x: u16) -> u32
    ensures pushed { result ≡ 0 → HasPushed machine.old machine.new x }
    ensures beside { result ≡ 0 → SameBeside machine.old machine.new }
    ensures waiting { machine.old.asks ≢ 0 → result ≡ 11 }
    ensures no_machine { machine.old.asks ≡ 0 → TellsMachine machine.old result }
    ensures why { machine.old.asks ≡ 0 → TellsByCode WhyNotPushed machine.old result }
    ensures known { result ≢ 2 }
    ensures stays { result ≢ 0 → machine.new ≡ machine.old }
{
    running::push(machine, x).code()
}

/// Pops the number on top of the data stack into `x`. `Waiting` while a request waits, since what it needs is on top.
#[unsafe(no_mangle)]
#[tactic(auto, using(crate::proofs::Codes::code_zero))]
pub extern "C" fn forth83_pop(machine: &mut Forth83, x: &mut u16) -> u32
    ensures popped { result ≡ 0 → HasPopped machine.old machine.new x.new }
    ensures beside { result ≡ 0 → SameBeside machine.old machine.new }
    ensures waiting { machine.old.asks ≢ 0 → result ≡ 11 }
    ensures no_machine { machine.old.asks ≡ 0 → TellsMachine machine.old result }
    ensures why { machine.old.asks ≡ 0 → TellsByCode WhyNotPopped machine.old result }
    ensures known { result ≢ 2 }
    ensures stays { result ≢ 0 → machine.new ≡ machine.old }
    ensures untold { result ≢ 0 → x.new ≡ x.old }
{
    running::pop(machine, x).code()
}

/// Saves memory up to HERE as an image that starts with the word at `entry`: its file is put into `file`, and how many bytes
/// that has into `size`.
#[unsafe(no_mangle)]
#[tactic(auto, using(crate::proofs::Codes::code_zero))]
pub extern "C" fn forth83_save(
    machine: &Forth83,
    entry: u16,
    file: &mut [u8],
    size: &mut usize,
) -> u32
    ensures saved { result ≡ 0 → HasSaved machine.now entry (take size.new file.new) }
    ensures fits { result ≡ 0 → size.new ≤ length file.new }
    ensures beyond { result ≡ 0 → drop size.new file.new ≡ drop size.new file.old }
    ensures no_machine { TellsMachine machine.now result }
    ensures why { TellsByCode (WhyNotSaved entry (length file.old)) machine.now result }
    ensures known { result ≢ 2 }
    ensures stays { result ≢ 0 → file.new ≡ file.old }
    ensures untold { result ≢ 0 → size.new ≡ size.old }
{
    running::save(machine, entry, file, size).code()
}
