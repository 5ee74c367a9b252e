//! The subcommands and their arguments, as `clap` reads them.

ghost use Rattle.std.specs.Prelude.{◌≡◌, ◌++◌, IfOk};
ghost use Rattle.clap.specs.Simple.{app_of};
ghost use Rattle.command_words.specs.CommandLine as line;

use crate::VERSION;
use crate::arguments::{
    all_places, buffers, clean, count, flag, format, four_buffers, lesson_limit, limit, may_be,
    number, offset, option, screen, sector, show_place, word,
};
use clap::Command;
use std::alloc::{AllocError, Global};

#[tactic(auto, unfolding(crate::specs::CommandLine::kernel))]
fn kernel_command<'a>(alloc: Global) -> Result<Command<'a>, AllocError>
    ensures { IfOk result (line.IsSubcommand line.kernel) }
{
    Command::new(alloc, "kernel")
        .about("Write a new block file with the source of a Forth-83 system")
        .arg(word(alloc, "BLOCKS", "The new file"))
}

/// Gives a command BLOCKS, FROM and TO, in this order.
fn with_screens<'a>(alloc: Global, command: Command<'a>) -> Result<Command<'a>, AllocError>
    ensures { IfOk result (line.Adds line.screens_rules command.entry) }
{
    command
        .arg(word(alloc, "BLOCKS", "A block file (blocks of 1,024 bytes)"))?
        .arg(screen(alloc, "FROM", "The first screen, 0 to 65535"))?
        .arg(screen(alloc, "TO", "The last screen, 0 to 65535"))
}

#[tactic(auto, unfolding(crate::specs::CommandLine::build))]
fn build_command<'a>(alloc: Global) -> Result<Command<'a>, AllocError>
    ensures { IfOk result (line.IsSubcommand line.build) }
{
    let command = Command::new(alloc, "build").about("Build an image from the source in screens");
    with_screens(alloc, command)?
        .arg(word(alloc, "IMAGE", "The new image file"))?
        .arg(four_buffers(alloc))?
        .arg(show_place(alloc))
}

fn load_command<'a>(alloc: Global) -> Result<Command<'a>, AllocError>
    ensures { IfOk result (line.IsSubcommand line.load) }
{
    let command = Command::new(alloc, "load")
        .about("Let an image compile screens, and write the new image")
        .arg(word(alloc, "IMAGE", "The image file"))?;
    with_screens(alloc, command)?
        .arg(word(alloc, "OUT", "The new image file"))?
        .arg(limit(alloc))?
        .arg(show_place(alloc))
}

#[tactic(auto, unfolding(crate::specs::CommandLine::upgrade))]
fn upgrade_command<'a>(alloc: Global) -> Result<Command<'a>, AllocError>
    ensures { IfOk result (line.IsSubcommand line.upgrade) }
{
    Command::new(alloc, "upgrade")
        .about("Write an image again for another number of block buffers")
        .arg(word(alloc, "IMAGE", "The image file"))?
        .arg(word(alloc, "OUT", "The new image file"))?
        .arg(buffers(
            alloc,
            "Block buffers, 2 to 16 (default: as many as the image has)",
        ))
}

#[tactic(auto, unfolding(crate::specs::CommandLine::text))]
fn text_command<'a>(alloc: Global) -> Result<Command<'a>, AllocError>
    ensures { IfOk result (line.IsSubcommand line.text) }
{
    with_screens(
        alloc,
        Command::new(alloc, "text").about("Print screens as text"),
    )
}

#[tactic(auto, unfolding(crate::specs::CommandLine::screens))]
fn screens_command<'a>(alloc: Global) -> Result<Command<'a>, AllocError>
    ensures { IfOk result (line.IsSubcommand line.screens) }
{
    Command::new(alloc, "screens")
        .about("Write the screens of a text file into a block file")
        .arg(word(alloc, "TEXT", "The text file"))?
        .arg(word(alloc, "BLOCKS", "A block file, or a new one"))
}

#[tactic(auto, unfolding(crate::specs::CommandLine::new))]
fn new_command<'a>(alloc: Global) -> Result<Command<'a>, AllocError>
    ensures { IfOk result (line.IsSubcommand line.new) }
{
    Command::new(alloc, "new")
        .about("Write a new block file of blank blocks")
        .arg(word(alloc, "BLOCKS", "The new file"))?
        .arg(count(alloc))
}

/// Gives a command the options that say how screens lie in a container.
fn with_layout<'a>(alloc: Global, command: Command<'a>) -> Result<Command<'a>, AllocError>
    ensures { IfOk result (line.Adds line.layout_rules command.entry) }
{
    command
        .arg(format(alloc))?
        .arg(offset(alloc))?
        .arg(sector(alloc))?
        .arg(option(
            alloc,
            "skew",
            "N,N,..",
            "The order in which a track's sectors are read (default: the format's)",
        ))
}

#[tactic(auto, unfolding(crate::specs::CommandLine::import))]
fn import_command<'a>(alloc: Global) -> Result<Command<'a>, AllocError>
    ensures { IfOk result (line.IsSubcommand line.import) }
{
    let command = Command::new(alloc, "import")
        .about("Write a new block file with the screens of a container")
        .arg(word(alloc, "CONTAINER", "A disk image or file of another system"))?
        .arg(word(alloc, "BLOCKS", "The new file"))?
        .arg(clean(alloc))?;
    with_layout(alloc, command)
}

#[tactic(auto, unfolding(crate::specs::CommandLine::export))]
fn export_command<'a>(alloc: Global) -> Result<Command<'a>, AllocError>
    ensures { IfOk result (line.IsSubcommand line.export) }
{
    let command = Command::new(alloc, "export")
        .about("Write the screens of a block file into a container")
        .arg(word(alloc, "BLOCKS", "A block file (blocks of 1,024 bytes)"))?
        .arg(word(
            alloc,
            "CONTAINER",
            "A disk image or file of another system, or a new one",
        ))?;
    with_layout(alloc, command)
}

fn run_command<'a>(alloc: Global) -> Result<Command<'a>, AllocError>
    ensures { IfOk result (line.IsSubcommand line.run) }
{
    Command::new(alloc, "run")
        .about("Run an image with standard input and output")
        .arg(word(alloc, "IMAGE", "The image file"))?
        .arg(may_be(alloc, "BLOCKS", "A block file (blocks of 1,024 bytes)"))?
        .arg(limit(alloc))
}

fn debug_command<'a>(alloc: Global) -> Result<Command<'a>, AllocError>
    ensures { IfOk result (line.IsSubcommand line.debug) }
{
    Command::new(alloc, "debug")
        .about("Run an image, and write a line before each step of one word")
        .arg(word(alloc, "IMAGE", "The image file"))?
        .arg(word(alloc, "NAME", "The word"))?
        .arg(word(alloc, "TRACE", "The new file for these lines"))?
        .arg(may_be(alloc, "BLOCKS", "A block file (blocks of 1,024 bytes)"))?
        .arg(limit(alloc))
}

#[tactic(auto, unfolding(crate::specs::CommandLine::see))]
fn see_command<'a>(alloc: Global) -> Result<Command<'a>, AllocError>
    ensures { IfOk result (line.IsSubcommand line.see) }
{
    Command::new(alloc, "see")
        .about("Print the definition of a colon word")
        .arg(word(alloc, "IMAGE", "The image file"))?
        .arg(word(alloc, "NAME", "The word"))
}

#[tactic(auto, unfolding(crate::specs::CommandLine::view))]
fn view_command<'a>(alloc: Global) -> Result<Command<'a>, AllocError>
    ensures { IfOk result (line.IsSubcommand line.view) }
{
    Command::new(alloc, "view")
        .about("Print the number of the screen in which a word was defined")
        .arg(word(alloc, "IMAGE", "The image file"))?
        .arg(word(alloc, "NAME", "The word"))
}

#[tactic(auto, unfolding(crate::specs::CommandLine::serve))]
fn serve_command<'a>(alloc: Global) -> Result<Command<'a>, AllocError>
    ensures { IfOk result (line.IsSubcommand line.serve) }
{
    Command::new(alloc, "serve")
        .about("Let a host drive an image, by frames on standard input and output")
        .arg(word(alloc, "IMAGE", "The image file"))?
        .arg(may_be(alloc, "BLOCKS", "A block file (blocks of 1,024 bytes)"))
}

fn survey_command<'a>(alloc: Global) -> Result<Command<'a>, AllocError>
    ensures { IfOk result (line.IsSubcommand line.survey) }
{
    let command = Command::new(alloc, "survey")
        .about("Report what old screens are, and which dialect fits them")
        .arg(word(
            alloc,
            "IMAGE",
            "The image of the Forth that is to load them",
        ))?;
    with_screens(alloc, command)?.arg(all_places(alloc))
}

fn judge_command<'a>(alloc: Global) -> Result<Command<'a>, AllocError>
    ensures { IfOk result (line.IsSubcommand line.judge) }
{
    Command::new(alloc, "judge")
        .about("Judge a pupil's answers to the lessons of a course")
        .arg(word(
            alloc,
            "IMAGE",
            "The image that has loaded the course's checkers",
        ))?
        .arg(word(alloc, "TEXTS", "What is said of faults"))?
        .arg(word(alloc, "COURSE", "The course, blocks or a text of screens"))?
        .arg(word(alloc, "PUPIL", "The pupil's file, of the same kind"))?
        .arg(lesson_limit(alloc))
}

/// Gives a command the options that say how screens lie in a container of any kind.
fn with_disk<'a>(alloc: Global, command: Command<'a>) -> Result<Command<'a>, AllocError>
    ensures { IfOk result (line.Adds line.disk_rules command.entry) }
{
    with_layout(alloc, command)?
        .arg(number(
            alloc,
            "first",
            "The number of the first screen (default: 0, or a listing's own)",
        ))?
        .arg(number(
            alloc,
            "sides",
            "The tracks of two sides come in turn, of N bytes each: the first side comes first",
        ))?
        .arg(flag(alloc, "half", "Screens of 512 bytes, 16 lines of 32"))?
        .arg(flag(alloc, "ebcdic", "Letters of code page 37"))
}

/// Gives a command the options of records that are read in place of lines of 64.
fn with_records<'a>(alloc: Global, command: Command<'a>) -> Result<Command<'a>, AllocError>
    ensures { IfOk result (line.Adds line.record_rules command.entry) }
{
    command
        .arg(number(
            alloc,
            "width",
            "Records of N bytes instead of lines of 64, such as 80 for cards",
        ))?
        .arg(number(
            alloc,
            "lines",
            "How many of them are a screen (default: 16)",
        ))?
        .arg(number(
            alloc,
            "columns",
            "How many bytes of each are text (default: all)",
        ))
}

fn unpack_command<'a>(alloc: Global) -> Result<Command<'a>, AllocError>
    ensures { IfOk result (line.IsSubcommand line.unpack) }
{
    let command = Command::new(alloc, "unpack")
        .about("Write the screens of any old disk, text or listing into a block file")
        .arg(word(alloc, "CONTAINER", "A disk image or file of another system"))?
        .arg(word(alloc, "BLOCKS", "The new file"))?
        .arg(clean(alloc))?
        .arg(flag(
            alloc,
            "append",
            "Add the screens at the end of a block file that exists",
        ))?
        .arg(option(
            alloc,
            "file",
            "NAME",
            "Take this file of the container's directory",
        ))?;
    with_records(alloc, with_disk(alloc, command)?)
}

fn pack_command<'a>(alloc: Global) -> Result<Command<'a>, AllocError>
    ensures { IfOk result (line.IsSubcommand line.pack) }
{
    let command = Command::new(alloc, "pack")
        .about("Write the screens of a block file back into an old disk")
        .arg(word(alloc, "BLOCKS", "A block file (blocks of 1,024 bytes)"))?
        .arg(word(alloc, "CONTAINER", "A disk image or file of another system"))?;
    with_disk(alloc, command)
}

fn guess_command<'a>(alloc: Global) -> Result<Command<'a>, AllocError>
    ensures { IfOk result (line.IsSubcommand line.guess) }
{
    Command::new(alloc, "guess")
        .about("Print the orders of a disk's sectors that look most like screens")
        .arg(word(alloc, "DISK", "A disk image of another system"))?
        .arg(flag(
            alloc,
            "better",
            "Print only an order that looks clearly better than as it is, if there is one",
        ))?
        .arg(flag(
            alloc,
            "score",
            "Print only how much it looks like source as it is, at most 2",
        ))?
        .arg(flag(
            alloc,
            "files",
            "Print what the file is, and the files of its directory",
        ))
}

#[tactic(auto, unfolding(crate::specs::CommandLine::advise))]
fn advise_command<'a>(alloc: Global) -> Result<Command<'a>, AllocError>
    ensures { IfOk result (line.IsSubcommand line.advise) }
{
    Command::new(alloc, "advise")
        .about("Print what a fault means, and what was probably meant")
        .arg(word(alloc, "CASE", "A text that says what happened"))
}

#[tactic(auto, unfolding(crate::specs::CommandLine::headings))]
fn headings_command<'a>(alloc: Global) -> Result<Command<'a>, AllocError>
    ensures { IfOk result (line.IsSubcommand line.headings) }
{
    Command::new(alloc, "headings")
        .about("Print which lines of a text begin screens")
        .arg(word(alloc, "TEXT", "The text file"))
}

/// Gives a command the subcommands that make and read files of blocks, and images.
fn with_files<'a>(alloc: Global, command: Command<'a>) -> Result<Command<'a>, AllocError>
    ensures { IfOk result (line.AddsSubcommands line.of_files command.entry) }
{
    command
        .subcommand(kernel_command(alloc)?)?
        .subcommand(build_command(alloc)?)?
        .subcommand(load_command(alloc)?)?
        .subcommand(upgrade_command(alloc)?)?
        .subcommand(text_command(alloc)?)?
        .subcommand(screens_command(alloc)?)?
        .subcommand(new_command(alloc)?)?
        .subcommand(import_command(alloc)?)?
        .subcommand(export_command(alloc)?)
}

/// Gives a command the subcommands that run an image, or show its words.
fn with_images<'a>(alloc: Global, command: Command<'a>) -> Result<Command<'a>, AllocError>
    ensures { IfOk result (line.AddsSubcommands line.of_images command.entry) }
{
    command
        .subcommand(run_command(alloc)?)?
        .subcommand(see_command(alloc)?)?
        .subcommand(debug_command(alloc)?)?
        .subcommand(view_command(alloc)?)?
        .subcommand(serve_command(alloc)?)
}

/// Gives a command the subcommands that read old screens, answers of pupils, and texts.
fn with_sources<'a>(alloc: Global, command: Command<'a>) -> Result<Command<'a>, AllocError>
    ensures { IfOk result (line.AddsSubcommands line.of_sources command.entry) }
{
    command
        .subcommand(survey_command(alloc)?)?
        .subcommand(judge_command(alloc)?)?
        .subcommand(unpack_command(alloc)?)?
        .subcommand(pack_command(alloc)?)?
        .subcommand(guess_command(alloc)?)?
        .subcommand(advise_command(alloc)?)?
        .subcommand(headings_command(alloc)?)
}

/// The program's command line.
pub fn command<'a>(alloc: Global) -> Result<Command<'a>, AllocError>
    ensures { IfOk result (λ c. app_of c ≡ line.forth83) }
{
    let command = Command::new(alloc, "forth83")
        .about("A Forth-83 system with block storage")
        .version(VERSION)
        .subcommand_required(true)
        .arg_required_else_help(true);
    with_sources(alloc, with_images(alloc, with_files(alloc, command)?)?)
}
