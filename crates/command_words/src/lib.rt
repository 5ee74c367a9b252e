//! The words that the program is started with: its subcommands, their arguments and options.
#![tactic(auto)]

mod arguments;
mod containers;
mod reading;
mod subcommands;

ghost use Rattle.std.specs.Prelude.{◌≡◌, ◌⊎◌, map, IfOk, IfErr};
ghost use Rattle.std.specs.String.{string_bytes};
ghost use Rattle.clap.specs.Values.{kind_of};
ghost use Rattle.command_words.specs.Typed.{IsTyped};
ghost use Rattle.command_words.specs.Refused as refused;

use clap::error::ErrorKind;
pub use containers::{ContainerWords, DiskWords, UnpackWords};
use reading::{Unread, words_in};
use std::alloc::{AllocError, Global};
use std::{env, io};
use subcommands::command;

/// The program's version, which `--version` shows.
const VERSION: &str = "2.0.0";

/// A subcommand with its words.
#[derive(Drop)]
pub enum Words {
    Kernel {
        blocks: String,
    },
    Build(BuildWords),
    Upgrade(UpgradeWords),
    Load(LoadWords),
    Text(ScreenRange),
    Screens {
        text: String,
        blocks: String,
    },
    New {
        blocks: String,
        count: u32,
    },
    Import(ContainerWords),
    Export(ContainerWords),
    Run(RunWords),
    Debug(DebugWords),
    See {
        image: String,
        name: String,
    },
    View {
        image: String,
        name: String,
    },
    Serve {
        image: String,
        blocks: Option<String>,
    },
    Survey(SurveyWords),
    Judge(JudgeWords),
    Unpack(UnpackWords),
    Pack(DiskWords),
    Guess(GuessWords),
    Advise {
        case: String,
    },
    Headings {
        text: String,
    },
}

/// Screens of a file of blocks, one after another.
#[derive(Drop)]
pub struct ScreenRange {
    pub blocks: String,
    pub from: u16,
    pub to: u16,
}

/// The words of `build`.
#[derive(Drop)]
pub struct BuildWords {
    pub screens: ScreenRange,
    pub image: String,
    /// How many block buffers, 2 to 16.
    pub buffers: u16,
    /// Whether it is shown where a source is refused, also if standard error is no terminal.
    pub shows_place: bool,
}

/// The words of `upgrade`.
#[derive(Drop)]
pub struct UpgradeWords {
    pub image: String,
    pub out: String,
    /// How many block buffers, 2 to 16; the image's own number if none is given.
    pub buffers: Option<u16>,
}

/// The words of `load`.
#[derive(Drop)]
pub struct LoadWords {
    pub image: String,
    pub screens: ScreenRange,
    pub out: String,
    pub limit: u64,
    /// Whether it is shown if the screens stopped, also if standard error is no terminal.
    pub shows_place: bool,
}

/// The words of `run`.
#[derive(Drop)]
pub struct RunWords {
    pub image: String,
    pub blocks: Option<String>,
    pub limit: u64,
}

/// The words of `debug`.
#[derive(Drop)]
pub struct DebugWords {
    pub image: String,
    pub name: String,
    pub trace: String,
    pub blocks: Option<String>,
    pub limit: u64,
}

/// The words of `survey`.
#[derive(Drop)]
pub struct SurveyWords {
    pub image: String,
    pub screens: ScreenRange,
    /// Whether all places of a word are listed.
    pub lists_all: bool,
}

/// The words of `judge`.
#[derive(Drop)]
pub struct JudgeWords {
    pub image: String,
    pub texts: String,
    pub course: String,
    pub pupil: String,
    pub limit: u64,
}

/// The words of `guess`.
#[derive(Drop)]
pub struct GuessWords {
    pub disk: String,
    /// Whether only an order is printed that looks clearly better than as it is.
    pub is_better: bool,
    /// Whether only a score is printed.
    pub is_score: bool,
    /// Whether it is printed what the file is, and which files its directory names.
    pub lists_files: bool,
}

/// What became of the command line.
#[derive(Drop)]
pub enum Parsed {
    Words(Words),
    /// `clap`'s text was printed; the program ends with this status.
    Exit(u8),
    OutOfMemory,
}

/// Why a command line makes no words.
#[derive(Drop)]
enum Refusal {
    /// `clap` refuses it, or help or the version was asked for.
    Clap(clap::Error),
    Unread(Unread),
}

/// Reads a command line, of which the first word is the program's name.
fn read(alloc: Global, typed: &[String]) -> Result<Words, Refusal>
    ensures typed { IfOk result (IsTyped (map string_bytes typed.now)) }
    ensures refused { IfErr result (refused.IsRefused (map string_bytes typed.now)) }
{
    let Ok(command) = command(alloc) else {
        return Err(Refusal::Unread(Unread::OutOfMemory));
    };
    match command.try_get_matches_from(typed) {
        Ok(matches) => match words_in(alloc, &matches) {
            Ok(words) => Ok(words),
            Err(why) => Err(Refusal::Unread(why)),
        },
        Err(error) => Err(Refusal::Clap(error)),
    }
}

/// Prints a text of `clap`'s, to standard output like everything that the program prints, and answers the status: 0 after help and
/// the version, else 2; 5 if it can't be printed.
fn print<R: Print>(rt: &R, error: &clap::Error) -> u8
    ensures { (result ≡ refused.status_of (kind_of error.now)) ⊎ (result ≡ 5) }
{
    if rt.print(error).is_err() {
        return 5;
    }
    if error.use_stderr() { 2 } else { 0 }
}

/// Prints a usage error of our own, and answers the status.
fn print_usage<R: Print>(rt: &R, why: &str) -> u8
    ensures { (result ≡ 2) ⊎ (result ≡ 5) }
{
    match println!(rt; "error: {why}") {
        Ok(()) => 2,
        Err(_) => 5,
    }
}

/// Reports why a command line makes no words.
fn refuse<R: Print>(rt: &R, why: &Refusal) -> Parsed
    ensures { refused.IsReport why.now result }
{
    match why {
        Refusal::Unread(Unread::OutOfMemory) => Parsed::OutOfMemory,
        Refusal::Unread(Unread::Missing) => Parsed::Exit(print_usage(rt, "an argument is missing")),
        Refusal::Clap(error) if error.kind() == ErrorKind::OutOfMemory => Parsed::OutOfMemory,
        Refusal::Clap(error) => Parsed::Exit(print(rt, error)),
    }
}

/// The command line that the program was started with; an argument that is no text is a usage error.
pub fn typed(rt: &HostRuntime) -> Result<Vec<String>, Parsed>
    ensures { IfErr result (λ parsed. (parsed ≡ Parsed.OutOfMemory) ⊎ refused.Ends 2 parsed) }
{
    let arguments = match env::args(rt) {
        Ok(arguments) => arguments,
        Err(error) if error.kind() == io::ErrorKind::OutOfMemory => return Err(Parsed::OutOfMemory),
        Err(_) => return Err(Parsed::Exit(print_usage(rt, "an argument is no text"))),
    };
    let typed: Result<Vec<String>, AllocError> = arguments.collect(rt.alloc());
    match typed {
        Ok(typed) => Ok(typed),
        Err(_) => Err(Parsed::OutOfMemory),
    }
}

/// Reads a command line, of which the first word is the program's name. If no words come of it, that is printed, and how the
/// program ends is the answer.
pub fn parse<R: Print>(rt: &R, alloc: Global, typed: &[String]) -> Parsed
    ensures { refused.IsParsed (map string_bytes typed.now) result }
{
    match read(alloc, typed) {
        Ok(words) => Parsed::Words(words),
        Err(why) => refuse(rt, &why),
    }
}
