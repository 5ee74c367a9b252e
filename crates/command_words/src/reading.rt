//! What was typed, read from what `clap` found.

ghost use Rattle.std.specs.Prelude.{◌≡◌, ◌∷◌, [], Some, None, IfErr, IfOk, codes};
ghost use Rattle.std.specs.String.{string_bytes};
ghost use Rattle.clap.specs.Walk.{rows_of};
ghost use Rattle.clap.specs.Matches.{found_of};
ghost use Rattle.clap.specs.Simple.{subcommand_rows_of};
ghost use Rattle.command_words.specs.Typed as typed;

use crate::{
    BuildWords, ContainerWords, DebugWords, DiskWords, GuessWords, JudgeWords, LoadWords, RunWords,
    ScreenRange, SurveyWords, UnpackWords, UpgradeWords, Words,
};
use clap::ArgMatches;
use std::alloc::Global;
use thiserror::Error;

/// Why no words can be made of what `clap` found.
#[derive(Clone, Copy, Debug, PartialEq, Eq, Error)]
pub enum Unread {
    /// There is no memory left.
    #[error("out of memory")]
    OutOfMemory,
    /// An argument that `clap` wants doesn't exist, or isn't a number.
    #[error("an argument is missing")]
    Missing,
}

/// A text of one's own.
fn owned(alloc: Global, text: &str) -> Result<String, Unread>
    ensures text { IfOk result (λ owned. string_bytes owned ≡ text.now) }
    ensures wanting { IfErr result (λ why. why ≡ Unread.OutOfMemory) }
{
    match String::from_str(alloc, text) {
        Ok(owned) => Ok(owned),
        Err(_) => Err(Unread::OutOfMemory),
    }
}

/// The text that was typed for an argument, or stands for one that was left out.
fn text(alloc: Global, matches: &ArgMatches<'_>, name: &str) -> Result<String, Unread>
    ensures typed { IfOk result (typed.IsText (rows_of (found_of matches.now)) name.now) }
    ensures lacks { IfErr result (λ why. why ≡ Unread.Missing → typed.Lacks (rows_of (found_of matches.now)) (typed.Word name.now)) }
{
    match matches.get_str(name) {
        None => Err(Unread::Missing),
        Some(text) => owned(alloc, text),
    }
}

/// The text that was typed for an argument, if one was.
fn text_if_given(
    alloc: Global,
    matches: &ArgMatches<'_>,
    name: &str,
) -> Result<Option<String>, Unread>
    ensures typed { IfOk result (typed.IsTextIfGiven (rows_of (found_of matches.now)) name.now) }
    ensures lacks { IfErr result (λ why. why ≡ Unread.Missing → ⊥) }
{
    match matches.get_str(name) {
        None => Ok(None),
        Some(text) => Ok(Some(owned(alloc, text)?)),
    }
}

/// A number of 16 bits, if one was typed.
fn number_if_given(matches: &ArgMatches<'_>, name: &str) -> Result<Option<u16>, Unread>
    ensures typed { IfOk result (λ n. typed.number_in name.now (rows_of (found_of matches.now)) ≡ n) }
    ensures lacks { IfErr result (λ why. why ≡ Unread.Missing → typed.Lacks (rows_of (found_of matches.now)) (typed.NumberIfGiven 16 name.now)) }
{
    match matches.try_get_one::<u16>(name) {
        Ok(number) => Ok(number),
        Err(_) => Err(Unread::Missing),
    }
}

/// A number of 16 bits.
fn number(matches: &ArgMatches<'_>, name: &str) -> Result<u16, Unread>
    ensures typed { IfOk result (λ n. typed.number_in name.now (rows_of (found_of matches.now)) ≡ Some n) }
    ensures lacks { IfErr result (λ why. why ≡ Unread.Missing → typed.Lacks (rows_of (found_of matches.now)) (typed.Number 16 name.now)) }
{
    match number_if_given(matches, name)? {
        Some(number) => Ok(number),
        None => Err(Unread::Missing),
    }
}

/// Whether a flag was typed.
fn is_given(matches: &ArgMatches<'_>, name: &str) -> bool
    ensures { typed.IsFlag (rows_of (found_of matches.now)) name.now result }
{
    matches.get_flag(name)
}

/// The screens that BLOCKS, FROM and TO name.
fn screens(alloc: Global, matches: &ArgMatches<'_>) -> Result<ScreenRange, Unread>
    ensures typed { IfOk result (typed.AreScreens (rows_of (found_of matches.now))) }
    ensures lacks { IfErr result (λ why. why ≡ Unread.Missing → typed.LacksOne (rows_of (found_of matches.now)) typed.screens_parts) }
{
    Ok(ScreenRange {
        blocks: text(alloc, matches, "BLOCKS")?,
        from: number(matches, "FROM")?,
        to: number(matches, "TO")?,
    })
}

/// A limit of ticks.
fn limit(matches: &ArgMatches<'_>) -> Result<u64, Unread>
    ensures typed { IfOk result (λ n. typed.number_in (codes "limit") (rows_of (found_of matches.now)) ≡ Some n) }
    ensures lacks { IfErr result (λ why. why ≡ Unread.Missing → typed.Lacks (rows_of (found_of matches.now)) typed.limit_part) }
{
    match matches.try_get_one::<u64>("limit") {
        Ok(Some(limit)) => Ok(limit),
        Ok(None) => Err(Unread::Missing),
        Err(_) => Err(Unread::Missing),
    }
}

/// A number of blocks.
fn count(matches: &ArgMatches<'_>) -> Result<u32, Unread>
    ensures typed { IfOk result (λ n. typed.number_in (codes "N") (rows_of (found_of matches.now)) ≡ Some n) }
    ensures lacks { IfErr result (λ why. why ≡ Unread.Missing → typed.Lacks (rows_of (found_of matches.now)) (typed.Number 32 (codes "N"))) }
{
    match matches.try_get_one::<u32>("N") {
        Ok(Some(count)) => Ok(count),
        Ok(None) => Err(Unread::Missing),
        Err(_) => Err(Unread::Missing),
    }
}

/// A number of 32 bits, if one was typed.
fn size_if_given(matches: &ArgMatches<'_>, name: &str) -> Result<Option<u32>, Unread>
    ensures typed { IfOk result (λ n. typed.number_in name.now (rows_of (found_of matches.now)) ≡ n) }
    ensures lacks { IfErr result (λ why. why ≡ Unread.Missing → typed.Lacks (rows_of (found_of matches.now)) (typed.NumberIfGiven 32 name.now)) }
{
    match matches.try_get_one::<u32>(name) {
        Ok(size) => Ok(size),
        Err(_) => Err(Unread::Missing),
    }
}

fn build_words(alloc: Global, matches: &ArgMatches<'_>) -> Result<BuildWords, Unread>
    ensures typed { IfOk result (typed.IsBuild (rows_of (found_of matches.now))) }
    ensures lacks { IfErr result (λ why. why ≡ Unread.Missing → typed.LacksOne (rows_of (found_of matches.now)) typed.build_parts) }
{
    Ok(BuildWords {
        screens: screens(alloc, matches)?,
        image: text(alloc, matches, "IMAGE")?,
        buffers: number(matches, "buffers")?,
        shows_place: is_given(matches, "where"),
    })
}

fn load_words(alloc: Global, matches: &ArgMatches<'_>) -> Result<LoadWords, Unread>
    ensures typed { IfOk result (typed.IsLoad (rows_of (found_of matches.now))) }
    ensures lacks { IfErr result (λ why. why ≡ Unread.Missing → typed.LacksOne (rows_of (found_of matches.now)) typed.load_parts) }
{
    Ok(LoadWords {
        image: text(alloc, matches, "IMAGE")?,
        screens: screens(alloc, matches)?,
        out: text(alloc, matches, "OUT")?,
        limit: limit(matches)?,
        shows_place: is_given(matches, "where"),
    })
}

fn upgrade_words(alloc: Global, matches: &ArgMatches<'_>) -> Result<Words, Unread>
    ensures typed { IfOk result (typed.AreOf (codes "upgrade") (rows_of (found_of matches.now))) }
    ensures lacks { IfErr result (λ why. why ≡ Unread.Missing → typed.LacksOne (rows_of (found_of matches.now)) typed.upgrade_parts) }
{
    Ok(Words::Upgrade(UpgradeWords {
        image: text(alloc, matches, "IMAGE")?,
        out: text(alloc, matches, "OUT")?,
        buffers: number_if_given(matches, "buffers")?,
    }))
}

fn screens_words(alloc: Global, matches: &ArgMatches<'_>) -> Result<Words, Unread>
    ensures typed { IfOk result (typed.AreOf (codes "screens") (rows_of (found_of matches.now))) }
    ensures lacks { IfErr result (λ why. why ≡ Unread.Missing → typed.LacksOne (rows_of (found_of matches.now)) (typed.Word (codes "TEXT") ∷ typed.Word (codes "BLOCKS") ∷ [])) }
{
    Ok(Words::Screens {
        text: text(alloc, matches, "TEXT")?,
        blocks: text(alloc, matches, "BLOCKS")?,
    })
}

fn new_words(alloc: Global, matches: &ArgMatches<'_>) -> Result<Words, Unread>
    ensures typed { IfOk result (typed.AreOf (codes "new") (rows_of (found_of matches.now))) }
    ensures lacks { IfErr result (λ why. why ≡ Unread.Missing → typed.LacksOne (rows_of (found_of matches.now)) (typed.Word (codes "BLOCKS") ∷ typed.Number 32 (codes "N") ∷ [])) }
{
    Ok(Words::New {
        blocks: text(alloc, matches, "BLOCKS")?,
        count: count(matches)?,
    })
}

/// What `import` and `export` name.
fn container_words(
    alloc: Global,
    matches: &ArgMatches<'_>,
    cleans: bool,
) -> Result<ContainerWords, Unread>
    ensures typed { IfOk result (typed.IsContainer (rows_of (found_of matches.now))) }
    ensures cleans { IfOk result (λ w. w.cleans ≡ cleans) }
    ensures lacks { IfErr result (λ why. why ≡ Unread.Missing → typed.LacksOne (rows_of (found_of matches.now)) typed.container_parts) }
{
    Ok(ContainerWords {
        container: text(alloc, matches, "CONTAINER")?,
        blocks: text(alloc, matches, "BLOCKS")?,
        format: text(alloc, matches, "format")?,
        offset: size_if_given(matches, "offset")?,
        sector: number_if_given(matches, "sector")?,
        skew: text_if_given(alloc, matches, "skew")?,
        cleans,
    })
}

fn run_words(alloc: Global, matches: &ArgMatches<'_>) -> Result<Words, Unread>
    ensures typed { IfOk result (typed.AreOf (codes "run") (rows_of (found_of matches.now))) }
    ensures lacks { IfErr result (λ why. why ≡ Unread.Missing → typed.LacksOne (rows_of (found_of matches.now)) (typed.Word (codes "IMAGE") ∷ typed.limit_part ∷ [])) }
{
    Ok(Words::Run(RunWords {
        image: text(alloc, matches, "IMAGE")?,
        blocks: text_if_given(alloc, matches, "BLOCKS")?,
        limit: limit(matches)?,
    }))
}

fn debug_words(alloc: Global, matches: &ArgMatches<'_>) -> Result<Words, Unread>
    ensures typed { IfOk result (typed.AreOf (codes "debug") (rows_of (found_of matches.now))) }
    ensures lacks { IfErr result (λ why. why ≡ Unread.Missing → typed.LacksOne (rows_of (found_of matches.now)) typed.debug_parts) }
{
    Ok(Words::Debug(DebugWords {
        image: text(alloc, matches, "IMAGE")?,
        name: text(alloc, matches, "NAME")?,
        trace: text(alloc, matches, "TRACE")?,
        blocks: text_if_given(alloc, matches, "BLOCKS")?,
        limit: limit(matches)?,
    }))
}

fn see_words(alloc: Global, matches: &ArgMatches<'_>) -> Result<Words, Unread>
    ensures typed { IfOk result (typed.AreOf (codes "see") (rows_of (found_of matches.now))) }
    ensures lacks { IfErr result (λ why. why ≡ Unread.Missing → typed.LacksOne (rows_of (found_of matches.now)) typed.seen_parts) }
{
    Ok(Words::See {
        image: text(alloc, matches, "IMAGE")?,
        name: text(alloc, matches, "NAME")?,
    })
}

fn view_words(alloc: Global, matches: &ArgMatches<'_>) -> Result<Words, Unread>
    ensures typed { IfOk result (typed.AreOf (codes "view") (rows_of (found_of matches.now))) }
    ensures lacks { IfErr result (λ why. why ≡ Unread.Missing → typed.LacksOne (rows_of (found_of matches.now)) typed.seen_parts) }
{
    Ok(Words::View {
        image: text(alloc, matches, "IMAGE")?,
        name: text(alloc, matches, "NAME")?,
    })
}

fn serve_words(alloc: Global, matches: &ArgMatches<'_>) -> Result<Words, Unread>
    ensures typed { IfOk result (typed.AreOf (codes "serve") (rows_of (found_of matches.now))) }
    ensures lacks { IfErr result (λ why. why ≡ Unread.Missing → typed.LacksOne (rows_of (found_of matches.now)) (typed.Word (codes "IMAGE") ∷ [])) }
{
    Ok(Words::Serve {
        image: text(alloc, matches, "IMAGE")?,
        blocks: text_if_given(alloc, matches, "BLOCKS")?,
    })
}

fn survey_words(alloc: Global, matches: &ArgMatches<'_>) -> Result<SurveyWords, Unread>
    ensures typed { IfOk result (typed.IsSurvey (rows_of (found_of matches.now))) }
    ensures lacks { IfErr result (λ why. why ≡ Unread.Missing → typed.LacksOne (rows_of (found_of matches.now)) typed.survey_parts) }
{
    Ok(SurveyWords {
        image: text(alloc, matches, "IMAGE")?,
        screens: screens(alloc, matches)?,
        lists_all: is_given(matches, "all"),
    })
}

fn judge_words(alloc: Global, matches: &ArgMatches<'_>) -> Result<JudgeWords, Unread>
    ensures typed { IfOk result (typed.IsJudge (rows_of (found_of matches.now))) }
    ensures lacks { IfErr result (λ why. why ≡ Unread.Missing → typed.LacksOne (rows_of (found_of matches.now)) typed.judge_parts) }
{
    Ok(JudgeWords {
        image: text(alloc, matches, "IMAGE")?,
        texts: text(alloc, matches, "TEXTS")?,
        course: text(alloc, matches, "COURSE")?,
        pupil: text(alloc, matches, "PUPIL")?,
        limit: limit(matches)?,
    })
}

/// What `pack` names, and `unpack` beside its own options.
fn disk_words(alloc: Global, matches: &ArgMatches<'_>, cleans: bool) -> Result<DiskWords, Unread>
    ensures typed { IfOk result (typed.IsDisk (rows_of (found_of matches.now))) }
    ensures cleans { IfOk result (λ w. w.container.cleans ≡ cleans) }
    ensures lacks { IfErr result (λ why. why ≡ Unread.Missing → typed.LacksOne (rows_of (found_of matches.now)) typed.disk_parts) }
{
    Ok(DiskWords {
        container: container_words(alloc, matches, cleans)?,
        first: size_if_given(matches, "first")?,
        sides: size_if_given(matches, "sides")?,
        is_half: is_given(matches, "half"),
        is_ebcdic: is_given(matches, "ebcdic"),
    })
}

fn unpack_words(alloc: Global, matches: &ArgMatches<'_>) -> Result<UnpackWords, Unread>
    ensures typed { IfOk result (typed.IsUnpack (rows_of (found_of matches.now))) }
    ensures lacks { IfErr result (λ why. why ≡ Unread.Missing → typed.LacksOne (rows_of (found_of matches.now)) typed.unpack_parts) }
{
    let cleans = is_given(matches, "clean");
    Ok(UnpackWords {
        disk: disk_words(alloc, matches, cleans)?,
        width: size_if_given(matches, "width")?,
        lines: size_if_given(matches, "lines")?,
        columns: size_if_given(matches, "columns")?,
        appends: is_given(matches, "append"),
        file: text_if_given(alloc, matches, "file")?,
    })
}

fn guess_words(alloc: Global, matches: &ArgMatches<'_>) -> Result<GuessWords, Unread>
    ensures typed { IfOk result (typed.IsGuess (rows_of (found_of matches.now))) }
    ensures lacks { IfErr result (λ why. why ≡ Unread.Missing → typed.LacksOne (rows_of (found_of matches.now)) (typed.Word (codes "DISK") ∷ [])) }
{
    Ok(GuessWords {
        disk: text(alloc, matches, "DISK")?,
        is_better: is_given(matches, "better"),
        is_score: is_given(matches, "score"),
        lists_files: is_given(matches, "files"),
    })
}

fn advise_words(alloc: Global, matches: &ArgMatches<'_>) -> Result<Words, Unread>
    ensures typed { IfOk result (typed.AreOf (codes "advise") (rows_of (found_of matches.now))) }
    ensures lacks { IfErr result (λ why. why ≡ Unread.Missing → typed.LacksOne (rows_of (found_of matches.now)) (typed.Word (codes "CASE") ∷ [])) }
{
    Ok(Words::Advise {
        case: text(alloc, matches, "CASE")?,
    })
}

fn headings_words(alloc: Global, matches: &ArgMatches<'_>) -> Result<Words, Unread>
    ensures typed { IfOk result (typed.AreOf (codes "headings") (rows_of (found_of matches.now))) }
    ensures lacks { IfErr result (λ why. why ≡ Unread.Missing → typed.LacksOne (rows_of (found_of matches.now)) (typed.Word (codes "TEXT") ∷ [])) }
{
    Ok(Words::Headings {
        text: text(alloc, matches, "TEXT")?,
    })
}

fn kernel_words(alloc: Global, matches: &ArgMatches<'_>) -> Result<Words, Unread>
    ensures typed { IfOk result (typed.AreOf (codes "kernel") (rows_of (found_of matches.now))) }
    ensures lacks { IfErr result (λ why. why ≡ Unread.Missing → typed.LacksOne (rows_of (found_of matches.now)) (typed.Word (codes "BLOCKS") ∷ [])) }
{
    Ok(Words::Kernel {
        blocks: text(alloc, matches, "BLOCKS")?,
    })
}

/// The words of the subcommand of this name.
fn words_of(alloc: Global, name: &str, matches: &ArgMatches<'_>) -> Result<Words, Unread>
    ensures typed { IfOk result (typed.AreOf name.now (rows_of (found_of matches.now))) }
    ensures lacks { IfErr result (λ why. why ≡ Unread.Missing → typed.LacksIn typed.parts name.now (rows_of (found_of matches.now))) }
{
    match name {
        "kernel" => kernel_words(alloc, matches),
        "build" => Ok(Words::Build(build_words(alloc, matches)?)),
        "load" => Ok(Words::Load(load_words(alloc, matches)?)),
        "upgrade" => upgrade_words(alloc, matches),
        "text" => Ok(Words::Text(screens(alloc, matches)?)),
        "screens" => screens_words(alloc, matches),
        "new" => new_words(alloc, matches),
        "import" => {
            let cleans = is_given(matches, "clean");
            Ok(Words::Import(container_words(alloc, matches, cleans)?))
        }
        "export" => Ok(Words::Export(container_words(alloc, matches, false)?)),
        "run" => run_words(alloc, matches),
        "debug" => debug_words(alloc, matches),
        "see" => see_words(alloc, matches),
        "view" => view_words(alloc, matches),
        "serve" => serve_words(alloc, matches),
        "survey" => Ok(Words::Survey(survey_words(alloc, matches)?)),
        "judge" => Ok(Words::Judge(judge_words(alloc, matches)?)),
        "unpack" => Ok(Words::Unpack(unpack_words(alloc, matches)?)),
        "pack" => Ok(Words::Pack(disk_words(alloc, matches, false)?)),
        "guess" => Ok(Words::Guess(guess_words(alloc, matches)?)),
        "advise" => advise_words(alloc, matches),
        "headings" => headings_words(alloc, matches),
        _ => Err(Unread::Missing),
    }
}

/// The words of the subcommand that was typed.
pub fn words_in(alloc: Global, matches: &ArgMatches<'_>) -> Result<Words, Unread>
    ensures typed { IfOk result (typed.Means (subcommand_rows_of matches.now)) }
    ensures lacks { IfErr result (λ why. why ≡ Unread.Missing → typed.LacksWords (subcommand_rows_of matches.now)) }
{
    match matches.subcommand() {
        Some((name, inner)) => words_of(alloc, name, inner),
        None => Err(Unread::Missing),
    }
}
