//! A Forth-83 system with block storage.
#![tactic(auto)]

ghost use Rattle.std.specs.Prelude.{◌≡◌, false, true, map, IfErr, option_map};
ghost use Rattle.forth83.specs.Obeyed.{Obeys, RefusesWords, RunsLine};
ghost use Rattle.named_files.specs.Done.{IsPassedOn, done, status_of};
ghost use Rattle.named_files.specs.Begun.{Began};
ghost use Rattle.std.specs.String.{string_bytes};

use advice_subcommand::advise_case;
use command_words::{
    BuildWords, ContainerWords, DebugWords, DiskWords, GuessWords, JudgeWords, LoadWords, Parsed,
    RunWords, ScreenRange, SurveyWords, UnpackWords, UpgradeWords, Words, parse, typed,
};
use debug_subcommand::{Debugged, debug_word};
use file_subcommands::{
    Build, Disk, Screens, Upgrade, build_image, export_screens, import_screens, print_headings,
    print_text, see_word, upgrade_image, view_word, write_kernel, write_new, write_screens,
};
use inner_interpreter::Output;
use judge_subcommand::{Judged, judge_pupil};
use load_subcommand::{Load, load_screens};
use named_files::{Ends, Places, SystemFiles, out_of_memory, standard_output};
use old_disk_subcommands::{Guess, OldDisk, Unpacking, guess_order, pack_disk, unpack_disk};
use run_subcommand::{Run, run_image};
use serve_subcommand::serve_image;
use std::process::ExitCode;
use survey_subcommand::{Surveyed, survey_screens};

/// The screens that words name.
fn screens_of(words: &ScreenRange) -> Screens<'_>
    ensures blocks { result.blocks.now ≡ string_bytes words.now.blocks }
    ensures range { (result.from ≡ words.now.from) × (result.to ≡ words.now.to) }
{
    Screens {
        blocks: words.blocks.as_str(),
        from: words.from,
        to: words.to,
    }
}

/// What the words of `build` name.
fn build_of(words: &BuildWords) -> Build<'_>
    ensures blocks { result.screens.blocks.now ≡ string_bytes words.now.screens.blocks }
    ensures range { (result.screens.from ≡ words.now.screens.from) × (result.screens.to ≡ words.now.screens.to) }
    ensures image { result.image.now ≡ string_bytes words.now.image }
    ensures options { (result.buffers ≡ words.now.buffers) × (result.shows_place ≡ words.now.shows_place) }
{
    Build {
        screens: screens_of(&words.screens),
        image: words.image.as_str(),
        buffers: words.buffers,
        shows_place: words.shows_place,
    }
}

/// What the words of `upgrade` name.
fn upgrade_of(words: &UpgradeWords) -> Upgrade<'_>
    ensures images { (result.image.now ≡ string_bytes words.now.image) × (result.out.now ≡ string_bytes words.now.out) }
    ensures buffers { result.buffers ≡ words.now.buffers }
{
    Upgrade {
        image: words.image.as_str(),
        out: words.out.as_str(),
        buffers: words.buffers,
    }
}

/// What the words of `run` name.
fn run_of(words: &RunWords) -> Run<'_>
    ensures image { result.image.now ≡ string_bytes words.now.image }
    ensures blocks { option_map (λ text. text.now) result.blocks ≡ option_map string_bytes words.now.blocks }
    ensures limit { result.limit ≡ words.now.limit }
{
    Run {
        image: words.image.as_str(),
        blocks: words.blocks.as_deref(),
        limit: words.limit,
    }
}

/// What the words of `debug` name.
fn debugged_of(words: &DebugWords) -> Debugged<'_>
    ensures image { result.image.now ≡ string_bytes words.now.image }
    ensures name { result.name.now ≡ string_bytes words.now.name }
    ensures trace { result.trace.now ≡ string_bytes words.now.trace }
    ensures blocks { option_map (λ text. text.now) result.blocks ≡ option_map string_bytes words.now.blocks }
    ensures limit { result.limit ≡ words.now.limit }
{
    Debugged {
        image: words.image.as_str(),
        name: words.name.as_str(),
        trace: words.trace.as_str(),
        blocks: words.blocks.as_deref(),
        limit: words.limit,
    }
}

/// The container and the file of blocks that words name.
fn disk_of(words: &ContainerWords) -> Disk<'_>
    ensures files { (result.container.now ≡ string_bytes words.now.container) × (result.blocks.now ≡ string_bytes words.now.blocks) }
    ensures format { result.format.now ≡ string_bytes words.now.format }
    ensures numbers { (result.offset ≡ words.now.offset) × (result.sector ≡ words.now.sector) }
    ensures skew { option_map (λ text. text.now) result.skew ≡ option_map string_bytes words.now.skew }
{
    Disk {
        container: words.container.as_str(),
        blocks: words.blocks.as_str(),
        format: words.format.as_str(),
        offset: words.offset,
        sector: words.sector,
        skew: words.skew.as_deref(),
    }
}

/// What the words of `load` name.
fn load_of(words: &LoadWords) -> Load<'_>
    ensures files { (result.image.now ≡ string_bytes words.now.image) × (result.out.now ≡ string_bytes words.now.out) }
    ensures blocks { result.blocks.now ≡ string_bytes words.now.screens.blocks }
    ensures range { (result.from ≡ words.now.screens.from) × (result.to ≡ words.now.screens.to) }
    ensures options { (result.limit ≡ words.now.limit) × (result.shows_place ≡ words.now.shows_place) }
{
    Load {
        image: words.image.as_str(),
        blocks: words.screens.blocks.as_str(),
        from: words.screens.from,
        to: words.screens.to,
        out: words.out.as_str(),
        limit: words.limit,
        shows_place: words.shows_place,
    }
}

/// What the words of `survey` name.
fn surveyed_of(words: &SurveyWords) -> Surveyed<'_>
    ensures files { (result.image.now ≡ string_bytes words.now.image) × (result.blocks.now ≡ string_bytes words.now.screens.blocks) }
    ensures range { (result.from ≡ words.now.screens.from) × (result.to ≡ words.now.screens.to) }
    ensures places { result.lists_all ≡ words.now.lists_all }
{
    Surveyed {
        image: words.image.as_str(),
        blocks: words.screens.blocks.as_str(),
        from: words.screens.from,
        to: words.screens.to,
        lists_all: words.lists_all,
    }
}

/// What the words of `judge` name.
fn judged_of(words: &JudgeWords) -> Judged<'_>
    ensures image { (result.image.now ≡ string_bytes words.now.image) × (result.texts.now ≡ string_bytes words.now.texts) }
    ensures files { (result.course.now ≡ string_bytes words.now.course) × (result.pupil.now ≡ string_bytes words.now.pupil) }
    ensures ticks { result.ticks ≡ words.now.limit }
{
    Judged {
        image: words.image.as_str(),
        texts: words.texts.as_str(),
        course: words.course.as_str(),
        pupil: words.pupil.as_str(),
        ticks: words.limit,
    }
}

/// The container and the file of blocks that the words of `pack` name, and how screens lie in the container.
fn old_disk_of(words: &DiskWords) -> OldDisk<'_>
    ensures files { (result.container.now ≡ string_bytes words.now.container.container) × (result.blocks.now ≡ string_bytes words.now.container.blocks) }
    ensures format { result.format.now ≡ string_bytes words.now.container.format }
    ensures numbers { (result.offset ≡ words.now.container.offset) × (result.sector ≡ words.now.container.sector) }
    ensures skew { option_map (λ text. text.now) result.skew ≡ option_map string_bytes words.now.container.skew }
    ensures sides { (result.first ≡ words.now.first) × (result.sides ≡ words.now.sides) }
    ensures letters { (result.is_half ≡ words.now.is_half) × (result.is_ebcdic ≡ words.now.is_ebcdic) }
{
    OldDisk {
        container: words.container.container.as_str(),
        blocks: words.container.blocks.as_str(),
        format: words.container.format.as_str(),
        offset: words.container.offset,
        sector: words.container.sector,
        skew: words.container.skew.as_deref(),
        first: words.first,
        sides: words.sides,
        is_half: words.is_half,
        is_ebcdic: words.is_ebcdic,
    }
}

/// What the words of `unpack` name.
fn unpacking_of(words: &UnpackWords) -> Unpacking<'_>
    ensures container { result.disk.container.now ≡ string_bytes words.now.disk.container.container }
    ensures blocks { result.disk.blocks.now ≡ string_bytes words.now.disk.container.blocks }
    ensures format { result.disk.format.now ≡ string_bytes words.now.disk.container.format }
    ensures records { (result.width ≡ words.now.width) × (result.lines ≡ words.now.lines) × (result.columns ≡ words.now.columns) }
    ensures flags { (result.cleans ≡ words.now.disk.container.cleans) × (result.appends ≡ words.now.appends) }
    ensures file { option_map (λ text. text.now) result.file ≡ option_map string_bytes words.now.file }
{
    Unpacking {
        disk: old_disk_of(&words.disk),
        width: words.width,
        lines: words.lines,
        columns: words.columns,
        cleans: words.disk.container.cleans,
        appends: words.appends,
        file: words.file.as_deref(),
    }
}

/// What the words of `guess` name.
fn guess_of(words: &GuessWords) -> Guess<'_>
    ensures disk { result.disk.now ≡ string_bytes words.now.disk }
    ensures flags { (result.is_better ≡ words.now.is_better) × (result.is_score ≡ words.now.is_score) }
    ensures files { result.lists_files ≡ words.now.lists_files }
{
    Guess {
        disk: words.disk.as_str(),
        is_better: words.is_better,
        is_score: words.is_score,
        lists_files: words.lists_files,
    }
}

/// Runs what the words say, and answers the status. If a subcommand cannot start, the reason is printed, and the status is the error.
fn obey<F: Ends + Places, W: Output>(files: &mut F, writer: &mut W, words: Words) -> Result<u8, u8>
    ensures obeyed { W.failed writer.old ≡ false → Began F.log W.Output files.old files.new writer.old writer.new result
        (Obeys words) }
    ensures refused { IfErr result (λ status. RefusesWords words status (W.failed writer.new)
        (done (F.log files.old) (W.sent writer.old)) (done (F.log files.new) (W.sent writer.new))) }
    ensures cut { W.failed writer.old ≡ false → W.failed writer.new ≡ true → status_of result ≡ 5 }
    ensures passed { IsPassedOn (status_of result) (W.failed writer.new) (W.passed writer.new) (W.sent writer.old) (W.sent writer.new) }
{
    match words {
        Words::Kernel { blocks } => write_kernel(files, writer, blocks.as_str()),
        Words::Build(words) => build_image(files, writer, build_of(&words)),
        Words::Load(words) => load_screens(files, writer, load_of(&words)),
        Words::Upgrade(words) => upgrade_image(files, writer, upgrade_of(&words)),
        Words::Text(words) => print_text(files, writer, screens_of(&words)),
        Words::Screens { text, blocks } => {
            write_screens(files, writer, text.as_str(), blocks.as_str())
        }
        Words::New { blocks, count } => write_new(files, writer, blocks.as_str(), count),
        Words::Import(words) => import_screens(files, writer, disk_of(&words), words.cleans),
        Words::Export(words) => export_screens(files, writer, disk_of(&words)),
        Words::Run(words) => run_image(files, writer, run_of(&words)),
        Words::Debug(words) => debug_word(files, writer, debugged_of(&words)),
        Words::See { image, name } => see_word(files, writer, image.as_str(), name.as_str()),
        Words::View { image, name } => view_word(files, writer, image.as_str(), name.as_str()),
        Words::Serve { image, blocks } => {
            serve_image(files, writer, image.as_str(), blocks.as_deref())
        }
        Words::Survey(words) => survey_screens(files, writer, surveyed_of(&words)),
        Words::Judge(words) => judge_pupil(files, writer, judged_of(&words)),
        Words::Unpack(words) => unpack_disk(files, writer, unpacking_of(&words)),
        Words::Pack(words) => pack_disk(files, writer, old_disk_of(&words)),
        Words::Guess(words) => guess_order(files, writer, guess_of(&words)),
        Words::Advise { case } => advise_case(files, writer, case.as_str()),
        Words::Headings { text } => print_headings(files, writer, text.as_str()),
    }
}

/// Runs a command line, of which the first word is the program's name, and answers the status. If no words come of it, that is printed.
fn run_line<R: Print, F: Ends + Places, W: Output>(
    rt: &R,
    files: &mut F,
    writer: &mut W,
    typed: &[String],
) -> u8
    ensures ran { W.failed writer.old ≡ false → RunsLine (map string_bytes typed.now) result (W.failed writer.new)
        (done (F.log files.old) (W.sent writer.old)) (done (F.log files.new) (W.sent writer.new)) }
    ensures passed { IsPassedOn result (W.failed writer.new) (W.passed writer.new) (W.sent writer.old) (W.sent writer.new) }
{
    match parse(rt, files.alloc(), typed) {
        Parsed::Words(words) => match obey(files, writer, words) {
            Ok(status) | Err(status) => status,
        },
        Parsed::Exit(status) => status,
        Parsed::OutOfMemory => files.out_of_memory(),
    }
}

/// Runs the command line that the program was started with.
fn start(rt: &HostRuntime) -> u8 {
    let typed = match typed(rt) {
        Ok(typed) => typed,
        Err(Parsed::Exit(status)) => return status,
        Err(_) => return out_of_memory(rt),
    };
    match standard_output(rt) {
        Ok(mut writer) => run_line(rt, &mut SystemFiles::new(rt), &mut writer, typed.as_slice()),
        Err(status) => status,
    }
}

fn main(rt: HostRuntime) -> ExitCode {
    ExitCode::from(start(&rt))
}
