//! What subcommands ask of the system about the files that the command line names.

ghost use Rattle.std.specs.Prelude.{◌≡◌, [], IfSome, IsNone};
ghost use Rattle.named_files.specs.Asking as asking;
ghost use Rattle.named_files.specs.FileBytes.{file_logs};
ghost use Rattle.named_files.specs.Done.{IsWrittenOr, system_log};
ghost use Rattle.named_files.specs.Uses.{unused};

use crate::file_log::{FileLog, NamedBytes};
use crate::step_log::{Asked, Deed, StepLog};
use crate::use_log::{KeysUse, Opened, TraceUse, UseLog};
use crate::{keeping, opening, places, refusals, streams};
use block_buffers::{BLOCK_SIZE, Device};
use file_access::{FileDevice, TraceFile};
use inner_interpreter::{Input, Output, Reading, Writing};
use std::alloc::Global;
use std::fmt::Display;
use std::fs;
use std::fs::File;
use std::io::{BufReader, BufWriter, IsTerminal, Stdin};

/// The files of the system, by the names that the command line has: whole ones. If one can't be used as it is named that is printed, and
/// the program's status, which is not 0, is the error. Each thing that it is asked to do is noted with the answer.
pub trait Files {
    ghost use Rattle.std.specs.Prelude.{◌≡◌, ◌∷◌, []};
    ghost use Rattle.named_files.specs.Asking.{Answers, Refused, step};
    ghost use Rattle.named_files.specs.Done.{SystemLog};
    ghost use Rattle.named_files.specs.FileBytes.{reading, reading_old, writing};
    ghost use Rattle.named_files.specs.declared.step_log.Deed.TheVariants as deed;

    /// What was asked so far, in order, with the answers; the files that were read and written whole; and what was handed back.
    ghost log: { Self → SystemLog };

    /// Where memory comes from.
    fn alloc(&self) -> Global;

    /// Prints that memory ran out, and answers the status.
    fn out_of_memory(&mut self) -> u8
        ensures asked { Refused (step deed.Allocate []) result (log self.old).asked (log self.new).asked }
        ensures files { (log self.new).files ≡ (log self.old).files };

    /// Prints why a file or an option can't be used as it is given, and answers the status.
    fn refuse_use(&mut self, name: &str, why: &str) -> u8
        ensures asked { Refused (step deed.Take (name.now ∷ [])) result (log self.old).asked (log self.new).asked }
        ensures files { (log self.new).files ≡ (log self.old).files };

    /// The bytes of an image's file.
    fn image_bytes(&mut self, image: &str) -> Result<Vec<u8>, u8>
        ensures asked { Answers (step deed.Read (image.now ∷ [])) result (log self.old).asked (log self.new).asked }
        ensures read { (log self.new).files ≡ reading image.now result (log self.old).files };

    /// The bytes of a file.
    fn file_bytes(&mut self, name: &str) -> Result<Vec<u8>, u8>
        ensures asked { Answers (step deed.Read (name.now ∷ [])) result (log self.old).asked (log self.new).asked }
        ensures read { (log self.new).files ≡ reading name.now result (log self.old).files };

    /// The bytes of a file of blocks that is to be replaced; none if it doesn't exist.
    fn old_blocks(&mut self, blocks: &str) -> Result<Vec<u8>, u8>
        ensures asked { Answers (step deed.Read (blocks.now ∷ [])) result (log self.old).asked (log self.new).asked }
        ensures read { (log self.new).files ≡ reading blocks.now result (log self.old).files };

    /// The bytes of a file that is to be replaced, if it exists.
    fn old_file(&mut self, name: &str) -> Result<Option<Vec<u8>>, u8>
        ensures asked { Answers (step deed.Read (name.now ∷ [])) result (log self.old).asked (log self.new).asked }
        ensures read { (log self.new).files ≡ reading_old name.now result (log self.old).files };

    /// Writes a file whole, or makes it; if that fails, it is as it was.
    fn write(&mut self, name: &str, bytes: &[u8]) -> Result<(), u8>
        ensures asked { Answers (step deed.Write (name.now ∷ [])) result (log self.old).asked (log self.new).asked }
        ensures written { (log self.new).files ≡ writing name.now bytes.now result (log self.old).files };
}

/// What must be so before a file is used: another must not be meant, and no other run may have it.
pub trait Guards: Files {
    ghost use Rattle.std.specs.Prelude.{◌≡◌, ◌∷◌, []};
    ghost use Rattle.named_files.specs.Asking.{Answers, step};
    ghost use Rattle.named_files.specs.declared.step_log.Deed.TheVariants as deed;

    /// Sees to it that a file isn't written over one that is read; `what` is what they are.
    fn keep_apart(&mut self, read: &str, written: &str, what: &str) -> Result<(), u8>
        ensures asked { Answers (step deed.KeepApart (read.now ∷ written.now ∷ [])) result (Self.log self.old).asked (Self.log self.new).asked }
        ensures files { (Self.log self.new).files ≡ (Self.log self.old).files };

    /// Sees to it that a new file isn't written over one that exists.
    fn keep_absent(&mut self, name: &str) -> Result<(), u8>
        ensures asked { Answers (step deed.KeepAbsent (name.now ∷ [])) result (Self.log self.old).asked (Self.log self.new).asked }
        ensures files { (Self.log self.new).files ≡ (Self.log self.old).files };

    /// Sees to it that an image isn't taken for a file of blocks.
    fn keep_blocks(&mut self, blocks: &str) -> Result<(), u8>
        ensures asked { Answers (step deed.KeepBlocks (blocks.now ∷ [])) result (Self.log self.old).asked (Self.log self.new).asked }
        ensures files { (Self.log self.new).files ≡ (Self.log self.old).files };

    /// Sees to it that a trace isn't written over blocks or an image.
    fn keep_trace(&mut self, trace: &str) -> Result<(), u8>
        ensures asked { Answers (step deed.KeepTrace (trace.now ∷ [])) result (Self.log self.old).asked (Self.log self.new).asked }
        ensures files { (Self.log self.new).files ≡ (Self.log self.old).files };

    /// Sees to it that an image isn't written over blocks.
    fn keep_image(&mut self, image: &str) -> Result<(), u8>
        ensures asked { Answers (step deed.KeepImage (image.now ∷ [])) result (Self.log self.old).asked (Self.log self.new).asked }
        ensures files { (Self.log self.new).files ≡ (Self.log self.old).files };

    /// Holds a file that is to be replaced against other runs, to the end of the program. One that doesn't exist isn't held.
    fn hold(&mut self, name: &str) -> Result<(), u8>
        ensures asked { Answers (step deed.Hold (name.now ∷ [])) result (Self.log self.old).asked (Self.log self.new).asked }
        ensures files { (Self.log self.new).files ≡ (Self.log self.old).files };
}

/// What a run is given: blocks, standard input, a trace. What is opened is handed back in the end, and noted with all that became of it:
/// whoever opened one file of blocks and hands back one has handed back that.
pub trait Ends: Guards {
    ghost use Rattle.std.specs.Prelude.{◌≡◌, ◌∷◌, [], Some, false, IfOk};
    ghost use Rattle.named_files.specs.Asking.{Answers, Asks, discards, given, step};
    ghost use Rattle.named_files.specs.FileBytes.{opening};
    ghost use Rattle.named_files.specs.Uses.{with_blocks, with_keys, with_trace};
    ghost use Rattle.named_files.specs.declared.step_log.Deed.TheVariants as deed;

    /// Blocks that are open: those of a file, or none.
    type Blocks: Device + Drop;

    /// Where typed bytes come from.
    type Keys: Input + Drop;

    /// The file of a trace that is open.
    type Trace: Output + Drop;

    /// The blocks of a file that is only read.
    fn read_alone(&mut self, blocks: &str) -> Result<Self::Blocks, u8>
        ensures asked { Answers (step deed.OpenToRead (blocks.now ∷ [])) result (Self.log self.old).asked (Self.log self.new).asked }
        ensures files { (Self.log self.new).files ≡ opening Self.Blocks.block_count result (Self.log self.old).files }
        ensures fresh { IfOk result (λ blocks. Self.Blocks.calls blocks ≡ []) };

    /// The blocks of a run: those of the file, which is held against other runs, or none if it has no file.
    fn run_blocks(&mut self, blocks: Option<&str>) -> Result<Self::Blocks, u8>
        ensures asked { Answers (step deed.Open (given blocks.entry)) result (Self.log self.old).asked (Self.log self.new).asked }
        ensures files { (Self.log self.new).files ≡ opening Self.Blocks.block_count result (Self.log self.old).files }
        ensures fresh { IfOk result (λ blocks. Self.Blocks.calls blocks ≡ []) };

    /// The blocks of a run that is traced, and the file of its trace, which is emptied when the run begins.
    fn run_traced(
        &mut self,
        blocks: Option<&str>,
        trace: &str,
    ) -> Result<(Self::Blocks, Self::Trace), u8>
        ensures asked { Answers (step deed.OpenTraced (trace.now ∷ given blocks.entry)) result (Self.log self.old).asked (Self.log self.new).asked }
        ensures files { (Self.log self.new).files ≡ opening (λ ends. Self.Blocks.block_count ends.0) result (Self.log self.old).files }
        ensures fresh { IfOk result (λ ends. Self.Blocks.calls ends.0 ≡ []) }
        ensures empty { IfOk result (λ ends. (Self.Trace.sent ends.1 ≡ Some []) × (Self.Trace.failed ends.1 ≡ false)) };

    /// Standard input.
    fn input(&mut self) -> Result<Self::Keys, u8>
        ensures asked { Answers (step deed.Listen []) result (Self.log self.old).asked (Self.log self.new).asked }
        ensures files { (Self.log self.new).files ≡ (Self.log self.old).files }
        ensures fresh { IfOk result (λ keys. (Self.Keys.reads keys ≡ []) × (Self.Keys.failed keys ≡ false)) };

    /// Takes back blocks that it opened, and closes them.
    fn close_blocks(&mut self, blocks: Self::Blocks)
        ensures asked { (Self.log self.new).asked ≡ (Self.log self.old).asked }
        ensures used { (Self.log self.new).files ≡ record ((Self.log self.old).files)
            { used = with_blocks (Self.log self.old).files.used (Self.Blocks.calls blocks) } };

    /// Takes back standard input.
    fn close_input(&mut self, keys: Self::Keys)
        ensures asked { (Self.log self.new).asked ≡ (Self.log self.old).asked }
        ensures used { (Self.log self.new).files ≡ record ((Self.log self.old).files)
            { used = with_keys (Self.log self.old).files.used (Self.Keys.reads keys) (Self.Keys.failed keys) } };

    /// Takes back the trace of this name, and closes it. If nothing came of the run, the file is removed that was made for it; one that
    /// existed before stays.
    fn close_trace(&mut self, name: &str, trace: Self::Trace, is_unused: bool)
        ensures asked { Asks (discards name.now is_unused) 0 (Self.log self.old).asked (Self.log self.new).asked }
        ensures used { (Self.log self.new).files ≡ record ((Self.log self.old).files)
            { used = with_trace (Self.log self.old).files.used (Self.Trace.sent trace) (Self.Trace.passed trace) (Self.Trace.failed trace) } };
}

/// What standard error says of places in screens.
pub trait Places {
    /// Whether someone reads standard error at a terminal.
    fn is_watched(&self) -> bool;

    /// Says on standard error that a screen can't be shown.
    fn say_missing(&self, name: &str, number: u16);

    /// Says on standard error where a refusal is, and why it is, with that line of the screen.
    fn show_line<C: Display + Drop>(
        &self,
        name: &str,
        screen: (u16, &[u8; BLOCK_SIZE]),
        offset: u16,
        cause: C,
    );
}

/// The files of the system that the program runs on, with logs for contracts.
#[derive(Drop)]
pub struct SystemFiles<'a> {
    rt: &'a HostRuntime,
    asked: StepLog,
    read: FileLog,
    written: FileLog,
    used: UseLog,
    /// A file that is to be replaced.
    held: Option<File>,
    /// Whether the file of the trace was made for the run.
    is_trace_new: bool,
}

/// The status of an answer: 0 if what was asked was done.
fn status_of<T>(answer: &Result<T, u8>) -> u8
    ensures { result ≡ asking.answer answer.now }
{
    match answer {
        Ok(_) => 0,
        Err(status) => *status,
    }
}

impl<'a> SystemFiles<'a> {
    ghost use Rattle.std.specs.Prelude.{◌≡◌, ◌∷◌, ◌++◌, [], map};
    ghost use Rattle.named_files.specs.Asking.{answered, step};

    /// Nothing was asked yet.
    pub fn new(rt: &'a HostRuntime) -> SystemFiles<'a>
        ensures { ⟦<SystemFiles<'a> as Files>⟧.log result ≡ system_log [] (file_logs [] [] unused) }
    {
        SystemFiles {
            rt,
            asked: StepLog::new(),
            read: FileLog::new(),
            written: FileLog::new(),
            used: UseLog::new(),
            held: None,
            is_trace_new: false,
        }
    }

    /// Notes what was asked, and the status of the answer.
    fn note(&mut self, deed: Deed, names: &[&str], status: u8)
        ensures asked { self.new.asked.asked ≡ self.old.asked.asked ++ answered (step deed (map (λ name. name.now) names.now)) status ∷ [] }
        ensures rest { (self.new.read ≡ self.old.read) × (self.new.written ≡ self.old.written) × (self.new.used ≡ self.old.used)
            × (self.new.rt ≡ self.old.rt) × (self.new.is_trace_new ≡ self.old.is_trace_new) }
    {
        self.asked = self.asked.then(&Asked {
            deed,
            names,
            status,
        });
    }
}

impl<'a> Files for SystemFiles<'a> {
    ghost use Rattle.named_files.specs.Done.{system_log};
    ghost use Rattle.named_files.specs.FileBytes.{file_logs};

    ghost log = { λ s. system_log s.asked.asked (file_logs s.read.files s.written.files
        (record { opened = s.used.opened; blocks = s.used.blocks; keys = s.used.keys; traces = s.used.traces })) };

    fn alloc(&self) -> Global {
        self.rt.alloc()
    }

    fn out_of_memory(&mut self) -> u8 {
        let status = refusals::out_of_memory(self.rt);
        self.note(Deed::Allocate, &[], status);
        status
    }

    fn refuse_use(&mut self, name: &str, why: &str) -> u8 {
        let status = refusals::refuse_use(self.rt, name, why);
        self.note(Deed::Take, &[name], status);
        status
    }

    fn image_bytes(&mut self, image: &str) -> Result<Vec<u8>, u8> {
        let answer = opening::image_bytes(self.rt, image);
        self.note(Deed::Read, &[image], status_of(&answer));
        let bytes = answer?;
        self.read = self.read.then(&NamedBytes {
            name: image,
            bytes: bytes.as_slice(),
        });
        Ok(bytes)
    }

    fn file_bytes(&mut self, name: &str) -> Result<Vec<u8>, u8> {
        let answer = opening::file_bytes(self.rt, name);
        self.note(Deed::Read, &[name], status_of(&answer));
        let bytes = answer?;
        self.read = self.read.then(&NamedBytes {
            name,
            bytes: bytes.as_slice(),
        });
        Ok(bytes)
    }

    fn old_blocks(&mut self, blocks: &str) -> Result<Vec<u8>, u8> {
        let answer = opening::old_blocks(self.rt, blocks);
        self.note(Deed::Read, &[blocks], status_of(&answer));
        let bytes = answer?;
        self.read = self.read.then(&NamedBytes {
            name: blocks,
            bytes: bytes.as_slice(),
        });
        Ok(bytes)
    }

    fn old_file(&mut self, name: &str) -> Result<Option<Vec<u8>>, u8> {
        let answer = opening::old_file(self.rt, name);
        self.note(Deed::Read, &[name], status_of(&answer));
        let file = answer?;
        if let Some(bytes) = &file {
            self.read = self.read.then(&NamedBytes {
                name,
                bytes: bytes.as_slice(),
            });
        }
        Ok(file)
    }

    fn write(&mut self, name: &str, bytes: &[u8]) -> Result<(), u8> {
        let answer = opening::write(self.rt, name, bytes);
        self.note(Deed::Write, &[name], status_of(&answer));
        if answer.is_ok() {
            self.written = self.written.then(&NamedBytes { name, bytes });
        }
        answer
    }
}

impl<'a> Guards for SystemFiles<'a> {
    fn keep_apart(&mut self, read: &str, written: &str, what: &str) -> Result<(), u8> {
        let answer = keeping::keep_apart(self.rt, read, written, what);
        self.note(Deed::KeepApart, &[read, written], status_of(&answer));
        answer
    }

    fn keep_absent(&mut self, name: &str) -> Result<(), u8> {
        let answer = keeping::keep_absent(self.rt, name);
        self.note(Deed::KeepAbsent, &[name], status_of(&answer));
        answer
    }

    fn keep_blocks(&mut self, blocks: &str) -> Result<(), u8> {
        let answer = keeping::keep_blocks(self.rt, blocks);
        self.note(Deed::KeepBlocks, &[blocks], status_of(&answer));
        answer
    }

    fn keep_trace(&mut self, trace: &str) -> Result<(), u8> {
        let answer = keeping::keep_trace(self.rt, trace);
        self.note(Deed::KeepTrace, &[trace], status_of(&answer));
        answer
    }

    fn keep_image(&mut self, image: &str) -> Result<(), u8> {
        let answer = keeping::keep_image(self.rt, image);
        self.note(Deed::KeepImage, &[image], status_of(&answer));
        answer
    }

    fn hold(&mut self, name: &str) -> Result<(), u8> {
        let answer = opening::held(self.rt, name);
        self.note(Deed::Hold, &[name], status_of(&answer));
        self.held = answer?;
        Ok(())
    }
}

impl<'a> Ends for SystemFiles<'a> {
    type Blocks = FileDevice;

    type Keys = Reading<BufReader<Stdin>>;

    type Trace = Writing<BufWriter<TraceFile>>;

    fn read_alone(&mut self, blocks: &str) -> Result<FileDevice, u8> {
        let answer = opening::read_alone(self.rt, blocks);
        self.note(Deed::OpenToRead, &[blocks], status_of(&answer));
        let device = answer?;
        self.used = self.used.with_opened(&Opened {
            count: device.count(),
        });
        Ok(device)
    }

    fn run_blocks(&mut self, blocks: Option<&str>) -> Result<FileDevice, u8> {
        let answer = opening::run_blocks(self.rt, blocks);
        match blocks {
            Some(name) => self.note(Deed::Open, &[name], status_of(&answer)),
            None => self.note(Deed::Open, &[], status_of(&answer)),
        }
        let device = answer?;
        self.used = self.used.with_opened(&Opened {
            count: device.count(),
        });
        Ok(device)
    }

    fn run_traced(
        &mut self,
        blocks: Option<&str>,
        trace: &str,
    ) -> Result<(FileDevice, Writing<BufWriter<TraceFile>>), u8> {
        self.is_trace_new = matches!(fs::exists(self.rt, trace), Ok(false));
        let answer = opening::run_traced(self.rt, blocks, trace);
        match blocks {
            Some(name) => self.note(Deed::OpenTraced, &[trace, name], status_of(&answer)),
            None => self.note(Deed::OpenTraced, &[trace], status_of(&answer)),
        }
        let (device, lines) = answer?;
        self.used = self.used.with_opened(&Opened {
            count: device.count(),
        });
        Ok((device, lines))
    }

    fn input(&mut self) -> Result<Reading<BufReader<Stdin>>, u8> {
        let answer = streams::standard_input(self.rt);
        self.note(Deed::Listen, &[], status_of(&answer));
        answer
    }

    fn close_blocks(&mut self, blocks: FileDevice) {
        self.used = self.used.with_blocks(blocks.log());
    }

    fn close_input(&mut self, keys: Reading<BufReader<Stdin>>) {
        self.used = self.used.with_keys(&KeysUse {
            reads: keys.log(),
            failed: keys.has_failed(),
        });
    }

    #[tactic(auto, unfolding(crate::specs::Asking::Asks))]
    fn close_trace(&mut self, name: &str, trace: Writing<BufWriter<TraceFile>>, is_unused: bool) {
        self.used = self.used.with_trace(&TraceUse {
            lines: trace.log(),
            failed: trace.has_failed(),
        });
        drop(trace);
        if is_unused {
            if self.is_trace_new {
                let _gone = fs::remove_file(self.rt, name);
            }
            self.note(Deed::Discard, &[name], 0);
        }
    }
}

impl<'a> Places for SystemFiles<'a> {
    fn is_watched(&self) -> bool {
        self.rt.stderr().is_terminal()
    }

    fn say_missing(&self, name: &str, number: u16) {
        places::say_missing(self.rt, name, number);
    }

    fn show_line<C: Display + Drop>(
        &self,
        name: &str,
        screen: (u16, &[u8; BLOCK_SIZE]),
        offset: u16,
        cause: C,
    ) {
        places::show_line(self.rt, name, screen, offset, cause);
    }
}

/// Writes the file that a subcommand made, if it made one, and answers the status.
pub fn write_made<F: Files>(files: &mut F, status: u8, file: Option<Vec<u8>>, name: &str) -> u8
    ensures none { IsNone file → (result ≡ status) × (F.log files.new ≡ F.log files.old) }
    ensures made { IfSome file (λ made. IsWrittenOr name.now made.items status result (F.log files.old) (F.log files.new)) }
{
    let Some(file) = file else {
        return status;
    };
    match files.write(name, file.as_slice()) {
        Ok(()) => status,
        Err(refused) => refused,
    }
}
