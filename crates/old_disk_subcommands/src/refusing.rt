//! What is printed of a container that is not read or written.

ghost use Rattle.std.specs.Prelude.{◌≡◌, IsNone, false, true};
ghost use Rattle.old_disk_subcommands.specs.Unpacked.{PrintsSome, PrintsWhy};
ghost use Rattle.subcommands.specs.Ends.{IsRefusal};

use disk_volumes::Unreadable;
use inner_interpreter::{EndFault, Output, send_all};
use old_disks::Refusal;
use std::alloc::Global;
use subcommands::{Ended, Reason, print_out_of_memory, refuse};

/// A sentence that says why.
#[derive(Drop)]
struct Sentence {
    text: Vec<u8>,
}

impl Reason for Sentence {
    ghost spelling = { λ s. s.text.items };

    fn send<W: Output>(&self, writer: &mut W) -> Result<(), EndFault> {
        send_all(writer, self.text.as_slice())
    }
}

/// The sentence that says why a container is not read or written; none if there is no memory.
fn sentence_of(alloc: Global, why: &Refusal) -> Option<String> {
    if matches!(why, Refusal::OutOfMemory) {
        return None;
    }
    format!(in alloc; "{why}").ok()
}

/// The sentence that says why a disk's file is not read; none if there is no memory.
fn sentence_of_unread(alloc: Global, why: &Unreadable) -> Option<String> {
    if matches!(why, Unreadable::OutOfMemory) {
        return None;
    }
    format!(in alloc; "{why}").ok()
}

/// Prints why a container is not read or written: `container: SENTENCE`, or `out of memory` if there is no sentence.
fn refuse_by<W: Output>(sentence: Option<String>, writer: &mut W) -> Ended
    ensures printed { W.failed writer.new ≡ false → PrintsWhy result.status (W.sent writer.old) (W.sent writer.new) }
    ensures passed { W.failed writer.new ≡ false → W.passed writer.new ≡ true }
    ensures cut { W.failed writer.old ≡ false → W.failed writer.new ≡ true → result.status ≡ 5 }
    ensures status { IsRefusal result.status (W.failed writer.new) }
    ensures file { IsNone result.file }
{
    let Some(text) = sentence else {
        return print_out_of_memory(writer);
    };
    let sentence = Sentence {
        text: text.into_bytes(),
    };
    refuse("container", sentence, writer)
}

/// Prints why a container is not read or written as blocks.
pub fn refuse_disk<W: Output>(alloc: Global, why: &Refusal, writer: &mut W) -> Ended
    ensures printed { W.failed writer.new ≡ false → PrintsWhy result.status (W.sent writer.old) (W.sent writer.new) }
    ensures passed { W.failed writer.new ≡ false → W.passed writer.new ≡ true }
    ensures cut { W.failed writer.old ≡ false → W.failed writer.new ≡ true → result.status ≡ 5 }
    ensures status { IsRefusal result.status (W.failed writer.new) }
    ensures file { IsNone result.file }
{
    refuse_by(sentence_of(alloc, why), writer)
}

/// Prints why a disk's file is not read.
pub fn refuse_unread<W: Output>(alloc: Global, why: &Unreadable, writer: &mut W) -> Ended
    ensures printed { W.failed writer.new ≡ false → PrintsWhy result.status (W.sent writer.old) (W.sent writer.new) }
    ensures passed { W.failed writer.new ≡ false → W.passed writer.new ≡ true }
    ensures cut { W.failed writer.old ≡ false → W.failed writer.new ≡ true → result.status ≡ 5 }
    ensures status { IsRefusal result.status (W.failed writer.new) }
    ensures file { IsNone result.file }
{
    refuse_by(sentence_of_unread(alloc, why), writer)
}

/// Prints a text, and answers whether that is done.
pub fn is_said<W: Output>(text: &[u8], writer: &mut W) -> bool
    ensures printed { W.failed writer.new ≡ false → (result ≡ true) × PrintsSome (W.sent writer.old) (W.sent writer.new) }
    ensures passed { W.failed writer.new ≡ false → W.passed writer.new ≡ true }
    ensures cut { W.failed writer.old ≡ false → W.failed writer.new ≡ true → result ≡ false }
{
    send_all(writer, text).is_ok() && writer.flush().is_ok()
}
