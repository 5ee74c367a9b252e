//! Answering what a machine asks, by a reader and a device.

ghost use Rattle.std.specs.Prelude.{◌≡◌, ◌≤◌, ℕ, List, Option, Some, None, vec_capacity, IfOk, IfErr, OnOk};
ghost use Rattle.block_buffers.specs.Disks.{Disk};
ghost use Rattle.block_buffers.specs.DeviceCalls.{DeviceCall};
ghost use Rattle.machine.specs.Answer.{asked_by};
ghost use Rattle.inner_interpreter.specs.Ends.{Marks};
ghost use Rattle.inner_interpreter.specs.Lines.{IsBegun, IsLeft};
ghost use Rattle.inner_interpreter.specs.Served.{Serves, Faults, HasActed, HasSettled, HasNotFailed, WhereTold};

use crate::ends::{EndFault, Input};
use crate::lines::take_line;
use block_buffers::Device;
use machine::{Act, Answer, LentMachine};
use machine_parts::parts::Request;

/// Answers a `Key`. If the reader fails, the machine learns of it.
pub fn answer_key<R: Input>(machine: &mut LentMachine, reader: &mut R) -> Result<Act, EndFault>
    requires waits { asked_by machine.old.wait ≡ Some Request.Key }
    requires goes { machine.old.halt ≡ None }
    ensures told { (typed : List ℕ) → R.unread reader.old ≡ Some typed → (disk : Disk) →
        IfOk result (λ act. Serves machine.old Request.Key typed disk machine.new (R.unread reader.new)
        (Some disk) act) }
    ensures left { (typed : List ℕ) → R.unread reader.old ≡ Some typed →
        IfErr result (λ _. R.unread reader.new ≡ Some typed) }
    ensures answered { (calls : List DeviceCall) → HasSettled machine.old machine.new calls calls
        (R.reads reader.old) (R.reads reader.new) result }
    ensures settled { machine.new.wait ≡ None }
    ensures read { OnOk result (HasNotFailed machine.new) }
    ensures fault { IfErr result (λ _. Faults machine.old machine.new) }
    ensures mark { Marks (R.failed reader.old) (R.failed reader.new) result }
{
    match reader.byte() {
        Ok(Some(byte)) => Ok(machine.answer(Answer::Key(byte)).unwrap()),
        Ok(None) => Ok(machine.answer(Answer::InputEnd).unwrap()),
        Err(fault) => {
            machine.answer(Answer::InputFault).unwrap();
            Err(fault)
        }
    }
}

/// Answers a `Line`. If the reader fails, the machine learns of it.
#[tactic(auto, using(crate::proofs::Lining::line_fits))]
pub fn answer_line<R: Input>(
    line: &mut Vec<u8>,
    machine: &mut LentMachine,
    reader: &mut R,
    n: u16,
) -> Result<Act, EndFault>
    requires waits { asked_by machine.old.wait ≡ Some (Request.Line n) }
    requires goes { machine.old.halt ≡ None }
    requires room { 65535 ≤ vec_capacity line.old }
    ensures told { (typed : List ℕ) → R.unread reader.old ≡ Some typed → (disk : Disk) →
        IfOk result (λ act. Serves machine.old (Request.Line n) typed disk machine.new (R.unread reader.new)
        (Some disk) act) }
    ensures begun { (typed : List ℕ) → R.unread reader.old ≡ Some typed →
        IfErr result (λ _. IsBegun n typed (R.unread reader.new)) }
    ensures answered { (calls : List DeviceCall) → HasSettled machine.old machine.new calls calls
        (R.reads reader.old) (R.reads reader.new) result }
    ensures settled { machine.new.wait ≡ None }
    ensures room { 65535 ≤ vec_capacity line.new }
    ensures read { OnOk result (HasNotFailed machine.new) }
    ensures fault { IfErr result (λ _. Faults machine.old machine.new) }
    ensures mark { Marks (R.failed reader.old) (R.failed reader.new) result }
{
    match take_line(line, reader, n) {
        Ok(returned) => {
            let bytes = line.as_slice();
            if bytes.is_empty() && !returned {
                return Ok(machine.answer(Answer::InputEnd).unwrap());
            }
            Ok(machine.answer(Answer::Line { bytes, returned }).unwrap())
        }
        Err(fault) => {
            machine.answer(Answer::InputFault).unwrap();
            Err(fault)
        }
    }
}

/// Answers a `Read`.
pub fn answer_read<D: Device>(machine: &mut LentMachine, device: &mut D, block: u16) -> Act
    requires waits { asked_by machine.old.wait ≡ Some (Request.Read block) }
    requires goes { machine.old.halt ≡ None }
    ensures told { (disk : Disk) → D.disk device.old ≡ Some disk → (typed : List ℕ) →
        Serves machine.old (Request.Read block) typed disk machine.new (Some typed) (D.disk device.new) result }
    ensures answered { (reads : List (Option ℕ)) → HasActed machine.old machine.new (D.calls device.old)
        (D.calls device.new) reads reads result }
    ensures settled { machine.new.wait ≡ None }
    ensures read { HasNotFailed machine.new }
{
    let mut page = [0u8; 1024];
    match device.read(block, &mut page) {
        Ok(()) => machine.answer(Answer::ReadOk(&page)).unwrap(),
        Err(_) => machine.answer(Answer::ReadFault).unwrap(),
    }
}

/// Answers a `Write`, with the bytes of the block's buffer.
pub fn answer_write<D: Device>(machine: &mut LentMachine, device: &mut D, block: u16) -> Act
    requires waits { asked_by machine.old.wait ≡ Some (Request.Write block) }
    requires goes { machine.old.halt ≡ None }
    ensures told { (disk : Disk) → D.disk device.old ≡ Some disk → (typed : List ℕ) →
        Serves machine.old (Request.Write block) typed disk machine.new (Some typed) (D.disk device.new) result }
    ensures answered { (reads : List (Option ℕ)) → HasActed machine.old machine.new (D.calls device.old)
        (D.calls device.new) reads reads result }
    ensures settled { machine.new.wait ≡ None }
    ensures read { HasNotFailed machine.new }
{
    let Some(page) = machine.asked_page() else {
        unreachable!()
    };
    match device.write(block, page) {
        Ok(()) => machine.answer(Answer::WriteOk).unwrap(),
        Err(_) => machine.answer(Answer::WriteFault).unwrap(),
    }
}

/// Answers what was asked. If the reader fails, the machine learns of it.
pub fn settle<R: Input, D: Device>(
    line: &mut Vec<u8>,
    machine: &mut LentMachine,
    reader: &mut R,
    device: &mut D,
    request: Request,
) -> Result<Act, EndFault>
    requires waits { asked_by machine.old.wait ≡ Some request }
    requires goes { machine.old.halt ≡ None }
    requires room { 65535 ≤ vec_capacity line.old }
    ensures told { WhereTold (R.unread reader.old) (D.disk device.old) (λ typed d. IfOk result (λ act.
        Serves machine.old request typed d machine.new (R.unread reader.new) (D.disk device.new) act)) }
    ensures answered { HasSettled machine.old machine.new (D.calls device.old) (D.calls device.new)
        (R.reads reader.old) (R.reads reader.new) result }
    ensures settled { machine.new.wait ≡ None }
    ensures room { 65535 ≤ vec_capacity line.new }
    ensures read { OnOk result (HasNotFailed machine.new) }
    ensures fault { IfErr result (λ _. Faults machine.old machine.new) }
    ensures left { (typed : List ℕ) → R.unread reader.old ≡ Some typed →
        IfErr result (λ _. IsLeft (Some request) typed (R.unread reader.new)) }
    ensures device { IfErr result (λ _. D.disk device.new ≡ D.disk device.old) }
    ensures mark { Marks (R.failed reader.old) (R.failed reader.new) result }
{
    match request {
        Request::Key => answer_key(machine, reader),
        Request::Line { n } => answer_line(line, machine, reader, n),
        Request::Read { block } => Ok(answer_read(machine, device, block)),
        Request::Write { block } => Ok(answer_write(machine, device, block)),
    }
}
