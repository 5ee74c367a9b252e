//! Answers to what a machine asks.

ghost use Rattle.std.specs.Prelude.{◌≡◌, None, Some, true, false, IsTrue, IsOkAnd, IsErrOf, OnOk, OnErr, ◌≤◌, ◌<◌, All, length};
ghost use Rattle.std.specs.List.{list_all};
ghost use Rattle.machine.specs.Answer.{asked_by, fits_request, is_answer, seen, IsSpelled, answered, is_line, TakesFit, RefusesHalted, RefusesUnfit, line_shown, key_answered, line_answered, read_answered, write_answered, input_stopped, is_typed};

use super::{LentMachine, quiet};
use crate::act::{Act, Answer, Cause, Event, Refused, Shown};
use machine_parts::faults::{DATA_OVERFLOW, DATA_UNDERFLOW, READ_FAILED, WRITE_FAILED};
use machine_parts::parts::{Request, Span};
use memory::system::SPAN;

/// Whether a line's bytes fit a request for at most `n`.
#[tactic(auto, unfolding(crate::specs::Answer::is_line))]
fn is_line(n: u16, bytes: &[u8], returned: bool) -> bool
    ensures value { result ≡ is_line n bytes.now returned }
    ensures few { IsTrue result → length bytes.now ≤ n }
{
    if !are_typed(bytes) {
        return false;
    }
    if returned {
        return bytes.len() < n as usize;
    }
    !bytes.is_empty() && bytes.len() <= n as usize
}

/// Whether no byte ends a line.
fn are_typed(bytes: &[u8]) -> bool
    ensures { result ≡ list_all is_typed bytes.now }
{
    bytes.iter().all(|byte| !(*byte == 10 || *byte == 13))
}

fn line_shown(at: u16, len: u16, returned: bool) -> Shown
    ensures { result ≡ line_shown at len returned }
{
    let span = Span { at, len };
    if returned {
        Shown::Line(span)
    } else {
        Shown::Span(span)
    }
}

impl<'a> Answer<'a> {
    /// Whether a machine that waits so takes this answer, unless it is halted.
    pub fn fits(&self, wait: Option<(Request, u16)>) -> bool
        ensures { result ≡ is_answer (asked_by wait) (seen self.now) }
    {
        let Some((request, _)) = wait else {
            return false;
        };
        match request {
            Request::Key => matches!(self, Answer::Key(_) | Answer::InputEnd | Answer::InputFault),
            Request::Line { n } => self.fits_line(n),
            Request::Read { block: _ } => matches!(self, Answer::ReadOk(_) | Answer::ReadFault),
            Request::Write { block: _ } => matches!(self, Answer::WriteOk | Answer::WriteFault),
        }
    }

    /// Whether it answers a request for a line of at most `n` bytes.
    fn fits_line(&self, n: u16) -> bool
        ensures { result ≡ fits_request (Request.Line n) (seen self.now) }
    {
        match self {
            Answer::Line { bytes, returned } => is_line(n, bytes, *returned),
            Answer::InputEnd | Answer::InputFault => true,
            _ => false,
        }
    }
}

impl<'m> LentMachine<'m> {
    /// The answer to the request that waits. `Halted` if the machine is; else `NotAsked` if no request
    /// is, or the answer doesn't fit it. The machine is then unchanged.
    #[tactic(auto, unfolding(crate::specs::Answer::answer_of))]
    pub fn answer(&mut self, answer: Answer<'_>) -> Result<Act, Refused>
        ensures done { TakesFit self.old self.new (seen answer.entry) result }
        ensures spelled { OnOk result (IsSpelled (seen answer.entry)) }
        ensures settled { OnOk result (self.new.wait ≡ None) }
        ensures halted { RefusesHalted self.old result }
        ensures not_asked { RefusesUnfit self.old (seen answer.entry) result }
        ensures stays { OnErr result (self.new ≡ self.old) }
    {
        if self.halt.is_some() {
            return Err(Refused::Halted);
        }
        match self.wait {
            None => Err(Refused::NotAsked),
            Some((Request::Key, token)) => self.answer_key(token, answer),
            Some((Request::Line { n }, token)) => self.answer_line(n, token, answer),
            Some((Request::Read { block }, token)) => self.answer_read(block, token, answer),
            Some((Request::Write { block }, token)) => self.answer_write(block, token, answer),
        }
    }

    #[tactic(auto, unfolding(crate::specs::Answer::answered))]
    fn answer_key(&mut self, _token: u16, answer: Answer<'_>) -> Result<Act, Refused>
        requires { self.old.halt ≡ None }
        ensures done { fits_request Request.Key (seen answer.entry) ≡ true →
            IsOkAnd result (λ act. (self.new, act) ≡ answered self.old.parts (Request.Key, _token)
            (seen answer.entry)) }
        ensures spelled { OnOk result (IsSpelled (seen answer.entry)) }
        ensures settled { OnOk result (self.new.wait ≡ None) }
        ensures not_asked { fits_request Request.Key (seen answer.entry) ≡ false → IsErrOf result Refused.NotAsked }
        ensures stays { OnErr result (self.new ≡ self.old) }
    {
        match answer {
            Answer::Key(byte) => Ok(self.push_key(byte)),
            Answer::InputEnd => Ok(self.stop_input(Cause::InputEnded)),
            Answer::InputFault => Ok(self.stop_input(Cause::InputFault)),
            _ => Err(Refused::NotAsked),
        }
    }

    /// KEY's byte is pushed.
    #[tactic(auto, unfolding(crate::specs::Answer::key_answered))]
    fn push_key(&mut self, byte: u8) -> Act
        requires { self.old.halt ≡ None }
        ensures done { (self.new, result) ≡ key_answered self.old.parts byte }
        ensures spelled { byte < 256 }
        ensures settled { self.new.wait ≡ None }
    {
        self.wait = None;
        if self.parts.values.push(u16::from(byte)).is_err() {
            return self.fault(Shown::Nothing, DATA_OVERFLOW);
        }
        quiet()
    }

    #[tactic(auto, unfolding(crate::specs::Answer::answered))]
    fn answer_line(&mut self, n: u16, _token: u16, answer: Answer<'_>) -> Result<Act, Refused>
        requires { self.old.halt ≡ None }
        ensures done { fits_request (Request.Line n) (seen answer.entry) ≡ true →
            IsOkAnd result (λ act. (self.new, act) ≡ answered self.old.parts (Request.Line n, _token)
            (seen answer.entry)) }
        ensures spelled { OnOk result (IsSpelled (seen answer.entry)) }
        ensures settled { OnOk result (self.new.wait ≡ None) }
        ensures not_asked { fits_request (Request.Line n) (seen answer.entry) ≡ false →
            IsErrOf result Refused.NotAsked }
        ensures stays { OnErr result (self.new ≡ self.old) }
    {
        match answer {
            Answer::Line { bytes, returned } => {
                if !is_line(n, bytes, returned) {
                    return Err(Refused::NotAsked);
                }
                Ok(self.put_line(bytes, returned))
            }
            Answer::InputEnd => Ok(self.stop_input(Cause::InputEnded)),
            Answer::InputFault => Ok(self.stop_input(Cause::InputFault)),
            _ => Err(Refused::NotAsked),
        }
    }

    /// EXPECT's line: its count goes to SPAN, then its bytes to the address that EXPECT was given.
    #[tactic(auto, unfolding(crate::specs::Answer::line_answered))]
    fn put_line(&mut self, bytes: &[u8], returned: bool) -> Act
        requires halt { self.old.halt ≡ None }
        requires few { length bytes.now ≤ 65535 }
        ensures done { (self.new, result) ≡ line_answered self.old.parts bytes.now returned }
        ensures spelled { All (λ b. b < 256) bytes.now }
        ensures settled { self.new.wait ≡ None }
    {
        self.wait = None;
        let Some((at, _count)) = self.parts.values.top2() else {
            return self.fault(Shown::Nothing, DATA_UNDERFLOW);
        };
        let count = bytes.len() as u16;
        self.parts.values.lower(2);
        self.parts.set_cell(SPAN, count);
        self.parts.set_bytes(at, bytes);
        Act {
            shown: line_shown(at, count, returned),
            event: Event::Went,
        }
    }

    #[tactic(auto, unfolding(crate::specs::Answer::answered))]
    fn answer_read(&mut self, block: u16, token: u16, answer: Answer<'_>) -> Result<Act, Refused>
        requires { self.old.halt ≡ None }
        ensures done { fits_request (Request.Read block) (seen answer.entry) ≡ true →
            IsOkAnd result (λ act. (self.new, act) ≡ answered self.old.parts (Request.Read block, token)
            (seen answer.entry)) }
        ensures spelled { OnOk result (IsSpelled (seen answer.entry)) }
        ensures settled { OnOk result (self.new.wait ≡ None) }
        ensures not_asked { fits_request (Request.Read block) (seen answer.entry) ≡ false →
            IsErrOf result Refused.NotAsked }
        ensures stays { OnErr result (self.new ≡ self.old) }
    {
        match answer {
            Answer::ReadOk(page) => Ok(self.bring(block, token, page)),
            Answer::ReadFault => {
                self.wait = None;
                Ok(self.fault(Shown::Nothing, READ_FAILED))
            }
            _ => Err(Refused::NotAsked),
        }
    }

    /// A block's bytes go to the victim's buffer.
    #[tactic(auto, unfolding(crate::specs::Answer::read_answered))]
    fn bring(&mut self, block: u16, token: u16, page: &[u8; 1024]) -> Act
        requires { self.old.halt ≡ None }
        ensures done { (self.new, result) ≡ read_answered self.old.parts block token page.now }
        ensures spelled { (length page.now ≡ 1024) × All (λ b. b < 256) page.now }
        ensures settled { self.new.wait ≡ None }
    {
        let slot = self.parts.buffers.victim().slot;
        self.parts.set_page(slot, page);
        self.parts.buffers.assign(block);
        self.parts.pending = Some(token);
        self.wait = None;
        quiet()
    }

    #[tactic(auto, unfolding(crate::specs::Answer::answered, crate::specs::Answer::write_answered))]
    fn answer_write(&mut self, block: u16, token: u16, answer: Answer<'_>) -> Result<Act, Refused>
        requires { self.old.halt ≡ None }
        ensures done { fits_request (Request.Write block) (seen answer.entry) ≡ true →
            IsOkAnd result (λ act. (self.new, act) ≡ answered self.old.parts (Request.Write block, token)
            (seen answer.entry)) }
        ensures spelled { OnOk result (IsSpelled (seen answer.entry)) }
        ensures settled { OnOk result (self.new.wait ≡ None) }
        ensures not_asked { fits_request (Request.Write block) (seen answer.entry) ≡ false →
            IsErrOf result Refused.NotAsked }
        ensures stays { OnErr result (self.new ≡ self.old) }
    {
        match answer {
            Answer::WriteOk => {
                self.parts.buffers.unmark(block);
                self.parts.pending = Some(token);
                self.wait = None;
                Ok(quiet())
            }
            Answer::WriteFault => {
                self.wait = None;
                Ok(self.fault(Shown::Nothing, WRITE_FAILED))
            }
            _ => Err(Refused::NotAsked),
        }
    }

    /// No more typed bytes come.
    fn stop_input(&mut self, cause: Cause) -> Act
        requires { self.old.halt ≡ None }
        ensures done { (self.new, result) ≡ input_stopped self.old.parts cause }
        ensures settled { self.new.wait ≡ None }
    {
        self.wait = None;
        self.halt = Some(cause);
        Act {
            shown: Shown::Nothing,
            event: Event::Halt(cause),
        }
    }
}
