//! A machine at which lines are typed, as a script types them in a session: within limits, over blocks in memory.

use crate::bytes::SCREEN;
use crate::door::{FIRST, HOST, MARK, PROMPT, SECOND, SERVICE};
use crate::faults::{
    Interpreted, Place, SAID, place_of_fault, put_described, put_own_words, put_place,
};
use crate::screens::{MOST_SCREENS, screen_of};
use crate::services::{Service, service_of};
use advice::UNKNOWN;
use dictionary::find;
use image_loader::Image;
use inner_interpreter::{Answer, Cause, Event, LentMachine, Shown};
use machine_parts::parts::{Request, Span};
use memory::Memory;
use memory::system::{BASE, BLK, DP, FAULT, FENCE, NUMBER_TIB, TIB, TO_IN};
use std::alloc::{AllocError, Global};

/// How many blocks a machine has: those that are no screens are refused.
const BLOCK_COUNT: u32 = 65536;

/// Bytes of a line that TIB has room for.
const TYPED: u16 = 127;

/// The ticks that a turn counts at least: a machine that has nothing but faults ends soon, too.
const TURN: u64 = 1000;

/// The bytes that a turn shows before the limits are looked at.
const PIECE: usize = 2048;

/// How much a machine may do for one list of lines.
#[derive(Clone, Copy, Debug, PartialEq, Eq)]
pub struct Limits {
    /// Ticks.
    pub ticks: u64,
    /// Bytes that it shows.
    pub shown: usize,
}

/// How the lines ended.
#[derive(Clone, Copy, Debug, PartialEq, Eq, Drop)]
pub enum Ending {
    /// All of them were done.
    Whole,
    /// The machine left the Forth, or waited for a key.
    Left,
    /// A fault ended them.
    Fault,
    /// A limit: ticks, or bytes that are shown.
    Ticks,
    Shown,
}

/// What lines have shown and left.
#[derive(Drop)]
pub struct Typed {
    pub ending: Ending,
    shown: Vec<u8>,
    /// How much was shown before each line, and at the end if all were done.
    places: Vec<usize>,
    /// The numbers on the stack then, the top last, and where those of each place end.
    cells: Vec<u16>,
    ends: Vec<usize>,
}

impl Typed {
    fn new(alloc: Global) -> Typed {
        Typed {
            ending: Ending::Left,
            shown: Vec::new(alloc),
            places: Vec::new(alloc),
            cells: Vec::new(alloc),
            ends: Vec::new(alloc),
        }
    }

    /// The same, with how the lines ended.
    fn ended(self, ending: Ending) -> Typed {
        let Typed {
            ending: _,
            shown,
            places,
            cells,
            ends,
        } = self;
        Typed {
            ending,
            shown,
            places,
            cells,
            ends,
        }
    }

    /// What was shown from before a line on, up to before another one.
    pub fn shown(&self, from: usize, to: usize) -> &[u8] {
        let all = self.shown.len();
        let start = self.places.get(from).copied().unwrap_or(all);
        let end = self.places.get(to).copied().unwrap_or(all);
        self.shown.as_slice().get(start..end).unwrap_or(b"")
    }

    /// The numbers on the stack before a line, the top last; `None` if the machine did not come to it.
    pub fn stack(&self, line: usize) -> Option<&[u16]> {
        let end = self.ends.get(line).copied()?;
        let start = match line.checked_sub(1) {
            Some(before) => self.ends.get(before).copied()?,
            None => 0,
        };
        self.cells.as_slice().get(start..end)
    }
}

/// What a machine is given: the image that it starts with, the lines, and what is said of faults.
#[derive(Clone, Copy)]
pub struct Given<'a> {
    pub image: &'a Image,
    pub lines: &'a [&'a [u8]],
    pub texts: &'a [u8],
    pub limits: Limits,
}

/// Lines while they are typed.
#[derive(Drop)]
struct Sitting<'a> {
    alloc: Global,
    given: Given<'a>,
    blocks: &'a mut Vec<u8>,
    typed: Typed,
    /// The ticks that are left, those of this turn, and what this turn has shown.
    left: u64,
    turn: u64,
    piece: usize,
    /// The fault thread that leaves faults to a host.
    fault_thread: u16,
}

/// The bytes of a screen.
fn page_of(blocks: &[u8], block: u16) -> Option<&[u8; 1024]> {
    if block >= MOST_SCREENS {
        return None;
    }
    let (page, _) = screen_of(blocks, block)?.split_first_chunk::<1024>()?;
    Some(page)
}

/// Writes the bytes of a screen, if the blocks have it; whether they do.
fn put_page(blocks: &mut [u8], block: u16, page: Option<[u8; 1024]>) -> bool {
    let start = usize::from(block) * SCREEN;
    let (Some(kept), Some(page)) = (blocks.get_mut(start..start.saturating_add(SCREEN)), page)
    else {
        return false;
    };
    for (to, from) in kept.iter_mut().zip(page.iter()) {
        *to = *from;
    }
    true
}

/// Says to the machine's words that there is a host, which gives them a script's lines.
fn greet(machine: &mut LentMachine) {
    machine.set_cell(MARK, HOST);
    if let Ok(Some(door)) = find(machine.memory(), b"DOOR") {
        machine.set_cell(door.wrapping_add(2), 2);
    }
}

impl<'a> Sitting<'a> {
    /// A turn ends: an ending if a limit is met.
    fn end_turn(&mut self) -> Option<Ending> {
        self.left = self.left.saturating_sub(self.turn.max(TURN));
        self.turn = 0;
        self.piece = 0;
        if self.left == 0 {
            return Some(Ending::Ticks);
        }
        if self.typed.shown.len() > self.given.limits.shown {
            return Some(Ending::Shown);
        }
        None
    }

    fn show(&mut self, bytes: &[u8]) -> Result<(), AllocError> {
        self.piece = self.piece.saturating_add(bytes.len());
        self.typed.shown.extend_from_slice(bytes)
    }

    /// Keeps what the machine shows of its memory.
    fn show_span(&mut self, machine: &LentMachine, span: Span) -> Result<(), AllocError> {
        let (front, back) = machine.shown(span);
        self.show(front)?;
        self.show(back)
    }

    fn show_act(&mut self, machine: &LentMachine, shown: Shown) -> Result<(), AllocError> {
        match shown {
            Shown::Nothing => Ok(()),
            Shown::Byte(byte) => self.show(&[byte]),
            Shown::Span(span) | Shown::Line(span) => self.show_span(machine, span),
        }
    }

    /// Begins a line, if none is started.
    fn show_line_end(&mut self) -> Result<(), AllocError> {
        match self.typed.shown.last() {
            None | Some(b'\n') => Ok(()),
            Some(_) => self.show(b"\n"),
        }
    }

    /// Ticks, up to an act that isn't quiet.
    fn run(&mut self, machine: &mut LentMachine) -> Result<Option<Ending>, AllocError> {
        let room = self.left.saturating_sub(self.turn);
        if room == 0 || self.piece >= PIECE {
            return Ok(self.end_turn());
        }
        let Ok((count, act)) = machine.ticks(room) else {
            return Ok(Some(Ending::Left));
        };
        self.turn = self.turn.saturating_add(count);
        self.show_act(machine, act.shown)?;
        if let Event::Fault(fault) = act.event {
            if let Some(ending) = self.end_turn() {
                return Ok(Some(ending));
            }
            return self.take_fault(machine, fault);
        }
        Ok(None)
    }

    /// Where the machine is interpreting: the place of a fault.
    fn place<'m>(&self, machine: &'m LentMachine<'_>, page: &'m [u8], fault: u16) -> Place<'m> {
        let memory = machine.memory();
        let block = memory.cell(BLK);
        let count = memory.cell(NUMBER_TIB).min(128);
        let (line, _) = memory.span(TIB, count);
        place_of_fault(
            fault,
            Interpreted {
                block,
                offset: usize::from(memory.cell(TO_IN)),
                text: if block == 0 { line } else { page },
            },
        )
    }

    /// The bytes of the block that the machine is interpreting, as a buffer or the blocks have them.
    fn page(&self, machine: &LentMachine) -> Result<Vec<u8>, AllocError> {
        let block = machine.memory().cell(BLK);
        match page_of(self.blocks.as_slice(), block) {
            Some(page) => Vec::from_slice(self.alloc, page),
            None => Ok(Vec::new(self.alloc)),
        }
    }

    /// A fault was taken: unless a program handles it, it ends the lines.
    fn take_fault(
        &mut self,
        machine: &mut LentMachine,
        fault: u16,
    ) -> Result<Option<Ending>, AllocError> {
        if machine.memory().cell(FAULT) != self.fault_thread {
            return Ok(None);
        }
        let mut text = Vec::new(self.alloc);
        let page = self.page(machine)?;
        let place = self.place(machine, page.as_slice(), fault);
        if fault == SAID {
            put_own_words(&mut text, self.alloc, self.typed.shown.as_slice(), fault)?;
        } else {
            self.put_described(&mut text, machine, fault, &place)?;
        }
        put_place(&mut text, self.alloc, fault, &place)?;
        self.show_line_end()?;
        self.show(text.as_slice())?;
        Ok(Some(Ending::Fault))
    }

    fn put_described(
        &self,
        text: &mut Vec<u8>,
        machine: &LentMachine,
        fault: u16,
        place: &Place<'_>,
    ) -> Result<(), AllocError> {
        let base = machine.memory().cell(BASE);
        put_described(text, self.alloc, self.given.texts, fault, place, base)
    }

    /// The machine has halted.
    fn take_halt(
        &mut self,
        machine: &LentMachine,
        cause: Cause,
    ) -> Result<Option<Ending>, AllocError> {
        let Cause::Fault(fault) = cause else {
            return Ok(Some(Ending::Left));
        };
        let mut text = Vec::new(self.alloc);
        let place = self.place(machine, b"", fault);
        self.put_described(&mut text, machine, fault, &place)?;
        self.show_line_end()?;
        self.show(text.as_slice())?;
        self.show(b": no fault thread handled it, so the Forth has stopped\n")?;
        Ok(Some(Ending::Fault))
    }

    /// Notes what is shown and on the stack before a line: EXPECT's two cells are on top.
    fn note(&mut self, machine: &LentMachine) -> Result<(), AllocError> {
        let values = machine.values();
        for place in 0..values.depth().saturating_sub(2) {
            self.typed.cells.push(values.get(place).unwrap_or(0))?;
        }
        self.typed.ends.push(self.typed.cells.len())?;
        self.typed.places.push(self.typed.shown.len())?;
        Ok(())
    }

    /// The machine asks for a line: the next one, if it is the prompt that asks.
    fn take_line(
        &mut self,
        machine: &mut LentMachine,
        most: u16,
    ) -> Result<Option<Ending>, AllocError> {
        if let Some(ending) = self.end_turn() {
            return Ok(Some(ending));
        }
        let memory = machine.memory();
        if memory.cell(SERVICE) != PROMPT || most != TYPED {
            let _ = machine.answer(Answer::InputEnd);
            return Ok(None);
        }
        if memory.cell(DP) < memory.cell(FENCE) {
            self.show_line_end()?;
            self.show(b"HERE is inside the Forth, so what is compiled now overwrites it\n")?;
            return Ok(Some(Ending::Fault));
        }
        if self.typed.places.is_empty() {
            self.fault_thread = memory.cell(FAULT);
        }
        self.note(machine)?;
        let done = self.typed.places.len().saturating_sub(1);
        let Some(line) = self.given.lines.get(done) else {
            return Ok(Some(Ending::Whole));
        };
        machine.set_cell(MARK, HOST);
        machine.set_cell(SERVICE, 0);
        let answer = Answer::Line {
            bytes: line,
            returned: true,
        };
        if machine.answer(answer).is_err() {
            let _ = machine.answer(Answer::InputEnd);
        }
        Ok(None)
    }

    /// A block that the machine asks for.
    fn give_block(
        &mut self,
        machine: &mut LentMachine,
        block: u16,
    ) -> Result<Option<Ending>, AllocError> {
        if let Some(page) = page_of(self.blocks.as_slice(), block) {
            let _ = machine.answer(Answer::ReadOk(page));
            return Ok(None);
        }
        self.refuse_block(machine, Answer::ReadFault)
    }

    /// A block of which the machine asks to keep the bytes.
    fn keep_block(
        &mut self,
        machine: &mut LentMachine,
        block: u16,
    ) -> Result<Option<Ending>, AllocError> {
        let page = machine.asked_page().copied();
        if put_page(self.blocks.as_mut_slice(), block, page) {
            let _ = machine.answer(Answer::WriteOk);
            return Ok(None);
        }
        self.refuse_block(machine, Answer::WriteFault)
    }

    /// There is no such block.
    fn refuse_block(
        &mut self,
        machine: &mut LentMachine,
        answer: Answer<'_>,
    ) -> Result<Option<Ending>, AllocError> {
        if let Some(ending) = self.end_turn() {
            return Ok(Some(ending));
        }
        match machine.answer(answer) {
            Ok(act) => match act.event {
                Event::Fault(fault) => self.take_fault(machine, fault),
                _ => Ok(None),
            },
            Err(_) => Ok(Some(Ending::Left)),
        }
    }

    /// The machine asks for a key: a service, or a program, which is given none.
    fn take_key(&mut self, machine: &mut LentMachine) -> Result<Option<Ending>, AllocError> {
        if let Some(ending) = self.end_turn() {
            return Ok(Some(ending));
        }
        let service = service_of(machine.memory().cell(SERVICE));
        if service == Service::Key {
            let _ = machine.answer(Answer::InputEnd);
            return Ok(None);
        }
        machine.set_cell(SERVICE, 0);
        let fault = self.serve(machine, service)?;
        let _ = machine.answer(Answer::Key(fault));
        Ok(None)
    }

    /// Does a service; the fault by which it is refused, or 0.
    fn serve(&mut self, machine: &mut LentMachine, service: Service) -> Result<u8, AllocError> {
        match service {
            Service::Nothing | Service::Key => Ok(0),
            Service::Word => {
                self.skip(machine, false)?;
                Ok(0)
            }
            Service::Rest => {
                self.skip(machine, true)?;
                Ok(0)
            }
            Service::Zeros => {
                machine.set_cell(FIRST, 0);
                machine.set_cell(SECOND, 0);
                Ok(0)
            }
            Service::Unclosed => {
                if let Some(begins) = machine.values().pick(0) {
                    machine.set_cell(TO_IN, begins);
                }
                Ok(17)
            }
            Service::FaultText | Service::Report => self.tell_fault(machine, service),
            Service::Refused => Ok(17),
        }
    }

    /// Takes the next word of the input, or the rest of it.
    fn skip(&mut self, machine: &mut LentMachine, is_rest: bool) -> Result<(), AllocError> {
        let page = self.page(machine)?;
        let block = machine.memory().cell(BLK);
        let count = machine.memory().cell(NUMBER_TIB);
        let end = if block == 0 { count.min(128) } else { 1024 };
        let place = self.place(machine, page.as_slice(), UNKNOWN);
        let left = if is_rest {
            0
        } else {
            place.rest.len().saturating_sub(1).min(1024)
        };
        let left = u16::try_from(left).unwrap_or(1024);
        machine.set_cell(TO_IN, end.saturating_sub(left));
        Ok(())
    }

    /// Describes or reports the fault whose number is on the stack.
    fn tell_fault(
        &mut self,
        machine: &mut LentMachine,
        service: Service,
    ) -> Result<u8, AllocError> {
        let Some(fault) = machine.values().pick(0) else {
            return Ok(1);
        };
        let mut text = Vec::new(self.alloc);
        let page = self.page(machine)?;
        let place = self.place(machine, page.as_slice(), fault);
        self.put_described(&mut text, machine, fault, &place)?;
        if service == Service::FaultText {
            text.extend_from_slice(b" ")?;
        } else {
            put_place(&mut text, self.alloc, fault, &place)?;
            if fault != SAID {
                self.show_line_end()?;
            }
        }
        self.show(text.as_slice())?;
        Ok(0)
    }

    /// One act: ticks, or an answer. How the lines ended, if they did.
    fn step(&mut self, machine: &mut LentMachine) -> Result<Option<Ending>, AllocError> {
        if let Some(cause) = machine.halted() {
            return self.take_halt(machine, cause);
        }
        match machine.asked() {
            None => self.run(machine),
            Some(Request::Line { n }) => self.take_line(machine, n),
            Some(Request::Key) => self.take_key(machine),
            Some(Request::Read { block }) => self.give_block(machine, block),
            Some(Request::Write { block }) => self.keep_block(machine, block),
        }
    }
}

/// Types lines at a machine of its own, over these blocks, in which it may write.
pub fn type_lines<'a>(
    alloc: Global,
    given: Given<'a>,
    blocks: &'a mut Vec<u8>,
) -> Result<Typed, AllocError> {
    let Ok(mut memory) = Memory::with_front(alloc, given.image.bytes()) else {
        return Err(AllocError);
    };
    let memory: &mut Memory = &mut memory;
    let mut machine = LentMachine::load(alloc, memory, given.image, BLOCK_COUNT);
    let mut sitting = Sitting {
        alloc,
        given,
        blocks,
        typed: Typed::new(alloc),
        left: given.limits.ticks,
        turn: 0,
        piece: 0,
        fault_thread: 0,
    };
    greet(&mut machine);
    let mut ending = Ending::Left;
    for _ in 0..u64::MAX {
        if let Some(found) = sitting.step(&mut machine)? {
            ending = found;
            break;
        }
    }
    let Sitting { typed, .. } = sitting;
    Ok(typed.ended(ending))
}
