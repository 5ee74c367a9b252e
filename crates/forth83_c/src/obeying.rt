//! A request of a server's host, and the machine that is kept.

ghost use Rattle.std.specs.Prelude.{◌≡◌, ◌≢◌, ◌≤◌, [], Some, true, length};
ghost use Rattle.serving.specs.Requests.{wish_of, wished};
ghost use Rattle.serving.specs.Room.{may_move, move_room};
ghost use Rattle.serving.specs.Served.{MayObey};
ghost use Rattle.forth83_c.specs.declared.status.Status.TheVariants as status;
ghost use Rattle.forth83_c.specs.Replied.{HasReplied, TellsReplied};

use crate::kept::{keep, rest_of};
use crate::lent::obey_lent;
use crate::no_blocks::NoBlocks;
use crate::record::Forth83;
use crate::replies::Replies;
use crate::status::Status;
use inner_interpreter::LentMachine;
use name_index::NameIndex;
use serving::{Command, command_of, obey_in_place};
use std::alloc::Global;

/// Obeys a request over no blocks.
pub fn obey(
    alloc: Global,
    machine: &mut LentMachine,
    command: Command<'_>,
    replies: &mut Replies<'_>,
)
    requires { replies.old.taken.bytes ≡ [] }
    ensures stays { machine.new.parts.place ≡ machine.old.parts.place }
    ensures same { replies.new.room.ghost_name ≡ replies.old.room.ghost_name }
    ensures before { replies.new.before.bytes ≡ replies.old.before.bytes }
    ensures obeyed { MayObey 0 (wish_of command.entry) true machine.old machine.new [] [] (Some []) (Some replies.new.taken.bytes) }
    ensures room { may_move (wish_of command.entry) ≡ true → length replies.new.taken.bytes ≤ move_room }
{
    let mut device = NoBlocks::new();
    match obey_in_place(alloc, machine, &mut device, 0, command, replies) {
        Ok(()) => {}
        Err(_) => unreachable!(),
    }
}

/// Obeys the request that a frame spells, by the machine of a record.
pub fn serve(
    alloc: Global,
    kept: &mut Forth83,
    kind: u8,
    body: &[u8],
    room: &mut [u8],
    size: &mut usize,
) -> Status
    ensures replied { result ≢ status.NoMachine → HasReplied kept.old kept.new (wished kind body.now) room.old room.new size.new }
    ensures told { TellsReplied size.new (length room.new) kept.old result }
    ensures room { result ≢ status.NoMachine → may_move (wished kind body.now) ≡ true → size.new ≤ move_room }
    ensures stays { result ≡ status.NoMachine → kept.new ≡ kept.old }
    ensures silent { result ≡ status.NoMachine → room.new ≡ room.old }
    ensures untold { result ≡ status.NoMachine → size.new ≡ size.old }
{
    let Some(rest) = rest_of(kept) else {
        return Status::NoMachine;
    };
    let index = NameIndex::new(alloc);
    let command = command_of(kind, body);
    let mut left = None;
    let obeyed = obey_lent(
        alloc,
        &mut kept.memory,
        rest,
        &mut left,
        index,
        command,
        room,
    );
    let replied = obeyed.size;
    keep(left.unwrap(), kept);
    *size = replied;
    if room.len() < replied {
        return Status::LongReply;
    }
    Status::Done
}
