//! The inner interpreter: runs of a machine over a reader, a writer and a device.
#![tactic(auto)]

mod byte_log;
pub mod ends;
mod event_log;
mod hosts;
pub mod laws;
mod lines;
mod machine_runs;
mod read_log;
mod reading;
mod replies;
mod rounds;
mod runs;
mod sends;
mod stop;
mod tracing;
mod writing;

pub use byte_log::ByteLog;
pub use ends::{EndFault, Input, Output};
pub use event_log::EventLog;
pub use hosts::{Move, make_moves, make_ticks};
pub use machine::{
    Act, Answer, Cause, Event, Extent, LentMachine, Machine, Refused, SaveRefused, Shown, Stretch,
};
pub use machine_runs::{run, run_traced};
pub use read_log::{Given, ReadLog};
pub use reading::Reading;
pub use replies::{answer_read, answer_write};
pub use runs::{line_room, run_with};
pub use sends::send_all;
pub use stop::Stop;
pub use tracing::{Nowhere, Tracer, Untraced};
pub use writing::Writing;
