//! Why a run stopped.

/// Why a run stopped.
#[derive(Clone, Copy, Debug, PartialEq, Eq)]
pub enum Stop {
    Bye,
    InputEnded,
    InputFault,
    Fault(u16),
    /// All ticks that were allowed are done.
    Limit,
    OutputFault,
    /// A line of the trace can't be written; a run that isn't traced never stops so.
    TraceFault,
}
