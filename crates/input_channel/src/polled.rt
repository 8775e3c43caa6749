// What a poll answers.

use crate::held::HeldBuf;
use flow_defs::BarrierKind;

/// What a poll answers.
#[derive(Drop)]
pub enum Polled {
    Buffer(HeldBuf),
    Barrier { k: u64, kind: BarrierKind },
    End,
    /// Nothing waits.
    Empty,
    /// A barrier is due, and barriers were to be held back.
    Held,
}
