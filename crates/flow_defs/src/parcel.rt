// What travels over a channel.

use crate::task::BarrierKind;
use std::collections::LinkedList;

/// What travels over a channel: the bytes of a data buffer, a barrier, or the end. Histories of a
/// channel's two ends are made of it; no value of it is made.
pub enum Parcel {
    Data(LinkedList<u8>),
    Barrier { k: u64, kind: BarrierKind },
    End,
}
