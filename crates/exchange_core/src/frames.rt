// What is on the way between the two ends.
// The frames lie in queues that grow, so a step that sends can want memory.

use flow_defs::Bytes;
use input_channel::ArrivalKind;

/// A frame of the sending end: what a channel sent, with its content, or the backlog of one.
#[derive(Drop)]
pub enum DataFrame {
    Response {
        c: u32,
        sequence: u32,
        backlog: u32,
        what: ArrivalKind,
        content: Bytes,
    },
    Announcement {
        c: u32,
        n: u32,
    },
}

/// A frame of the receiving end.
#[derive(Clone, Copy)]
pub enum ControlFrame {
    AddCredit { c: u32, n: u32 },
    Resumption { c: u32 },
}
