// What a channel sends.
ghost use Rattle.std.specs.Prelude.{◌≡◌, ◌≤◌, length};
ghost use Rattle.flow_defs.specs.declared.parcel.Parcel.TheVariants as parcels;
ghost use Rattle.exchange_core.specs.Lanes.{IsSent};

use credit_reader::SentKind;
use flow_defs::{BarrierKind, Bytes};
use input_channel::ArrivalKind;
use std::alloc::Global;

/// An item that was taken to be sent: its kind for the sending end, its kind for the receiving end, its
/// data, and the length of its content in a frame.
#[derive(Drop)]
pub struct Sent {
    pub(crate) kind: SentKind,
    pub(crate) what: ArrivalKind,
    pub(crate) content: Bytes,
    pub(crate) len: u32,
}

impl Sent {
    // A buffer with these data.
    pub(crate) fn data(content: Bytes) -> Sent
        requires { length content.items ≤ 65536 }
        ensures { IsSent (parcels.Data content.items) result }
    {
        let len = content.as_slice().len() as u32;
        Sent {
            kind: SentKind::Buffer,
            what: ArrivalKind::Buffer,
            content,
            len,
        }
    }

    // A barrier, whose number takes eight bytes.
    pub(crate) fn barrier(alloc: Global, k: u64, kind: BarrierKind) -> Sent
        ensures { IsSent (parcels.Barrier k kind) result }
    {
        let sent = match kind {
            BarrierKind::Inline => SentKind::Inline,
            BarrierKind::Front => SentKind::Front,
        };
        Sent {
            kind: sent,
            what: ArrivalKind::Barrier { k, kind },
            content: Bytes::new(alloc),
            len: 8,
        }
    }

    // The end.
    pub(crate) fn end(alloc: Global) -> Sent
        ensures { IsSent parcels.End result }
    {
        Sent {
            kind: SentKind::End,
            what: ArrivalKind::End,
            content: Bytes::new(alloc),
            len: 0,
        }
    }
}
