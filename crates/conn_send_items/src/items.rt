// Items as buffer responses carry them.
ghost use Rattle.std.specs.Prelude.{◌≡◌};
ghost use Rattle.subpartition.specs.Queues.{parcel_of};
ghost use Rattle.conn_send_items.specs.Items.{arrival_of, content_of, HasContent};
ghost use Rattle.conn_send_items.specs.Sending.{sent_kind};

use credit_reader::SentKind;
use flow_defs::BarrierKind;
use net_frames::ArrivalKind2;
use subpartition::Item;

/// What of an item the readers are told.
pub fn sent_kind(item: &Item) -> SentKind
    ensures { result ≡ sent_kind (parcel_of item.now) }
{
    match item {
        Item::Buffer(_) => SentKind::Buffer,
        Item::Barrier { k: _, kind } => match kind {
            BarrierKind::Inline => SentKind::Inline,
            BarrierKind::Front => SentKind::Front,
        },
        Item::End => SentKind::End,
    }
}

/// What an item is on its way.
pub fn arrival_of(item: &Item) -> ArrivalKind2
    ensures { result ≡ arrival_of item.now }
{
    match item {
        Item::Buffer(_) => ArrivalKind2::Buffer,
        Item::Barrier { k, kind } => match kind {
            BarrierKind::Inline => ArrivalKind2::Inline { k: *k },
            BarrierKind::Front => ArrivalKind2::Front { k: *k },
        },
        Item::End => ArrivalKind2::End,
    }
}

/// The content of its frame.
pub fn content_of(item: &Item) -> &[u8]
    ensures content { result.now ≡ content_of item.now }
    ensures fits { HasContent item.now }
{
    match item {
        Item::Buffer(filled) => {
            // Looked at so that its length is known to be one of segments.
            let _segment = filled.segment.bytes();
            filled.bytes()
        }
        Item::Barrier { .. } => &[],
        Item::End => &[],
    }
}
