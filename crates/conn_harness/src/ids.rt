// The channels of a connection.
ghost use Rattle.std.specs.Prelude.{◌≡◌, IfOk};
ghost use Rattle.conn_harness.specs.Ids.{ids};

use flow_defs::{ChannelId, ListOf};
use std::alloc::{AllocError, Global};

/// The ids of so many channels, each from a sender of its own, to one receiver.
#[tactic(auto, using(crate::proofs::IdLaws::ids_more))]
pub fn ids_of(alloc: Global, channels: u32) -> Result<ListOf<ChannelId>, AllocError>
    ensures { IfOk result (λ found. found.items ≡ ids channels) }
{
    let mut found = ListOf::new(alloc);
    for from in 0..channels {
        found.push(ChannelId {
            edge: 0,
            from,
            to: 0,
        })?;
    }
    Ok(found)
}
