// Where a channel's cells stand.
ghost use Rattle.std.specs.Prelude.{◌≡◌, ◌<◌, ◌≢◌, length, slice_get, Some, IfSome, IfNone, ℕ};

use flow_defs::ChannelId;

/// The place of a channel among those of a connection, by a walk of these. In a job they are 64 at most.
pub fn place_of(channels: &[ChannelId], channel: ChannelId) -> Option<usize>
    ensures found { IfSome result (λ place. (place < length channels.now) × (slice_get channels.now place ≡ Some channel)) }
    ensures none { IfNone result ((place : ℕ) → slice_get channels.now place ≢ Some channel) }
{
    channels.iter().position(|c| *c == channel)
}
