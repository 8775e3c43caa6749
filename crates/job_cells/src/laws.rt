//! The laws of the places of channels. A function here does nothing; what it ensures is the law.
ghost use Rattle.job_cells.specs.Places.{ChannelsHavePlaces, GatesHaveChannels};

/// A sending task and a gate count their channels from both ends to the same places, and what a gate counts
/// are channels of the job.
pub fn places_agree()
    ensures channels { ChannelsHavePlaces }
    ensures gates { GatesHaveChannels }
{}
