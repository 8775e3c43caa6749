//! The law of edges that were settled. It does nothing; what it ensures is the law.
ghost use Rattle.job_ends.specs.Edges.{EdgesCarry};

use channel_cut::laws::ends_are_cut;
use input_channel::laws::channels_stand_for_histories;
use job_cells::laws::places_agree;

/// The cells of each channel of an edge that was settled at both ends were closed.
pub fn edges_carry()
    ensures { EdgesCarry }
{
    ends_are_cut();
    channels_stand_for_histories();
    places_agree();
}
