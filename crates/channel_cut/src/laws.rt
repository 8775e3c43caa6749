//! The laws of a channel that barriers cut. Each function does nothing; what it ensures is the law.
ghost use Rattle.channel_cut.specs.Cuts.{InLineHasAllBefore, CutsStay, CutOfChannel, SavesStay, CutAtSave};
ghost use Rattle.channel_cut.specs.Lanes.{ReadBegins, PolledIsLeft, LineIsGiven, LinesAreTold, PartsAreRead, InLineCuts, PollCuts};
ghost use Rattle.channel_cut.specs.Ends.{SettledAreEnds, EndsAreCut};
ghost use Rattle.channel_cut.specs.Works.{WorkedIsDid};
ghost use Rattle.channel_cut.specs.Runs.{NumbersGoOn, StartIsFrom, RanIsTold, RanIsChain, RanEndsInWorth, RanEndsInTally};

use checkpoint_laws::laws::{accounts_tell, told_images_are_a_chain};
use input_channel::laws as receiving;
use plain_machine::laws::emits_in_parts;
use subpartition::laws as sending;

/// Where a barrier was polled in line, what was put before it and was in flight before that is what was given; and
/// a cut that was shown stays. Where the channel was saved for a barrier, front or in line, it is what was given
/// before, then what was saved, and then what the barrier overtook.
pub fn channels_are_cut()
    ensures before { InLineHasAllBefore }
    ensures stay { CutsStay }
    ensures cut { CutOfChannel }
    ensures saves_stay { SavesStay }
    ensures cut_at_save { CutAtSave }
{}

/// What a gate has given of a channel, as it polls and gives, and how a barrier that it polls cuts the channel.
pub fn lanes_are_cut()
    ensures begin { ReadBegins }
    ensures polled { PolledIsLeft }
    ensures line { LineIsGiven }
    ensures lines { LinesAreTold }
    ensures parts { PartsAreRead }
    ensures cut { InLineCuts }
    ensures poll { PollCuts }
{
    receiving::histories_keep_order();
    receiving::legal_histories_agree();
}

/// Two cells that were closed are the ends of a channel, which is cut by what the passes of its two tasks tell.
pub fn ends_are_cut()
    ensures ends { SettledAreEnds }
    ensures cut { EndsAreCut }
{
    sending::allowed_histories();
    sending::histories_keep_order();
    sending::passes_tell();
    receiving::passes_tell();
}

/// What the loop of a task keeps, stretch by stretch, is its account by chapters, for a task of any kind and from
/// any image on; and the numbers of its snapshots go on from that image's.
pub fn tasks_tell_chapters()
    ensures did { WorkedIsDid }
    ensures numbers { NumbersGoOn }
{
    emits_in_parts();
}

/// The images of a run whose workers tell what they did are a chain, from any image on, with what was in flight in
/// it. A last image has in its tables what that image is worth, and from the start on the tally.
pub fn runs_are_chains()
    ensures start { StartIsFrom }
    ensures told { RanIsTold }
    ensures chain { RanIsChain }
    ensures worth { RanEndsInWorth }
    ensures tally { RanEndsInTally }
{
    accounts_tell();
    told_images_are_a_chain();
    ends_are_cut();
}
