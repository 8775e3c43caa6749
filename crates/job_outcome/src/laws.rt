//! The laws of workers that have ended. Each function does nothing; what it ensures is the law.
ghost use Rattle.job_outcome.specs.Theorems.{AreFaultless, CausesHaveGrounds, DoneCollectorHasLast, DoneWorkersHaveWorth, InputsComeBack, KeeperGotImages, StoredImagesAreChain, SureWiresHaveNoFault, WorkersEnd};
ghost use Rattle.job_outcome.specs.Words.{world_words};

use collecting_worker::laws::stored_images_are_collected;
use conn_run::laws::items_arrive;
use job_chain::laws::runs_are_chains;
use outside::{LinkIn, LinkOut, Links, Source};

/// Workers that were deployed and ran have ended, each with the passes of its place.
pub fn workers_end<S: Source, N: Links>()
    ensures { WorkersEnd (world_words S.Source N.Out.LinkOut N.In.LinkIn N.belong) }
{
    items_arrive();
}

/// The images that were stored are a chain from any image on from which the run may go on, with nothing in
/// flight, whatever the causes with which the workers ended, and the image that was handed back is the last of them.
pub fn stored_images_are_chain<S: Source, N: Links>()
    ensures { StoredImagesAreChain (world_words S.Source N.Out.LinkOut N.In.LinkIn N.belong) }
{
    stored_images_are_collected();
    runs_are_chains();
}

/// The images that the keeper told before stay, and some come behind them; its count of faults never falls.
pub fn keeper_got_images<S: Source, N: Links>()
    ensures { KeeperGotImages (world_words S.Source N.Out.LinkOut N.In.LinkIn N.belong) }
{}

/// Where all workers are done, the tables of the last image are what that image is worth over what the inputs
/// told, which is within its limits from there on.
pub fn done_workers_have_worth<S: Source, N: Links>()
    ensures { DoneWorkersHaveWorth (world_words S.Source N.Out.LinkOut N.In.LinkIn N.belong) }
{
    stored_images_are_collected();
    runs_are_chains();
}

/// A collecting worker that is done has a last image.
pub fn done_collector_has_last<S: Source, N: Links>()
    ensures { DoneCollectorHasLast (world_words S.Source N.Out.LinkOut N.In.LinkIn N.belong) }
{}

/// A cause with which a worker ended has its grounds in an input, a link, the credit of a channel, the other end
/// of a connection, the keeper or an image. Of want of memory nothing is said.
pub fn causes_have_grounds<S: Source, N: Links>()
    ensures { CausesHaveGrounds (world_words S.Source N.Out.LinkOut N.In.LinkIn N.belong) }
{
    stored_images_are_collected();
    runs_are_chains();
}

// The law of the ends of links.
fn ends_are_faultless<O: LinkOut, I: LinkIn>()
    ensures out { AreFaultless O.line O.faults O.never_fails }
    ensures input { AreFaultless I.line I.faults I.never_fails }
{}

/// Over wires of which no end is to fail, no loop of a connection has counted a fault.
pub fn sure_wires_have_no_fault<S: Source, N: Links>()
    ensures { SureWiresHaveNoFault (world_words S.Source N.Out.LinkOut N.In.LinkIn N.belong)
        N.Out.never_fails N.In.never_fails }
{
    ends_are_faultless::<N::Out, N::In>();
}

/// Each source's task hands its input back.
pub fn inputs_come_back<S: Source, N: Links>()
    ensures { InputsComeBack (world_words S.Source N.Out.LinkOut N.In.LinkIn N.belong) }
{}
