//! The laws of checkpoints. Each function does nothing; what it ensures is the law.
ghost use Rattle.checkpoint_laws.specs.Growing.{
  DataGrowStretch,
  BarrierBeginsStretch,
  EndAddsNothing,
  AccountBegins,
  BufferIsPut,
  BarrierIsPut,
  EndIsPut,
  SnapshotIsSent,
  MoreIsEmitted,
  OneIsTaken,
};
ghost use Rattle.checkpoint_laws.specs.Theorems.{StretchesAreRecords, SnapshotEndsChapter, ToldIsChain, ToldEndsInWorth, ToldEndsInTally};

use plain_machine::laws::{
    chain_keeps_worth, emits_in_parts, encodings_give_records, recorded_is_successor, start_exists,
    steps_make_chain,
};

/// The images of a run that is told by its workers are a chain, for every cause with which it ended. A
/// last image has in its tables what the base is worth, and from the start on the tally.
pub fn told_images_are_a_chain()
    ensures chain { ToldIsChain }
    ensures worth { ToldEndsInWorth }
    ensures tally { ToldEndsInTally }
{
    encodings_give_records();
    recorded_is_successor();
    steps_make_chain();
    start_exists();
    chain_keeps_worth();
}

/// What the accounts of tasks say: what was put before the barriers of snapshots are records, and the
/// snapshots of an image end the chapters of its number.
pub fn accounts_tell()
    ensures records { StretchesAreRecords }
    ensures snapshots { SnapshotEndsChapter }
{}

/// How the stretches of a channel grow by what is put behind them.
pub fn stretches_grow()
    ensures data { DataGrowStretch }
    ensures barrier { BarrierBeginsStretch }
    ensures end { EndAddsNothing }
{}

/// How the account of a task grows by what it puts and by the snapshots that it sends.
pub fn accounts_grow()
    ensures begin { AccountBegins }
    ensures buffer { BufferIsPut }
    ensures barrier { BarrierIsPut }
    ensures end { EndIsPut }
    ensures snapshot { SnapshotIsSent }
{}

/// How the chapter grows in which a task is, by what it emits and takes.
pub fn chapters_grow()
    ensures emitted { MoreIsEmitted }
    ensures taken { OneIsTaken }
{
    emits_in_parts();
}
