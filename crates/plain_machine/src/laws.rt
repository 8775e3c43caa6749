//! The laws of the plain machine. Each function does nothing; what it ensures is the law.
ghost use Rattle.plain_machine.specs.Theorems.{
  SpansAreRecords,
  FrontIsRecords,
  CutBetween,
  NoStageLengthens,
  FoldIsCommutative,
  FoldIsAssociative,
  ZeroIsNeutral,
  EmittedInParts,
  CountedInParts,
  EmittedAreShort,
  TallyThroughStages,
  AddedInParts,
  AddedInAnyOrder,
  SuccessorKeepsWorth,
  StartIsWorthTally,
  SameCutSameWorth,
  ChainKeepsWorth,
  ChainIsWorthTally,
  ChainEndsInWorth,
  ChainEndsInTally,
  ChainGoesOn,
  StepsMakeChain,
  StartExists,
  StartIsStart,
  TakesAreWoven,
  RunsAreSteps,
  WholeRunGivesTally,
  RecordedIsSuccessor,
  SendersStandInOrder,
  ReceiversStandInOrder,
  ChannelsStandInOrder,
  ChannelsFillEdges,
};

/// Records are read back from their encodings, whole ones and those behind a front of others. Cuts of
/// a channel that both reckon from one base give the cut between them.
pub fn encodings_give_records()
    ensures records { SpansAreRecords }
    ensures front { FrontIsRecords }
    ensures between { CutBetween }
{}

/// What a stage gives for a record is no longer than the record, so all records are as short as the lines.
pub fn no_stage_lengthens()
    ensures short { NoStageLengthens }
{}

/// The values of a key may be folded in any order and grouping, from 0 on.
pub fn folds_in_any_order()
    ensures commutative { FoldIsCommutative }
    ensures associative { FoldIsAssociative }
    ensures neutral { ZeroIsNeutral }
{}

/// A task may emit its records in parts.
pub fn emits_in_parts()
    ensures records { EmittedInParts }
    ensures count { CountedInParts }
    ensures short { EmittedAreShort }
{}

/// The tally is that of one pass through all stages, and its table may be filled in parts, and
/// with values in any order.
pub fn tally_in_parts()
    ensures stages { TallyThroughStages }
    ensures added { AddedInParts }
    ensures any_order { AddedInAnyOrder }
{}

/// A successor is worth what the cut before it is, and the start is worth the tally of all lines.
pub fn successor_keeps_worth()
    ensures kept { SuccessorKeepsWorth }
    ensures start { StartIsWorthTally }
    ensures same { SameCutSameWorth }
{}

/// All images of a chain are worth what its base is, and from the start on the tally. A last image has
/// this in its tables.
pub fn chain_keeps_worth()
    ensures kept { ChainKeepsWorth }
    ensures tally { ChainIsWorthTally }
    ensures last { ChainEndsInWorth }
    ensures last_tally { ChainEndsInTally }
{}

/// A chain is made image by image, or of all its steps at once.
pub fn steps_make_chain()
    ensures goes_on { ChainGoesOn }
    ensures steps { StepsMakeChain }
{}

/// A job has an image before the first, and it stands where nothing is done.
pub fn start_exists()
    ensures exists { StartExists }
    ensures cut { StartIsStart }
{}

/// What a task took is woven by its takes, so what all tasks did is a step of the machine. A run to the
/// end of all lines that leaves nothing in flight gives the tally.
pub fn runs_are_steps()
    ensures task { TakesAreWoven }
    ensures all { RunsAreSteps }
    ensures whole { WholeRunGivesTally }
{}

/// Where the cut of each channel holds, in bytes, an image is the successor of the one before it.
pub fn recorded_is_successor()
    ensures successor { RecordedIsSuccessor }
{}

/// Tasks and channels stand in the lists of an image at their places.
pub fn places_are_in_order()
    ensures senders { SendersStandInOrder }
    ensures receivers { ReceiversStandInOrder }
    ensures channels { ChannelsStandInOrder }
    ensures width { ChannelsFillEdges }
{}
