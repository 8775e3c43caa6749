//! The laws of alignment. Each function does nothing; what it ensures is the law.
ghost use Rattle.barriers.specs.Laws.{NumbersCountUp, SnapshotsWithLast, SnapshotsAtFirstFront, NothingBehindFront, SavesFollowBarriers, DoneWithLast};

/// What an aligner tells of the barriers that came: each channel has given barriers 1, 2 and so on, and
/// a task snapshots for checkpoint k exactly where all its channels have given barriers 1 to k, or at the
/// first one of them that is a front barrier.
pub fn alignment_counts_barriers()
    ensures numbers { NumbersCountUp }
    ensures snapshots { SnapshotsWithLast }
    ensures front { SnapshotsAtFirstFront }
    ensures behind { NothingBehindFront }
{}

/// What it tells of the channels saved: each has given the barrier before, and the checkpoint is done with the
/// last of them.
pub fn alignment_counts_saves()
    ensures behind { SavesFollowBarriers }
    ensures done { DoneWithLast }
{}
