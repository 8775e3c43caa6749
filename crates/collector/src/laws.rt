//! A law of images that are made of snapshots. The function does nothing; what it ensures is the law.
ghost use Rattle.collector.specs.Images.{SnapshotsMakeFitting};

/// An image of snapshots that fit their tasks fits the job, where what is saved are records.
pub fn snapshots_make_fitting()
    ensures { SnapshotsMakeFitting }
{
    plain_machine::laws::places_are_in_order();
}
