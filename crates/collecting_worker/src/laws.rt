//! What the account of the collecting worker comes to. The function does nothing; what it ensures is the law.
ghost use Rattle.collecting_worker.specs.Laws.{StoredAreCollected};

/// Each image that was stored is made of snapshots that its tasks sent, and was collected behind the one
/// before it.
pub fn stored_images_are_collected()
    ensures collected { StoredAreCollected }
{}
