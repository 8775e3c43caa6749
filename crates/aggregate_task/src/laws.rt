//! What the account of an aggregate task comes to. The function does nothing; what it ensures is the law.
ghost use Rattle.aggregate_task.specs.Accounts.{AggregateHasAccount};

/// The account of an aggregate task is one of chapters, whatever its cause.
pub fn aggregates_have_accounts()
    ensures account { AggregateHasAccount }
{}
