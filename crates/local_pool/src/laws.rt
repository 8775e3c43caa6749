//! The laws of local pools. Each function does nothing; what it ensures is the law.
ghost use Rattle.local_pool.specs.Locals.{LocalsFit};
ghost use Rattle.local_pool.specs.Shares.{SharesFit};

/// Local pools of one pool with limits hold together no more than its limits, and these no more than
/// its total.
pub fn fit_together()
    ensures { LocalsFit }
{}

/// The limits that `share` deals out are together no more than the total, and each lies between what its
/// pool needs and what it may have at most.
pub fn shares_fit()
    ensures { SharesFit }
{}
