// Why a message from the receiving end is refused.
use thiserror::Error;

/// Why a channel can't be requested.
#[derive(Clone, Copy, Debug, PartialEq, Eq, Error)]
pub enum RequestFault {
    #[error("no such channel")]
    UnknownChannel,
    #[error("the channel was requested before")]
    Twice,
}

/// Why a channel can't have more credit.
#[derive(Clone, Copy, Debug, PartialEq, Eq, Error)]
pub enum CreditFault {
    /// The channel was not requested.
    #[error("no such channel was requested")]
    UnknownChannel,
    /// The sum of the credit is above `CREDIT_MAX`.
    #[error("the credit would be {sum}")]
    CreditOver { sum: u64 },
}

/// Why a channel can't be resumed.
#[derive(Clone, Copy, Debug, PartialEq, Eq, Error)]
pub enum ResumeFault {
    /// The channel was not requested.
    #[error("no such channel was requested")]
    UnknownChannel,
    #[error("the channel is not blocked")]
    NotBlocked,
}
