// Why a function was not added.
use thiserror::Error;

/// Why a function was not added to a table, with that function.
#[derive(Drop, Error)]
#[derive_where(Debug)]
pub enum AddFault<F> {
    /// The kind has a function already.
    #[error("the kind has a function already")]
    KindTaken {
        #[derive_where(skip)]
        f: F,
    },
    /// No memory for one more.
    #[error("no memory for one more function")]
    Memory {
        #[derive_where(skip)]
        f: F,
    },
}
