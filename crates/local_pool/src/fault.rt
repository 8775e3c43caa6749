// Why a local pool can't be opened.
use segment_pool::PoolPass;

/// Why a local pool could not be opened. The pass comes back, and has nothing out.
#[derive(Drop)]
pub enum LocalFault {
    /// The global pool had no segment free for one of the claims: `free` of the `need` segments were
    /// there, and were given back.
    TooFew {
        need: u32,
        free: u32,
        pass: PoolPass,
    },
    /// There was no memory for the list of kept segments.
    Memory {
        pass: PoolPass,
    },
}
