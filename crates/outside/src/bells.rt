// What wakes the two ends of a link in memory.

use std::thread::Parker;

/// The bells of a link in memory. Each end waits for its own and rings the other's.
#[derive(Drop)]
pub struct Bells {
    /// For the end that reads: bytes came, or no more come.
    pub(crate) reader: Parker,
    /// For the end that writes: there is room.
    pub(crate) writer: Parker,
}

impl Bells {
    pub(crate) fn new() -> Self {
        Bells {
            reader: Parker::new(),
            writer: Parker::new(),
        }
    }
}
