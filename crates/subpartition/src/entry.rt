// What is done to a subpartition.

use std::collections::LinkedList;

/// What one turn does to a subpartition. Histories are made of it; no value of it is made.
pub enum SendEntry {
    /// A buffer was put, with these bytes.
    Put(LinkedList<u8>),
    /// A barrier of this number was put in line.
    PutInline(u64),
    /// A barrier of this number was put in front of the data behind the last barrier.
    PutFront(u64),
    /// The end was put.
    Finish,
    /// The first item was taken, where there was one.
    Take,
    /// From now on buffers are filled up to so many bytes.
    Size(u32),
}
