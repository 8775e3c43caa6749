// What a one-way link in memory carries: the bytes that were written and not read yet.
ghost use Rattle.std.specs.Prelude.{◌≡◌, ◌-◌, ◌==◌, ◌++◌, [], ◌∷◌, min, length, take, IfOk};
ghost use Rattle.outside.specs.declared.ring.LinkEntry.TheVariants.{Wrote, Read, Finished};
ghost use Rattle.outside.specs.Rings.{Carries};

use crate::waiting::Waiting;
use std::alloc::{AllocError, Global};
use std::collections::LinkedList;
use std::marker::Brand;
use turn_cell::{Named, Turned};

/// How many bytes a link in memory holds.
pub const LINK_ROOM: usize = 131_072;

/// What one turn does to a link in memory. Histories are made of it; no value of it is made.
pub enum LinkEntry {
    /// These bytes were written.
    Wrote(LinkedList<u8>),
    /// These bytes were read.
    Read(LinkedList<u8>),
    /// Nothing more is written.
    Finished,
}

/// The bytes on their way, and whether no more come. Nothing but `new` takes memory.
#[derive(Drop)]
pub struct Ring {
    bytes: Waiting,
    finished: bool,
}

impl Turned for Ring {
    type Entry = LinkEntry;

    type Fixed = ();

    ghost stands = { λ ring history. Carries ring history };

    ghost fixed = { λ _. tt };
}

impl Named<LinkEntry> for Brand {
    ghost use Rattle.outside.specs.declared.ring.LinkEntry.TheVariants.{Finished};

    ghost entry = { Finished };
}

impl Ring {
    /// A ring with no bytes.
    pub(crate) fn new(alloc: Global) -> Result<Self, AllocError>
        ensures { IfOk result (λ ring. Carries ring []) }
    {
        Ok(Ring {
            bytes: Waiting::new(alloc)?,
            finished: false,
        })
    }

    /// How many more bytes fit.
    pub(crate) fn spare(&self) -> usize
        ensures { result ≡ LINK_ROOM - length self.now.bytes }
    {
        LINK_ROOM - self.bytes.len()
    }

    /// Whether there are no bytes.
    pub(crate) fn is_empty(&self) -> bool
        ensures { result ≡ (length self.now.bytes == 0) }
    {
        self.bytes.is_empty()
    }

    /// Whether no more bytes come.
    pub(crate) fn is_finished(&self) -> bool
        ensures { result ≡ self.now.finished }
    {
        self.finished
    }

    /// Adds a front of these bytes, as many as fit.
    pub(crate) fn add(&mut self, bytes: &[u8]) -> usize
        ensures count { result ≡ min (length bytes.now) (LINK_ROOM - length self.old.bytes) }
        ensures wrote { (history : _) (number : _) → number ≡ 0 → Carries self.old history → Carries self.new (history ++ (number, Wrote (take result bytes.now)) ∷ []) }
    {
        self.bytes.add(bytes)
    }

    /// Moves the first bytes into `room`, as many as it holds.
    pub(crate) fn take(&mut self, room: &mut [u8]) -> usize
        ensures count { result ≡ min (length room.old) (length self.old.bytes) }
        ensures read { (history : _) (number : _) → number ≡ 1 → Carries self.old history → Carries self.new (history ++ (number, Read (take result room.new)) ∷ []) }
    {
        self.bytes.take(room)
    }

    /// Says that no more bytes come.
    pub(crate) fn finish(&mut self)
        ensures { (history : _) (number : _) → number ≡ 0 → Carries self.old history → Carries self.new (history ++ (number, Finished) ∷ []) }
    {
        self.finished = true;
    }
}
