// Links, over which the bytes of a connection go, and their ends.
ghost use Rattle.std.specs.Prelude.{◌≡◌, ◌+◌, ◌-◌, ◌<◌, ◌≤◌, ◌++◌, [], ◌∷◌, ℕ, Bool, true, false, List, Option, Some, Ok, Err, length, take, IfOk, IfSome, OnOk, OnErr};
ghost use Rattle.outside.specs.Faults.{HasRisen};
ghost use Rattle.outside.specs.Links.{IsUnfinished, Appended};

use crate::Failed;
use std::alloc::{AllocError, Global};
use std::sync::Wait;
use thiserror::Error;

/// The end of a one-way link to which bytes are written.
pub trait LinkOut {
    /// What names the link.
    type Line;

    ghost line: { Self → Self.Line };

    /// The bytes that were sent, where they are told.
    ghost sent: { Self → Option (List ℕ) };

    /// Whether it was finished, where that is told.
    ghost finished: { Self → Option Bool };

    /// How often a write has failed or took nothing.
    ghost faults: { Self → ℕ };

    /// That no write of this end is to fail.
    ghost never_fails: { Self → Type 0 };

    /// Sends a front of `bytes`, and answers how many bytes that is. It waits while the link is full. An
    /// answer of 0 is itself counted as a fault.
    fn write<R: Wait>(&mut self, rt: &R, bytes: &[u8]) -> Result<usize, Failed>
        requires some { 0 < length bytes.now }
        requires unfinished { IsUnfinished (finished self.old) }
        ensures count { IfOk result (λ n. n ≤ length bytes.now) }
        ensures told { IfOk result (λ n. Appended (sent self.old) (sent self.new) (take n bytes.now)) }
        ensures kept { OnErr result (sent self.new ≡ sent self.old) }
        ensures unfinished { finished self.new ≡ finished self.old }
        ensures line { line self.new ≡ line self.old }
        ensures never_falls { faults self.old ≤ faults self.new }
        ensures failed { OnErr result (HasRisen (faults self.old) (faults self.new)) }
        ensures nothing { IfOk result (λ n. n ≡ 0 → HasRisen (faults self.old) (faults self.new)) };

    /// Says that nothing more is sent. The other end reads 0 once all is read.
    fn finish<R: Wait>(&mut self, rt: &R)
        ensures sent { sent self.new ≡ sent self.old }
        ensures finished { IfSome (finished self.old) (λ _. finished self.new ≡ Some true) }
        ensures line { line self.new ≡ line self.old }
        ensures never_falls { faults self.old ≤ faults self.new };

    /// Where an end never fails, none of its link has counted a fault, whatever was written since.
    ghost is_faultless: { (old new : Self) → never_fails old → line new ≡ line old → faults new ≡ 0 };
}

/// The end of a one-way link from which bytes are read.
pub trait LinkIn {
    /// What names the link.
    type Line;

    ghost line: { Self → Self.Line };

    /// The bytes that were got, where they are told.
    ghost got: { Self → Option (List ℕ) };

    /// Whether a read has answered 0, where that is told.
    ghost ended: { Self → Option Bool };

    /// How often a read has failed.
    ghost faults: { Self → ℕ };

    /// That no read of this end is to fail.
    ghost never_fails: { Self → Type 0 };

    /// Fills a front of `room`, and answers how many bytes that is. It waits while there are none. 0 is
    /// the end.
    fn read<R: Wait>(&mut self, rt: &R, room: &mut [u8]) -> Result<usize, Failed>
        requires { 0 < length room.old }
        ensures count { IfOk result (λ n. n ≤ length room.old) }
        ensures told { IfOk result (λ n. Appended (got self.old) (got self.new) (take n room.new)) }
        ensures kept { OnErr result (got self.new ≡ got self.old) }
        ensures end { IfOk result (λ n. n ≡ 0 → IfSome (ended self.old) (λ _. ended self.new ≡ Some true)) }
        ensures not_end { IfOk result (λ n. 0 < n → ended self.new ≡ ended self.old) }
        ensures no_end { OnErr result (ended self.new ≡ ended self.old) }
        ensures line { line self.new ≡ line self.old }
        ensures never_falls { faults self.old ≤ faults self.new }
        ensures failed { OnErr result (HasRisen (faults self.old) (faults self.new)) };

    /// Where an end never fails, none of its link has counted a fault, whatever was read since.
    ghost is_faultless: { (old new : Self) → never_fails old → line new ≡ line old → faults new ≡ 0 };
}
