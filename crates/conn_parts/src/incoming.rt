// Bytes that came over a link.
ghost use Rattle.std.specs.Prelude.{◌≡◌, ◌⊎◌, ◌+◌, ◌-◌, ◌<◌, ◌≤◌, [], length, take, drop, IfOk, IfSome, Some, true, OnErr};
ghost use Rattle.net_frames.specs.Limits.{frame_max};
ghost use Rattle.outside.specs.Faults.{HasRisen};
ghost use Rattle.outside.specs.Links.{Appended};
ghost use Rattle.conn_parts.specs.declared.incoming.TheConstants.{READ_LEAST};
ghost use Rattle.conn_parts.specs.Coming.{Came, CameOn, filled};

use net_frames::LEN_MAX;
use outside::{Failed, LinkIn};
use std::alloc::{AllocError, Global};
use std::marker::Model;
use std::sync::Wait;

// How many bytes it has room for: a frame of the greatest length that is not whole yet, and a large read.
const IN_ROOM: usize = LEN_MAX as usize + 65_536;

// A read is given no less room than this.
const READ_LEAST: usize = 32_768;

/// Bytes that came and are not used yet. After `new` nothing takes memory.
#[derive(Drop)]
pub struct Incoming {
    // All of the room, of which a part is filled.
    bytes: Vec<u8>,
    from: usize,
    to: usize,
}

impl Model for Incoming {
    ghost use Rattle.std.specs.Prelude.{◌≡◌, ◌≤◌, ℕ, List, length};
    ghost use Rattle.std.specs.Coded.{coded_ℕ, coded_list};
    ghost use Rattle.conn_parts.specs.declared.incoming.TheConstants.{IN_ROOM};
    ghost use Rattle.conn_parts.specs.Coming.{filled};

    ghost Value = { List ℕ };

    ghost coded = { coded_list coded_ℕ };

    ghost view = { λ i. filled i.from i.to i.bytes.items };

    ghost invariant = { λ i. (i.from ≤ i.to) × (i.to ≤ length i.bytes.items) × (length i.bytes.items ≡ IN_ROOM) };
}

impl Incoming {
    /// Nothing came yet.
    pub fn new(alloc: Global) -> Result<Self, AllocError>
        ensures { IfOk result (λ incoming. incoming ≡ []) }
    {
        Ok(Incoming {
            bytes: vec![in alloc; 0; IN_ROOM]?,
            from: 0,
            to: 0,
        })
    }

    /// The bytes that are not used yet.
    pub fn bytes(&self) -> &[u8]
        ensures { result.now ≡ self.now }
    {
        &self.bytes[self.from..self.to]
    }

    /// Takes so many bytes off the front.
    pub fn consume(&mut self, count: usize)
        requires { count ≤ length self.old }
        ensures { self.new ≡ drop count self.old }
    {
        self.from += count;
    }

    /// Reads once more. It waits while nothing comes. An answer of 0 is the end.
    pub fn read_from<I: LinkIn, R: Wait>(&mut self, rt: &R, input: &mut I) -> Result<usize, Failed>
        requires { length self.old < frame_max }
        ensures came { IfOk result (λ n. CameOn (I.got input.old) (I.got input.new) self.old self.new n) }
        ensures kept { OnErr result ((self.new ≡ self.old) × (I.got input.new ≡ I.got input.old)) }
        ensures end { IfOk result (λ n. n ≡ 0 → IfSome (I.ended input.old) (λ _. I.ended input.new ≡ Some true)) }
        ensures not_end { IfOk result (λ n. 0 < n → I.ended input.new ≡ I.ended input.old) }
        ensures line { I.line input.new ≡ I.line input.old }
        ensures never_falls { I.faults input.old ≤ I.faults input.new }
        ensures failed { OnErr result (HasRisen (I.faults input.old) (I.faults input.new)) }
    {
        let (from, to) = make_room(&mut self.bytes, self.from, self.to);
        self.from = from;
        self.to = to;
        let count = read_behind(rt, input, &mut self.bytes, to)?;
        self.to = to + count;
        Ok(count)
    }
}

// Moves the filled part of the bytes to the front where little room is left behind it, and answers where it
// stands then.
fn make_room(bytes: &mut [u8], from: usize, to: usize) -> (usize, usize)
    requires within { (from ≤ to) × (to ≤ length bytes.old) }
    ensures filled { filled result.0 result.1 bytes.new ≡ filled from to bytes.old }
    ensures within { (result.0 ≤ result.1) × (result.1 ≤ length bytes.new) }
    ensures same_len { length bytes.new ≡ length bytes.old }
    ensures room { to - from + READ_LEAST ≤ length bytes.old → result.1 + READ_LEAST ≤ length bytes.new }
{
    if from == to {
        return (0, 0);
    }
    if bytes.len() - to >= READ_LEAST {
        return (from, to);
    }
    bytes.copy_within(from..to, 0);
    (0, to - from)
}

// Reads into the bytes from a place on. Those before it stay.
fn read_behind<I: LinkIn, R: Wait>(
    rt: &R,
    input: &mut I,
    bytes: &mut [u8],
    to: usize,
) -> Result<usize, Failed>
    requires { to < length bytes.old }
    ensures stay { take to bytes.new ≡ take to bytes.old }
    ensures same_len { length bytes.new ≡ length bytes.old }
    ensures count { IfOk result (λ n. to + n ≤ length bytes.new) }
    ensures told { IfOk result (λ n. Appended (I.got input.old) (I.got input.new) (take n (drop to bytes.new))) }
    ensures kept { OnErr result (I.got input.new ≡ I.got input.old) }
    ensures end { IfOk result (λ n. n ≡ 0 → IfSome (I.ended input.old) (λ _. I.ended input.new ≡ Some true)) }
    ensures not_end { IfOk result (λ n. 0 < n → I.ended input.new ≡ I.ended input.old) }
    ensures line { I.line input.new ≡ I.line input.old }
    ensures never_falls { I.faults input.old ≤ I.faults input.new }
    ensures failed { OnErr result (HasRisen (I.faults input.old) (I.faults input.new)) }
{
    input.read(rt, &mut bytes[to..])
}

/// Reads on to the end or to a failed read, and drops what comes. It takes no memory.
pub fn drain<I: LinkIn, R: Wait>(rt: &R, input: &mut I)
    ensures came { Came (I.got input.old) (I.got input.new) }
    ensures end { IfSome (I.ended input.old) (λ _. I.ended input.new ≡ Some true) ⊎ HasRisen (I.faults input.old) (I.faults input.new) }
    ensures line { I.line input.new ≡ I.line input.old }
    ensures never_falls { I.faults input.old ≤ I.faults input.new }
{
    let mut room = [0u8; 4096];
    for _read in rt.forever() {
        match input.read(rt, &mut room) {
            Ok(count) => {
                if count == 0 {
                    return;
                }
            }
            Err(_) => return,
        }
    }
    unreachable!()
}
