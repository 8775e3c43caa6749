// A gate of the tests, that gives the items of a list.
ghost use Rattle.std.specs.Prelude.{◌≡◌, ◌-◌, ◌<◌, ◌≤◌, ◌++◌, true, false, [], ◌∷◌, IfOk};
ghost use Rattle.gate_account.specs.Accounts.{inlines};
ghost use Rattle.task_taking.specs.Samples.{account_of, barriers_by, resumed_by};

use flow_defs::{BarrierKind, Bytes, ListOf, RECORD_MAX};
use input_gate::{Gate, GateEnd, GateItem};
use std::alloc::{AllocError, Global};
use std::sync::Wait;

// A gate of two channels that gives these items, the last one first, and then tells that all channels have
// ended. At an item that a gate may not give then, it tells that it was stopped.
#[derive(Drop)]
pub struct ListGate {
    alloc: Global,
    items: ListOf<GateItem>,
    pub given: ListOf<GateItem>,
    // How often each channel was resumed.
    pub first: u64,
    pub second: u64,
    pub over: bool,
}

impl Gate for ListGate {
    type Ends = u64;

    ghost ends = { λ _. 0 };

    ghost account = { λ s. account_of s.given.items s.first s.second s.over };

    ghost shows = { λ _ _ _. Unit {0} };

    ghost saw_stop = { λ _. Unit {0} };

    fn next<R: Wait>(&mut self, _rt: &R, hold: bool) -> Result<GateItem, GateEnd> {
        match self.given.reserve(1) {
            Ok(()) => {}
            Err(_) => return Err(GateEnd::Memory),
        }
        match self.items.pop() {
            None => {
                self.over = true;
                Ok(GateItem::AllEnded)
            }
            Some(GateItem::Line { channel, line }) => {
                if line.as_slice().len() > RECORD_MAX {
                    return Err(GateEnd::Stopped);
                }
                if !is_free(self.given.as_slice(), self.first, self.second, channel) {
                    return Err(GateEnd::Stopped);
                }
                match Bytes::of(self.alloc, line.as_slice()) {
                    Ok(copy) => {
                        push_item(
                            &mut self.given,
                            GateItem::Line {
                                channel,
                                line: copy,
                            },
                        );
                        Ok(GateItem::Line { channel, line })
                    }
                    Err(_) => Err(GateEnd::Memory),
                }
            }
            Some(GateItem::Barrier { channel, k, .. }) => {
                if k == 0 || k - 1 != stops(self.given.as_slice(), channel) {
                    return Err(GateEnd::Stopped);
                }
                if !is_free(self.given.as_slice(), self.first, self.second, channel) {
                    return Err(GateEnd::Stopped);
                }
                if is_held(self.given.as_slice(), channel, k, hold) {
                    return Err(GateEnd::Stopped);
                }
                push_item(
                    &mut self.given,
                    GateItem::Barrier {
                        channel,
                        k,
                        kind: BarrierKind::Inline,
                    },
                );
                Ok(GateItem::Barrier {
                    channel,
                    k,
                    kind: BarrierKind::Inline,
                })
            }
            Some(GateItem::AllEnded) => Err(GateEnd::Stopped),
        }
    }

    fn resume<R: Wait>(&mut self, _rt: &R, channel: u32) {
        let given = stops(self.given.as_slice(), channel);
        if channel == 0 {
            self.first = given;
        } else {
            self.second = given;
        }
    }
}

// How many barriers of a channel are among these.
fn stops(given: &[GateItem], channel: u32) -> u64
    ensures { result ≡ inlines (barriers_by given.now channel) }
{
    let mut count = 0;
    for item in given {
        count += weight(item, channel);
    }
    count
}

// 1 for a barrier of the channel, and 0 for any other item.
fn weight(item: &GateItem, channel: u32) -> u64
    ensures is { result ≡ inlines (barriers_by (item.now ∷ []) channel) }
    ensures small { result ≤ 1 }
{
    match item {
        GateItem::Barrier { channel: of, .. } => { if *of == channel { 1 } else { 0 } }
        GateItem::Line { .. } => 0,
        GateItem::AllEnded => 0,
    }
}

// Whether a channel may give something.
fn is_free(given: &[GateItem], first: u64, second: u64, channel: u32) -> bool
    ensures { result ≡ true → (channel < 2) × (inlines (barriers_by given.now channel) ≡ resumed_by first second channel) }
{
    if channel == 0 {
        return stops(given, channel) == first;
    }
    if channel == 1 {
        return stops(given, channel) == second;
    }
    false
}

// Whether a channel's barrier of this number is held back, as the other channel has given fewer.
fn is_held(given: &[GateItem], channel: u32, k: u64, hold: bool) -> bool
    requires { channel < 2 }
    ensures { result ≡ false → hold ≡ true → k ≤ inlines (barriers_by given.now (1 - channel)) }
{
    hold && k > stops(given, 1 - channel)
}

// Adds an item, for which there is room.
fn push_item(given: &mut ListOf<GateItem>, item: GateItem)
    requires { 0 < given.old.room }
    ensures { given.new.items ≡ given.old.items ++ item ∷ [] }
{
    let Ok(()) = given.push(item) else {
        unreachable!()
    };
}

// What a channel gives: a line, or the barrier of this number.
#[derive(Clone, Copy)]
pub enum Piece {
    Text(&'static str),
    Stop(u64),
}

// A gate that gives these pieces of channels 0 and 1, in this order.
pub fn gate_of(alloc: Global, pieces: &[(u32, Piece)]) -> Result<ListGate, AllocError>
    ensures { IfOk result (λ gate. (gate.given.items ≡ []) × (gate.first ≡ 0) × (gate.second ≡ 0) × (gate.over ≡ false)) }
{
    let mut items = ListOf::new(alloc);
    for (channel, piece) in pieces.iter().rev() {
        let channel = *channel;
        let item = match piece {
            Piece::Text(text) => GateItem::Line {
                channel,
                line: Bytes::of(alloc, text.as_bytes())?,
            },
            Piece::Stop(k) => GateItem::Barrier {
                channel,
                k: *k,
                kind: BarrierKind::Inline,
            },
        };
        items.push(item)?;
    }
    Ok(ListGate {
        alloc,
        items,
        given: ListOf::new(alloc),
        first: 0,
        second: 0,
        over: false,
    })
}
