// The channels of a writer, in their order.
ghost use Rattle.std.specs.Prelude.{◌≡◌, ◌≢◌, ◌<◌, ◌++◌, ℕ, [], length, OnOk, OnErr};
ghost use Rattle.flow_defs.specs.Records.{encoded, IsShort};
ghost use Rattle.subpartition.specs.declared.entry.SendEntry.TheVariants.{PutInline, Finish};
ghost use Rattle.record_writer.specs.Writers.{GrewByData};
ghost use Rattle.record_writer.specs.Segments.{NoneLostOn};
ghost use Rattle.record_writer.specs.Channels.{IsSupply, IsSameSupply, HasSeenFault, IsOpenAt, IsNextAt, WasEndedAt, WasMarkedAt, WasStoppedAt, LaidSome};
ghost use Rattle.record_writer.specs.Lists.{AreChannels, AreSame, IsSameAt, own_of, held_of, laid_of};

use crate::channel::{close, lay_down, mark};
use crate::part::Part;
use crate::supply::Supply;
use crate::writer::WriterStopped;
use flow_defs::ListOf;
use std::sync::Wait;
use subpartition::Subpartition;
use turn_cell::{Pass, TurnCell};

/// A task's channels: the cells of the edge, the places of its own among them, and of each channel the
/// task's pass and the buffer that is being filled.
#[derive(Drop)]
pub(crate) struct Channels<'a> {
    pub(crate) subpartitions: &'a [TurnCell<Subpartition>],
    pub(crate) first: usize,
    pub(crate) stride: usize,
    pub(crate) passes: ListOf<Pass<Subpartition>>,
    pub(crate) parts: ListOf<Part>,
}

impl<'a> Channels<'a> {
    /// Lays down a record on the channel of this number.
    pub(crate) fn lay_down<R: Wait>(
        &mut self,
        rt: &R,
        supply: &mut Supply<'_, '_>,
        number: usize,
        line: &[u8],
    ) -> Result<(), WriterStopped>
        requires supply { IsSupply supply.old }
        requires channels { AreChannels supply.old.size (length self.old.passes.items) self.old }
        requires within { number < length self.old.passes.items }
        requires is_open { IsOpenAt supply.old.size (own_of self.old number) }
        requires short { IsShort line.now }
        ensures supply { IsSupply supply.new × IsSameSupply supply.old supply.new }
        ensures channels { AreChannels supply.old.size (length self.old.passes.items) self.new × AreSame self.old self.new }
        ensures others { (d : ℕ) → d ≢ number → IsSameAt d self.old self.new }
        ensures is_open { IsOpenAt supply.old.size (own_of self.new number) }
        ensures laid { OnOk result (laid_of self.new number ≡ laid_of self.old number ++ encoded line.now) }
        ensures entries { GrewByData (own_of self.old number) (own_of self.new number) }
        ensures stopped { OnErr result (LaidSome (laid_of self.old number ++ encoded line.now) (laid_of self.new number) × HasSeenFault supply.new) }
        ensures none_lost { NoneLostOn supply.old supply.new self.old self.new }
    {
        let cell = &self.subpartitions[self.first + number * self.stride];
        let pass = &mut self.passes.as_mut_slice()[number];
        let part = &mut self.parts.as_mut_slice()[number];
        lay_down(rt, supply, cell, pass, part, line)
    }

    // Closes the channel of this number.
    fn close<R: Wait>(
        &mut self,
        rt: &R,
        supply: &mut Supply<'_, '_>,
        number: usize,
    ) -> Result<(), WriterStopped>
        requires supply { IsSupply supply.old }
        requires channels { AreChannels supply.old.size (length self.old.passes.items) self.old }
        requires within { number < length self.old.passes.items }
        requires is_open { IsOpenAt supply.old.size (own_of self.old number) }
        ensures supply { IsSupply supply.new × IsSameSupply supply.old supply.new }
        ensures channels { AreChannels supply.old.size (length self.old.passes.items) self.new × AreSame self.old self.new }
        ensures others { (d : ℕ) → d ≢ number → IsSameAt d self.old self.new }
        ensures finished { OnOk result (WasEndedAt supply.old.size (own_of self.old number) (own_of self.new number) (laid_of self.old number)) }
        ensures stopped { OnErr result (WasStoppedAt supply.old.size Finish (own_of self.old number) (own_of self.new number) (laid_of self.old number) × HasSeenFault supply.new) }
        ensures none_lost { NoneLostOn supply.old supply.new self.old self.new }
    {
        let cell = &self.subpartitions[self.first + number * self.stride];
        let pass = &mut self.passes.as_mut_slice()[number];
        let part = &mut self.parts.as_mut_slice()[number];
        close(rt, supply, cell, pass, part)
    }

    /// Closes all channels, one after another.
    pub(crate) fn close_all<R: Wait>(
        &mut self,
        rt: &R,
        supply: &mut Supply<'_, '_>,
    ) -> Result<(), WriterStopped>
        requires supply { IsSupply supply.old }
        requires channels { AreChannels supply.old.size (length self.old.passes.items) self.old }
        requires are_open { (c : ℕ) → c < length self.old.passes.items → IsOpenAt supply.old.size (own_of self.old c) }
        ensures supply { IsSupply supply.new × IsSameSupply supply.old supply.new }
        ensures channels { AreChannels supply.old.size (length self.old.passes.items) self.new × AreSame self.old self.new }
        ensures finished { OnOk result ((c : ℕ) → c < length self.old.passes.items → WasEndedAt supply.old.size (own_of self.old c) (own_of self.new c) (laid_of self.old c)) }
        ensures stopped { OnErr result (((c : ℕ) → c < length self.old.passes.items → WasStoppedAt supply.old.size Finish (own_of self.old c) (own_of self.new c) (laid_of self.old c)) × HasSeenFault supply.new) }
        ensures none_lost { NoneLostOn supply.old supply.new self.old self.new }
    {
        let many = self.passes.as_slice().len();
        for number in 0..many {
            self.close(rt, supply, number)?;
        }
        Ok(())
    }

    // Puts what is still in the buffer of the channel of this number, and then an inline barrier.
    fn mark<R: Wait>(
        &mut self,
        rt: &R,
        supply: &mut Supply<'_, '_>,
        number: usize,
        k: u64,
    ) -> Result<(), WriterStopped>
        requires supply { IsSupply supply.old }
        requires channels { AreChannels supply.old.size (length self.old.passes.items) self.old }
        requires within { number < length self.old.passes.items }
        requires is_open { IsOpenAt supply.old.size (own_of self.old number) }
        requires next { IsNextAt k (own_of self.old number) }
        ensures supply { IsSupply supply.new × IsSameSupply supply.old supply.new }
        ensures channels { AreChannels supply.old.size (length self.old.passes.items) self.new × AreSame self.old self.new }
        ensures others { (d : ℕ) → d ≢ number → IsSameAt d self.old self.new }
        ensures marked { OnOk result (WasMarkedAt supply.old.size k (own_of self.old number) (own_of self.new number) (laid_of self.old number) × (held_of self.new number ≡ [])) }
        ensures stopped { OnErr result (WasStoppedAt supply.old.size (PutInline k) (own_of self.old number) (own_of self.new number) (laid_of self.old number) × HasSeenFault supply.new) }
        ensures none_lost { NoneLostOn supply.old supply.new self.old self.new }
    {
        let cell = &self.subpartitions[self.first + number * self.stride];
        let pass = &mut self.passes.as_mut_slice()[number];
        let part = &mut self.parts.as_mut_slice()[number];
        mark(rt, supply, cell, pass, part, k)
    }

    /// Puts what is still in buffers, and then an inline barrier on each channel, one after another.
    pub(crate) fn mark_all<R: Wait>(
        &mut self,
        rt: &R,
        supply: &mut Supply<'_, '_>,
        k: u64,
    ) -> Result<(), WriterStopped>
        requires supply { IsSupply supply.old }
        requires channels { AreChannels supply.old.size (length self.old.passes.items) self.old }
        requires are_open { (c : ℕ) → c < length self.old.passes.items → IsOpenAt supply.old.size (own_of self.old c) }
        requires next { (c : ℕ) → c < length self.old.passes.items → IsNextAt k (own_of self.old c) }
        ensures supply { IsSupply supply.new × IsSameSupply supply.old supply.new }
        ensures channels { AreChannels supply.old.size (length self.old.passes.items) self.new × AreSame self.old self.new }
        ensures marked { OnOk result ((c : ℕ) → c < length self.old.passes.items → WasMarkedAt supply.old.size k (own_of self.old c) (own_of self.new c) (laid_of self.old c) × (held_of self.new c ≡ [])) }
        ensures stopped { OnErr result (((c : ℕ) → c < length self.old.passes.items → WasStoppedAt supply.old.size (PutInline k) (own_of self.old c) (own_of self.new c) (laid_of self.old c)) × HasSeenFault supply.new) }
        ensures none_lost { NoneLostOn supply.old supply.new self.old self.new }
    {
        for number in 0..self.passes.as_slice().len() {
            self.mark(rt, supply, number, k)?;
        }
        Ok(())
    }
}
