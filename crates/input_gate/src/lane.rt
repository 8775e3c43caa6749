// One channel of a gate.
ghost use Rattle.std.specs.Prelude.{◌≡◌, ◌⊎◌, [], ◌∷◌, ◌++◌, true, false, None, IsSome, IfNone, IfOk, IfErr, OnOk, OnErr, MatchBool, MatchOption};
ghost use Rattle.turn_cell.specs.Passes.{opened_with};
ghost use Rattle.flow_defs.specs.declared.task.BarrierKind.TheVariants.{Front};
ghost use Rattle.record_spans.specs.Spans.{HasNoRecord};
ghost use Rattle.flow_defs.specs.Records.{IsShort};
ghost use Rattle.input_channel.specs.Contents.{content};
ghost use Rattle.input_gate.specs.Segments.{IsUntouched, StaysEven};
ghost use Rattle.input_gate.specs.Turning.{IsGatePass, Looked, looks_of};
ghost use Rattle.input_gate.specs.Lanes.{IsLane, IsLender, lent_size, IsIdle, IsQuiet, Gives, GivesBarrier, IsFault, IsResumed, Stepped, Came, left_of};

use crate::lender::{Lender, give, give_free, request};
use crate::passes::{InputCell, InputPass};
use crate::rest::rest_len;
use crate::turns::{add_in_turn, ask_in_turn, find_front, poll_in_turn, return_in_turn};
use channel_cut::laws::lanes_are_cut;
use flow_defs::{BarrierKind, Bytes};
use input_channel::{HeldBuf, Polled};
use record_spans::{NextFault, Reader};
use std::alloc::AllocError;
use std::sync::Wait;

/// A channel: its cell with the gate's pass of it, and what was polled there and not given.
#[derive(Drop)]
pub(crate) struct Lane<'a> {
    pub(crate) cell: &'a InputCell,
    pub(crate) pass: InputPass,
    pub(crate) reader: Reader,
    /// The line that is given next, which the reader gave before.
    pub(crate) ready: Option<Bytes>,
    /// The buffer that was polled last, until the reader has its bytes.
    pub(crate) spare: Option<HeldBuf>,
    /// How many barriers were given.
    pub(crate) barriers: u64,
    /// Whether an inline barrier waits for its resumption.
    pub(crate) blocked: bool,
    /// Whether the end was polled.
    pub(crate) ended: bool,
    /// Whether it is known that no front barrier waited at the end of what the pass has seen.
    pub(crate) clear: bool,
}

/// Why a channel gives nothing: want of memory, a length that is no record's, or an end in the middle of
/// a record, of which `len` bytes came.
#[derive(Drop)]
pub(crate) enum LaneFault {
    Memory,
    TooLong { len: u32 },
    Left { len: u32 },
}

/// What a step at a channel came to: something changed, or a barrier was given.
#[derive(Drop)]
pub(crate) enum LaneStep {
    Nothing,
    Found,
    Barrier { k: u64, kind: BarrierKind },
}

// Reads the bytes of a buffer.
fn feed(reader: &mut Reader, buf: &HeldBuf) -> Result<(), AllocError>
    ensures ok { OnOk result (reader.new ≡ reader.old ++ content buf.now) }
    ensures err { OnErr result (reader.new ≡ reader.old) }
{
    reader.feed(&buf.segment.bytes()[..buf.len as usize])
}

// Gives the channel floating segments of the gate's pool, as many as it wants and are there.
fn add_floating<R: Wait>(
    rt: &R,
    cell: &InputCell,
    pass: &mut InputPass,
    wants: u32,
    lender: &mut Lender<'_, '_>,
)
    requires pass { IsGatePass cell.now pass.old }
    requires lender { IsLender lender.old }
    requires size { (opened_with cell.now).size ≡ lent_size lender.old }
    ensures pass { IsGatePass cell.now pass.new }
    ensures idle { IsIdle pass.old pass.new }
    ensures lender { IsLender lender.new × (lender.new.cell ≡ lender.old.cell) }
    ensures segments { StaysEven lender.old pass.old lender.new pass.new }
{
    for _want in 0..wants {
        let Some(segment) = request(rt, lender) else {
            return;
        };
        if let Some(back) = add_in_turn(rt, cell, pass, segment) {
            give(rt, lender, back);
            return;
        }
    }
}

/// Reads the buffer that was polled last, and gives it back.
pub(crate) fn refill<R: Wait>(
    rt: &R,
    lane: &mut Lane<'_>,
    lender: &mut Lender<'_, '_>,
) -> Result<(), AllocError>
    requires lane { IsLane (lent_size lender.old) lane.old }
    requires lender { IsLender lender.old }
    ensures lane { IsLane (lent_size lender.old) lane.new }
    ensures quiet { IsQuiet lane.old lane.new }
    ensures lender { IsLender lender.new × (lender.new.cell ≡ lender.old.cell) }
    ensures spare { OnOk result (lane.new.spare ≡ None) }
    ensures segments { StaysEven lender.old lane.old.pass lender.new lane.new.pass }
{
    let Some(buf) = lane.spare.take() else {
        return Ok(());
    };
    match feed(&mut lane.reader, &buf) {
        Ok(()) => {}
        Err(fault) => {
            lane.spare = Some(buf);
            return Err(fault);
        }
    }
    lane.clear = false;
    let (free, wants) = return_in_turn(rt, lane.cell, &mut lane.pass, buf);
    give_free(rt, lender, free);
    add_floating(rt, lane.cell, &mut lane.pass, wants, lender);
    Ok(())
}

/// Whether a whole line is there, which is then ready.
pub(crate) fn prepare(lane: &mut Lane<'_>) -> Result<bool, LaneFault>
    requires lane { (size : _) × IsLane size lane.old }
    requires spare { lane.old.spare ≡ None }
    ensures lane { (size : _) → IsLane size lane.old → IsLane size lane.new }
    ensures quiet { IsQuiet lane.old lane.new }
    ensures spare { lane.new.spare ≡ None }
    ensures ready { IfOk result (λ is_ready. MatchBool is_ready (IsSome lane.new.ready) ((lane.new ≡ lane.old) × (lane.new.ready ≡ None) × HasNoRecord lane.new.reader)) }
    ensures fault { IfErr result (λ fault. IsFault lane.new fault) }
    ensures segments { IsUntouched lane.old.pass lane.new.pass }
{
    if lane.ready.is_some() {
        return Ok(true);
    }
    match lane.reader.next() {
        Ok(Some(line)) => {
            lane.ready = Some(line);
            Ok(true)
        }
        Ok(None) => Ok(false),
        Err(NextFault::Memory) => Err(LaneFault::Memory),
        Err(NextFault::TooLong { len }) => Err(LaneFault::TooLong { len }),
    }
}

/// Gives the line that is ready.
pub(crate) fn give_line(lane: &mut Lane<'_>) -> Option<Bytes>
    requires lane { (size : _) × IsLane size lane.old }
    requires free { lane.old.blocked ≡ false }
    ensures lane { (size : _) → IsLane size lane.old → IsLane size lane.new }
    ensures given { MatchOption result (lane.new ≡ lane.old) (λ line. Gives lane.old lane.new (line.items ∷ []) [] × IsShort line.items) }
    ensures spare { lane.new.spare ≡ lane.old.spare }
    ensures same { (lane.new.pass ≡ lane.old.pass) × (lane.new.ended ≡ lane.old.ended) }
{
    lane.ready.take()
}

// Polls the channel once.
fn poll_lane<R: Wait>(rt: &R, lane: &mut Lane<'_>, hold: bool) -> LaneStep
    requires lane { (size : _) × IsLane size lane.old }
    requires free { lane.old.blocked ≡ false }
    requires empty { (lane.old.spare ≡ None) × (lane.old.ready ≡ None) }
    requires no_record { HasNoRecord lane.old.reader }
    requires open { lane.old.ended ≡ false }
    ensures lane { (size : _) → IsLane size lane.old → IsLane size lane.new }
    ensures came { Stepped hold lane.old result lane.new }
    ensures spare { (result ≡ LaneStep.Found) ⊎ (lane.new.spare ≡ None) }
    ensures segments { IsUntouched lane.old.pass lane.new.pass }
{
    lane.clear = false;
    match poll_in_turn(rt, lane.cell, &mut lane.pass, hold) {
        Polled::Buffer(buf) => {
            lane.spare = Some(buf);
            LaneStep::Found
        }
        Polled::Barrier {
            k,
            kind: BarrierKind::Inline,
        } => {
            // Called for its clause, that no whole record is left.
            let _len = rest_len(lane.reader.rest());
            lanes_are_cut();
            lane.barriers = k;
            lane.blocked = true;
            LaneStep::Barrier {
                k,
                kind: BarrierKind::Inline,
            }
        }
        Polled::Barrier {
            k,
            kind: BarrierKind::Front,
        } => {
            lane.barriers = k;
            LaneStep::Barrier {
                k,
                kind: BarrierKind::Front,
            }
        }
        Polled::End => {
            lane.ended = true;
            LaneStep::Found
        }
        Polled::Empty => LaneStep::Nothing,
        Polled::Held => LaneStep::Nothing,
    }
}

/// Polls the channel where no whole line is there, and reads what came.
pub(crate) fn step<R: Wait>(
    rt: &R,
    lane: &mut Lane<'_>,
    hold: bool,
    lender: &mut Lender<'_, '_>,
) -> Result<LaneStep, LaneFault>
    requires lane { IsLane (lent_size lender.old) lane.old }
    requires lender { IsLender lender.old }
    requires free { lane.old.blocked ≡ false }
    requires spare { lane.old.spare ≡ None }
    ensures lane { IsLane (lent_size lender.old) lane.new }
    ensures came { Came hold lane.old result lane.new }
    ensures lender { IsLender lender.new × (lender.new.cell ≡ lender.old.cell) }
    ensures spare { OnOk result (lane.new.spare ≡ None) }
    ensures segments { StaysEven lender.old lane.old.pass lender.new lane.new.pass }
{
    match prepare(lane) {
        Ok(true) => return Ok(LaneStep::Found),
        Ok(false) => {}
        Err(fault) => return Err(fault),
    }
    if lane.ended {
        let len = rest_len(lane.reader.rest());
        if len > 0 {
            return Err(LaneFault::Left { len });
        }
        return Ok(LaneStep::Nothing);
    }
    match poll_lane(rt, lane, hold) {
        LaneStep::Nothing => Ok(LaneStep::Nothing),
        LaneStep::Barrier { k, kind } => Ok(LaneStep::Barrier { k, kind }),
        LaneStep::Found => match refill(rt, lane, lender) {
            Ok(()) => Ok(LaneStep::Found),
            Err(_) => Err(LaneFault::Memory),
        },
    }
}

/// Takes the first barrier that waits, where that is front, in one turn. Else it only looks, by one load
/// where no front barrier waited before and nothing came since.
pub(crate) fn look<R: Wait>(rt: &R, lane: &mut Lane<'_>) -> Option<u64>
    requires lane { (size : _) × IsLane size lane.old }
    requires free { lane.old.blocked ≡ false }
    requires spare { lane.old.spare ≡ None }
    ensures lane { (size : _) → IsLane size lane.old → IsLane size lane.new }
    ensures given { MatchOption result (IsQuiet lane.old lane.new) (λ k. GivesBarrier false lane.old lane.new k Front) }
    ensures looked { IfNone result (Looked (looks_of lane.old.pass) (looks_of lane.new.pass)) }
    ensures same { (lane.new.spare ≡ lane.old.spare) × (lane.new.ended ≡ lane.old.ended) }
    ensures segments { IsUntouched lane.old.pass lane.new.pass }
{
    match find_front(rt, lane.cell, &mut lane.pass, lane.clear) {
        Some(k) => {
            lane.barriers = k;
            lane.clear = false;
            Some(k)
        }
        None => {
            lane.clear = true;
            None
        }
    }
}

/// Lets the channel go on behind its inline barrier.
pub(crate) fn go_on<R: Wait>(rt: &R, lane: &mut Lane<'_>)
    requires lane { (size : _) × IsLane size lane.old }
    requires blocked { lane.old.blocked ≡ true }
    ensures lane { (size : _) → IsLane size lane.old → IsLane size lane.new }
    ensures resumed { IsResumed lane.old lane.new }
    ensures spare { lane.new.spare ≡ lane.old.spare }
    ensures segments { IsUntouched lane.old.pass lane.new.pass }
{
    lane.clear = false;
    ask_in_turn(rt, lane.cell, &mut lane.pass);
    lane.blocked = false;
}

/// Whether one of the channels has news.
pub(crate) fn have_news(lanes: &[Lane<'_>]) -> bool {
    for lane in lanes {
        if lane.cell.has_news(&lane.pass) {
            return true;
        }
    }
    false
}

/// Whether the end was polled, and nothing is left to give.
pub(crate) fn is_over(lane: &Lane<'_>) -> bool
    ensures { result ≡ true → (lane.now.ended ≡ true) × (left_of lane.now ≡ []) }
{
    lane.ended && lane.ready.is_none() && lane.spare.is_none() && lane.reader.rest().is_empty()
}
