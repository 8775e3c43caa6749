// Steps at one channel of a gate.
ghost use Rattle.std.specs.Prelude.{◌≡◌, ◌≢◌, ◌<◌, ◌≤◌, ◌^◌, ℕ, suc, true, false, [], ◌∷◌, length, Ok, None, IfOk, IfErr, IfSome, IfNone, OnOk, OnErr, MatchOption};
ghost use Rattle.input_gate.specs.Turning.{looks_of};
ghost use Rattle.input_gate.specs.declared.gate.GateItem.TheVariants as items;
ghost use Rattle.gate_account.specs.Accounts.{GaveOf, IsBlocked, Resumed};
ghost use Rattle.input_gate.specs.Gates.{Ended};
ghost use Rattle.flow_defs.specs.Records.{IsShort};
ghost use Rattle.input_gate.specs.Lanes.{IsLender, lent_size};
ghost use Rattle.input_gate.specs.Segments.{AllStayEven, AreUntouched};
ghost use Rattle.input_gate.specs.Channels.{AreLanes, AreLater, AreQuiet, HaveNoSpare, account_of, cells_in, passes_in, looks_in, at_of, IsMost, MayGive, CameAt, LookedAt, HasLooked, end_of};

use crate::gate::GateEnd;
use crate::lane::{
    Lane, LaneFault, LaneStep, give_line, go_on, is_over, look, prepare, refill, step,
};
use crate::lender::Lender;
use flow_defs::Bytes;
use std::alloc::AllocError;
use std::sync::Wait;

/// Reads the buffer that a channel has still, and gives it back. Without one it only looks.
pub(crate) fn refill_at<R: Wait>(
    rt: &R,
    lanes: &mut Vec<Lane<'_>>,
    at: usize,
    lender: &mut Lender<'_, '_>,
) -> Result<(), AllocError>
    requires within { at < length lanes.old.items }
    requires lanes { AreLanes (lent_size lender.old) lanes.old.items }
    requires lender { IsLender lender.old }
    ensures lanes { AreLanes (lent_size lender.old) lanes.new.items }
    ensures quiet { AreQuiet lanes.old.items lanes.new.items }
    ensures lender { IsLender lender.new × (lender.new.cell ≡ lender.old.cell) }
    ensures here { OnOk result (at_of (λ lane. lane.spare) None lanes.new.items at ≡ None) }
    ensures others { (d : ℕ) → d ≢ at → at_of (λ lane. lane.spare) None lanes.new.items d ≡ at_of (λ lane. lane.spare) None lanes.old.items d }
    ensures segments { AllStayEven lender.old lanes.old.items lender.new lanes.new.items }
{
    if lanes[at].spare.is_none() {
        return Ok(());
    }
    refill(rt, &mut lanes[at], lender)
}

/// Whether a channel has a whole line to give.
pub(crate) fn prepare_at(lanes: &mut Vec<Lane<'_>>, at: usize) -> Result<bool, LaneFault>
    requires within { at < length lanes.old.items }
    requires lanes { (size : ℕ) × AreLanes size lanes.old.items }
    requires spare { HaveNoSpare lanes.old.items }
    ensures lanes { (size : ℕ) → AreLanes size lanes.old.items → AreLanes size lanes.new.items }
    ensures quiet { AreQuiet lanes.old.items lanes.new.items }
    ensures spare { HaveNoSpare lanes.new.items }
    ensures fault { IfErr result (λ fault. Ended (account_of lanes.old.items) (account_of lanes.new.items) (end_of at fault)) }
    ensures segments { AreUntouched lanes.old.items lanes.new.items }
{
    if lanes[at].blocked {
        return Ok(false);
    }
    prepare(&mut lanes[at])
}

/// Gives the line that a channel has ready.
pub(crate) fn line_at(lanes: &mut Vec<Lane<'_>>, at: usize) -> Option<Bytes>
    requires within { at < length lanes.old.items }
    requires lanes { (size : ℕ) × AreLanes size lanes.old.items }
    requires spare { HaveNoSpare lanes.old.items }
    ensures lanes { (size : ℕ) → AreLanes size lanes.old.items → AreLanes size lanes.new.items }
    ensures given { MatchOption result (AreQuiet lanes.old.items lanes.new.items) (λ line. GaveOf (account_of lanes.old.items) (account_of lanes.new.items) at (line.items ∷ []) [] × IsShort line.items) }
    ensures cells { cells_in lanes.new.items ≡ cells_in lanes.old.items }
    ensures same { (d : ℕ) → (looks_in lanes.new.items d ≡ looks_in lanes.old.items d) × (at_of (λ lane. lane.ended) false lanes.new.items d ≡ at_of (λ lane. lane.ended) false lanes.old.items d) }
    ensures spare { HaveNoSpare lanes.new.items }
    ensures segments { AreUntouched lanes.old.items lanes.new.items }
{
    if lanes[at].blocked {
        return None;
    }
    give_line(&mut lanes[at])
}

// Whether a barrier is held back of a channel that has given so many, where the most that one has given
// is known.
fn is_held(hold: bool, given: u64, most: u64) -> bool
    ensures held { result ≡ true → (hold ≡ true) × (most ≤ given) }
    ensures not_held { result ≡ false → hold ≡ true → given < most }
{
    hold && given >= most
}

/// Polls a channel, where no inline barrier blocks it. A barrier is held back where `hold`, and no channel
/// has given more, which is `most`.
pub(crate) fn step_at<R: Wait>(
    rt: &R,
    lanes: &mut Vec<Lane<'_>>,
    at: usize,
    hold: bool,
    most: u64,
    lender: &mut Lender<'_, '_>,
) -> Result<LaneStep, LaneFault>
    requires within { at < length lanes.old.items }
    requires lanes { AreLanes (lent_size lender.old) lanes.old.items }
    requires lender { IsLender lender.old }
    requires spare { HaveNoSpare lanes.old.items }
    requires most { hold ≡ true → IsMost (account_of lanes.old.items) most }
    ensures lanes { AreLanes (lent_size lender.old) lanes.new.items }
    ensures came { CameAt hold at lanes.old.items result lanes.new.items }
    ensures later { AreLater lanes.old.items lanes.new.items }
    ensures cells { cells_in lanes.new.items ≡ cells_in lanes.old.items }
    ensures lender { IsLender lender.new × (lender.new.cell ≡ lender.old.cell) }
    ensures spare { OnOk result (HaveNoSpare lanes.new.items) }
    ensures segments { AllStayEven lender.old lanes.old.items lender.new lanes.new.items }
{
    if lanes[at].blocked {
        return Ok(LaneStep::Nothing);
    }
    let held = is_held(hold, lanes[at].barriers, most);
    step(rt, &mut lanes[at], held, lender)
}

/// Looks for a front barrier at a channel, where one may be given, and takes it.
pub(crate) fn look_at<R: Wait>(
    rt: &R,
    lanes: &mut Vec<Lane<'_>>,
    at: usize,
    hold: bool,
    most: u64,
) -> Option<u64>
    requires within { at < length lanes.old.items }
    requires lanes { (size : ℕ) × AreLanes size lanes.old.items }
    requires spare { HaveNoSpare lanes.old.items }
    requires most { hold ≡ true → IsMost (account_of lanes.old.items) most }
    ensures lanes { (size : ℕ) → AreLanes size lanes.old.items → AreLanes size lanes.new.items }
    ensures came { LookedAt hold at lanes.old.items result lanes.new.items }
    ensures later { AreLater lanes.old.items lanes.new.items }
    ensures cells { cells_in lanes.new.items ≡ cells_in lanes.old.items }
    ensures looked { IfNone result (HasLooked hold (account_of lanes.old.items) lanes.old.items lanes.new.items at) }
    ensures others { (d : ℕ) → d ≢ at → (looks_in lanes.new.items d ≡ looks_in lanes.old.items d) × (at_of (λ lane. lane.ended) false lanes.new.items d ≡ at_of (λ lane. lane.ended) false lanes.old.items d) }
    ensures spare { HaveNoSpare lanes.new.items }
    ensures segments { AreUntouched lanes.old.items lanes.new.items }
{
    let lane = &lanes[at];
    if lane.blocked {
        return None;
    }
    if lane.ended {
        return None;
    }
    if is_held(hold, lane.barriers, most) {
        return None;
    }
    look(rt, &mut lanes[at])
}

/// Lets a channel go on behind its inline barrier.
pub(crate) fn resume_at<R: Wait>(rt: &R, lanes: &mut Vec<Lane<'_>>, at: usize)
    requires within { at < length lanes.old.items }
    requires lanes { (size : ℕ) × AreLanes size lanes.old.items }
    requires stopped { IsBlocked (account_of lanes.old.items) at }
    ensures lanes { (size : ℕ) → AreLanes size lanes.old.items → AreLanes size lanes.new.items }
    ensures resumed { Resumed (account_of lanes.old.items) (account_of lanes.new.items) at }
    ensures later { AreLater lanes.old.items lanes.new.items }
    ensures cells { cells_in lanes.new.items ≡ cells_in lanes.old.items }
    ensures spare { HaveNoSpare lanes.old.items → HaveNoSpare lanes.new.items }
    ensures segments { AreUntouched lanes.old.items lanes.new.items }
{
    go_on(rt, &mut lanes[at]);
}
