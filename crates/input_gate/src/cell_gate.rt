// A gate over cells.
// The passes come as they were made. Of any other it isn't known before a turn that what it has seen is a
// history.
ghost use Rattle.std.specs.Prelude.{◌≡◌, ◌≢◌, ◌<◌, ◌≤◌, ◌^◌, suc, true, false, [], length, Err, All, IfOk, IfErr, OnOk, vec_capacity};
ghost use Rattle.turn_cell.specs.History.{StartsWith};
ghost use Rattle.turn_cell.specs.Passes.{IsPassOf, IsSamePass, opened_with, number, seen, mine};
ghost use Rattle.flow_defs.specs.Items.{Items};
ghost use Rattle.segment_pool.specs.Pools.{size_of};
ghost use Rattle.local_pool.specs.Helds.{pool_of};
ghost use Rattle.conn_parts.specs.Shares.{AreOwn, AreNew};
ghost use Rattle.gate_account.specs.Accounts.{IsBlocked, IsNew, Keeps, Resumed};
ghost use Rattle.input_gate.specs.Gates.{Gave};
ghost use Rattle.input_gate.specs.Turning.{InputCell, InputPass};
ghost use Rattle.input_gate.specs.Lanes.{IsLender, lent_size};
ghost use Rattle.input_gate.specs.Segments.{AllStayEven, LoseNone};
ghost use Rattle.input_gate.specs.Channels.{AreLanes, AreLater, HaveNoSpare, account_of, shows_in, cells_in, passes_in, LookedIn};
ghost use Rattle.input_gate.specs.States.{account_in, shows_of, passes_of, ends_of, IsGateOf, AllCameBack, LookedFirst};
ghost use Rattle.input_gate.specs.Making.{AreFreshLanes};

use crate::gate::{Gate, GateEnd, GateItem};
use crate::lane::{Lane, have_news};
use crate::lender::Lender;
use crate::passes::{GateEnds, GatePasses, InputCell, InputPass, NoGate};
use crate::round::resume_at;
use crate::rounds::{Taken, all_over, most_held, refill_unread, take};
use flow_defs::{Bytes, ListOf};
use local_pool::HeldPool;
use outside::{PAUSES, Pause, StopState, look_for_stop};
use record_spans::Reader;
use std::alloc::Global;
use std::marker::Model;
use std::snapshot::Snapshot;
use std::sync::Wait;
use turn_cell::{Pass, TurnCell};

/// A gate over the cells of its channels. It takes round robin: of each channel a line, and where none is
/// there it polls.
///
/// Contracts see it as a `GateState`. A line that is whole costs one look at each channel of which a
/// barrier may be given: a load where nothing came since the look before, and else a turn. A buffer costs
/// two turns, and two for each floating segment that its channel is given.
#[derive(Drop)]
pub struct CellGate<'a, 'p> {
    lanes: Vec<Lane<'a>>,
    // The list that had the passes, in which there is room for them.
    kept: ListOf<InputPass>,
    // The channel that is next.
    pub(crate) start: usize,
    // Whether a lane may have a buffer still, which `next` left there at an `Err`.
    unread: bool,
    lender: Lender<'a, 'p>,
    // The pass of the pool as it was when the gate was made, for contracts alone.
    first: Snapshot<Pass<HeldPool<'p>>>,
    stop: &'a TurnCell<StopState>,
    stop_pass: Pass<StopState>,
    pause: Pause,
}

impl<'a, 'p> Model for CellGate<'a, 'p> {
    ghost use Rattle.std.specs.Prelude.{◌≡◌, ◌≤◌, false, [], length};
    ghost use Rattle.input_gate.specs.Channels.{HaveNoSpare};
    ghost use Rattle.input_gate.specs.States.{GateState, IsGate};

    ghost Value = { GateState };

    ghost view = { λ g. record { lanes = g.lanes.items; lender = g.lender; first = g.first.value; stop = g.stop.now; stop_pass = g.stop_pass } };

    ghost invariant = { λ g. IsGate (record { lanes = g.lanes.items; lender = g.lender; first = g.first.value; stop = g.stop.now; stop_pass = g.stop_pass }) × (g.kept.items ≡ []) × (length g.lanes.items ≤ g.kept.room) × (g.unread ≡ false → HaveNoSpare g.lanes.items) };
}

// A lane for each cell, with its pass, in their order. They take the passes out of their list.
fn deal_lanes<'a>(
    alloc: Global,
    cells: &'a [InputCell],
    passes: &mut ListOf<InputPass>,
    lanes: Vec<Lane<'a>>,
) -> Vec<Lane<'a>>
    requires many { length passes.old.items ≡ length cells.now }
    requires lanes { (lanes.items ≡ []) × (length cells.now ≤ vec_capacity lanes) }
    ensures lanes { AreFreshLanes cells.now passes.old.items result.items }
    ensures passes { (passes.new.items ≡ []) × (length cells.now ≤ passes.new.room) }
{
    let mut lanes = lanes;
    passes.as_mut_slice().reverse();
    for cell in cells {
        let pass = passes.take_last();
        let lane = Lane {
            cell,
            pass,
            reader: Reader::new(alloc),
            ready: None,
            spare: None,
            barriers: 0,
            blocked: false,
            ended: false,
            clear: false,
        };
        let Ok(()) = lanes.push(lane) else {
            unreachable!()
        };
    }
    lanes
}

// The passes of these lanes, in their order, in a list that has room for them.
fn gather_passes(lanes: Vec<Lane<'_>>, kept: ListOf<InputPass>) -> ListOf<InputPass>
    requires { (kept.items ≡ []) × (length lanes.items ≤ kept.room) }
    ensures { result.items ≡ passes_in lanes.entry.items }
{
    let mut kept = kept;
    for lane in lanes {
        let Lane { pass, .. } = lane;
        let Ok(()) = kept.push(pass) else {
            unreachable!()
        };
    }
    kept
}

// Looks at the stop cell where it has news, and answers whether there is an entry.
fn is_stopped<R: Wait>(rt: &R, stop: &TurnCell<StopState>, stop_pass: &mut Pass<StopState>) -> bool
    requires { IsPassOf stop.now stop_pass.old }
    ensures pass { IsPassOf stop.now stop_pass.new × IsSamePass stop_pass.old stop_pass.new }
    ensures seen { result ≡ true → seen stop_pass.new ≢ [] }
{
    if !stop.has_news(stop_pass) {
        return false;
    }
    look_for_stop(rt, stop, stop_pass).is_some()
}

// Pauses until a channel or the stop cell has news.
fn rest<R: Wait>(
    rt: &R,
    lanes: &[Lane<'_>],
    stop: &TurnCell<StopState>,
    stop_pass: &Pass<StopState>,
    pause: &mut Pause,
) {
    for _pause in 0..PAUSES {
        pause.wait(rt);
        if stop.has_news(stop_pass) || have_news(lanes) {
            return;
        }
    }
}

// Takes what is next, and waits until there is such.
fn next_of<R: Wait>(
    rt: &R,
    lanes: &mut Vec<Lane<'_>>,
    start: &mut usize,
    lender: &mut Lender<'_, '_>,
    stop: &TurnCell<StopState>,
    stop_pass: &mut Pass<StopState>,
    pause: &mut Pause,
    unread: bool,
    hold: bool,
) -> Result<GateItem, GateEnd>
    requires few { length lanes.old.items < 2 ^ 32 }
    requires lanes { AreLanes (lent_size lender.old) lanes.old.items }
    requires lender { IsLender lender.old }
    requires stop { IsPassOf stop.now stop_pass.old }
    requires spare { unread ≡ false → HaveNoSpare lanes.old.items }
    ensures lanes { AreLanes (lent_size lender.old) lanes.new.items }
    ensures gave { Gave (account_of lanes.old.items) (account_of lanes.new.items) (shows_in lanes.new.items) hold result }
    ensures later { AreLater lanes.old.items lanes.new.items }
    ensures cells { cells_in lanes.new.items ≡ cells_in lanes.old.items }
    ensures lender { IsLender lender.new × (lender.new.cell ≡ lender.old.cell) }
    ensures stop { IsPassOf stop.now stop_pass.new × IsSamePass stop_pass.old stop_pass.new }
    ensures stopped { result ≡ Err GateEnd.Stopped → seen stop_pass.new ≢ [] }
    ensures looked { IfOk result (λ item. LookedIn hold lanes.old.items item lanes.new.items) }
    ensures spare { OnOk result (HaveNoSpare lanes.new.items) }
    ensures segments { AllStayEven lender.old lanes.old.items lender.new lanes.new.items }
{
    match refill_unread(rt, lanes, unread, lender) {
        Ok(()) => {}
        Err(_) => return Err(GateEnd::Memory),
    }
    let most = most_held(lanes, hold);
    for _round in rt.forever() {
        match take(rt, lanes, start, hold, most, lender) {
            Ok(Taken::Item(item)) => {
                pause.reset();
                return Ok(item);
            }
            Ok(Taken::More) => pause.reset(),
            Ok(Taken::Nothing) => {
                if all_over(lanes) {
                    return Ok(GateItem::AllEnded);
                }
                if is_stopped(rt, stop, stop_pass) {
                    return Err(GateEnd::Stopped);
                }
                rest(rt, lanes.as_slice(), stop, stop_pass, pause);
            }
            Err(end) => return Err(end),
        }
    }
    unreachable!()
}

impl<'a, 'p> CellGate<'a, 'p> {
    /// A gate of these cells, which has given nothing. The passes are the first of their cells. The flights
    /// are empty. `Err` where there is no memory.
    pub fn new(
        alloc: Global,
        cells: &'a [InputCell],
        passes: ListOf<InputPass>,
        flights: ListOf<Bytes>,
        gate_pool: &'a TurnCell<HeldPool<'p>>,
        pool_pass: Pass<HeldPool<'p>>,
        stop: &'a TurnCell<StopState>,
        stop_pass: Pass<StopState>,
    ) -> Result<CellGate<'a, 'p>, NoGate<'p>>
        requires few { length cells.now < 2 ^ 32 }
        requires passes { AreOwn 0 cells.now passes.items × AreNew passes.items }
        requires fresh { All (λ (pass : InputPass). seen pass ≡ []) passes.items }
        requires flights { (length flights.items ≡ length cells.now) × All (λ (flight : Items _). flight.items ≡ []) flights.items }
        requires pool { IsPassOf gate_pool.now pool_pass }
        requires stop { IsPassOf stop.now stop_pass × (mine stop_pass ≡ []) }
        requires sizes { All (λ (cell : InputCell). (opened_with cell).size ≡ size_of (pool_of (opened_with gate_pool.now))) cells.now }
        ensures account { IfOk result (λ gate. ((account_in gate).channels ≡ length cells.now) × IsNew (λ c. []) (account_in gate)) }
        ensures gate { IfOk result (λ gate. IsGateOf cells.now gate_pool.now stop.now gate × (number gate.stop_pass ≡ number stop_pass)) }
        ensures first { IfOk result (λ gate. gate.first ≡ pool_pass.entry) }
        ensures refused { IfErr result (λ r. (r.passes.cells.items ≡ passes.items) × (r.passes.pool ≡ pool_pass.entry) × (r.passes.stop ≡ stop_pass)) }
    {
        // A start has nothing in flight, as the contract says.
        let _flights = flights;
        let Ok(lanes) = Vec::with_capacity(alloc, cells.len()) else {
            let passes = GatePasses {
                cells: passes,
                pool: pool_pass,
                stop: stop_pass,
            };
            return Err(NoGate { passes });
        };
        let first = Snapshot::of(&pool_pass);
        let mut kept = passes;
        let lanes = deal_lanes(alloc, cells, &mut kept, lanes);
        Ok(CellGate {
            lanes,
            kept,
            start: 0,
            unread: false,
            lender: Lender {
                cell: gate_pool,
                pass: Some(pool_pass),
            },
            first,
            stop,
            stop_pass,
            pause: Pause::new(),
        })
    }

    /// Ends the gate. Takes no memory.
    pub fn into_passes(self) -> GatePasses<'p>
        ensures cells { (result.cells.items ≡ passes_of self.entry) × AreOwn 0 (cells_in self.entry.lanes) result.cells.items }
        ensures pool { IsPassOf self.entry.lender.cell.now result.pool }
        ensures stop { IsPassOf self.entry.stop result.stop × (mine result.stop ≡ []) × (number result.stop ≡ number self.entry.stop_pass) }

        // Each segment that the pool lent, or that a channel set free, is with a channel or went back.
        ensures none_lost { LoseNone (mine self.entry.first) (mine result.pool) result.cells.items }
    {
        let CellGate {
            lanes,
            kept,
            lender,
            stop_pass,
            ..
        } = self;
        let Lender { pass, .. } = lender;
        let Some(pool) = pass else { unreachable!() };
        GatePasses {
            cells: gather_passes(lanes, kept),
            pool,
            stop: stop_pass,
        }
    }
}

impl<'a, 'p> Gate for CellGate<'a, 'p> {
    type Ends = GateEnds<'p>;

    ghost ends = { λ gate. ends_of gate };

    ghost account = { λ gate. account_in gate };

    ghost shows = { λ gate. shows_of gate };

    ghost saw_stop = { λ gate. seen gate.stop_pass ≢ [] };

    fn next<R: Wait>(&mut self, rt: &R, hold: bool) -> Result<GateItem, GateEnd>
        ensures same { (ends_of self.new ≡ ends_of self.old) × ((account_in self.new).channels ≡ (account_in self.old).channels) }
        ensures gave { Gave (account_in self.old) (account_in self.new) (shows_of self.new) hold result }
        ensures kept { Keeps (shows_of self.old) (shows_of self.new) }
        ensures stopped { result ≡ Err GateEnd.Stopped → seen self.new.stop_pass ≢ [] }

        // Where a line is given, no front barrier waited that may be given.
        ensures looked { IfOk result (λ item. LookedFirst hold self.old self.new item) }

        // Every buffer that was polled has come back.
        ensures back { OnOk result (AllCameBack self.new) }
    {
        let result = next_of(
            rt,
            &mut self.lanes,
            &mut self.start,
            &mut self.lender,
            self.stop,
            &mut self.stop_pass,
            &mut self.pause,
            self.unread,
            hold,
        );
        self.unread = result.is_err();
        result
    }

    fn resume<R: Wait>(&mut self, rt: &R, channel: u32)
        requires within { channel < (account_in self.old).channels }
        requires stopped { IsBlocked (account_in self.old) channel }
        ensures same { (ends_of self.new ≡ ends_of self.old) × ((account_in self.new).channels ≡ (account_in self.old).channels) }
        ensures resumed { Resumed (account_in self.old) (account_in self.new) channel }
        ensures kept { Keeps (shows_of self.old) (shows_of self.new) }
    {
        resume_at(rt, &mut self.lanes, channel as usize);
    }
}
