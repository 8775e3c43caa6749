// The steps of a turn, each of them one step of the table.
ghost use Rattle.std.specs.Prelude.{◌≡◌, ◌≢◌, ◌<◌, ◌≤◌};
ghost use Rattle.turn_cell.specs.Passes.{IsPassOf, IsTurnOf, IsStateOf, HasEntered, HasRested, seen};
ghost use Rattle.turn_cell.specs.Steps.{IsWaiting, HoldsState, FoundTurn, IsAsBefore, IsCounted, ticket};

use crate::cell::TurnCell;
use crate::pass::Pass;
use crate::rule::{Count, Draw, Enter, FIRST_BED, Leave, Look, NEWS, NEXT, SERVING, Stir};
use crate::turned::{Named, Turned};

// Draws the next ticket.
pub(crate) fn draw<S: Turned>(cell: &TurnCell<S>, pass: &mut Pass<S>) -> u64
    requires { IsPassOf cell.now pass.old }
    ensures waits { IsWaiting cell.now pass.new × (result ≡ ticket pass.new) }
    ensures same { IsAsBefore pass.old pass.new }
{
    cell.table.shared.fetch_add::<Draw>(&mut pass.seat, NEXT, 1)
}

// Loads the ticket that is served. Where it is the pass's own, its turn has come.
pub(crate) fn look<S: Turned>(cell: &TurnCell<S>, pass: &mut Pass<S>) -> u64
    requires { IsWaiting cell.now pass.old }
    ensures own { result ≡ ticket pass.old → FoundTurn S.stands S.fixed cell.now pass.old pass.new }
    ensures other { result ≢ ticket pass.old → IsWaiting cell.now pass.new × (ticket pass.new ≡ ticket pass.old) × IsAsBefore pass.old pass.new }
{
    cell.table.shared.load::<Look>(&mut pass.seat, SERVING)
}

// Takes the state out of the slot, and counts the history.
pub(crate) fn take_out<S: Turned>(cell: &TurnCell<S>, pass: &mut Pass<S>) -> S
    requires { (state : S) × HoldsState cell.now pass.old state }
    ensures turn { IsTurnOf cell.now pass.new × HoldsState cell.now pass.old result }
    ensures same { IsAsBefore pass.old pass.new }
{
    let state = cell.table.shared.exchange(&mut pass.seat, 0, None).unwrap();
    pass.entries = cell.table.shared.load::<Count>(&mut pass.seat, NEWS);
    state
}

// Enters the entry of E in the history.
pub(crate) fn record<S: Turned, E: Named<S::Entry>>(cell: &TurnCell<S>, pass: &mut Pass<S>)
    requires { IsTurnOf cell.now pass.old }
    ensures turn { IsTurnOf cell.now pass.new }
    ensures entered { HasEntered E.entry pass.old pass.new }
{
    pass.entries = pass.entries.saturating_add(1);
    cell.table
        .shared
        .store::<Enter<E>>(&mut pass.seat, NEWS, pass.entries);
}

// Puts the state into the slot.
pub(crate) fn put_in<S: Turned>(cell: &TurnCell<S>, pass: &mut Pass<S>, state: S)
    requires { IsTurnOf cell.now pass.old }
    ensures holds { HoldsState cell.now pass.new state × IsCounted pass.new }
    ensures same { IsAsBefore pass.old pass.new }
{
    let empty = cell.table.shared.exchange(&mut pass.seat, 0, Some(state));
    let None = empty else { unreachable!() };
}

// Ends the turn, and returns its ticket.
pub(crate) fn advance<S: Turned>(cell: &TurnCell<S>, pass: &mut Pass<S>) -> u64
    requires { IsCounted pass.old × ((state : S) × HoldsState cell.now pass.old state × IsStateOf S.stands S.fixed cell.now (seen pass.old) state) }
    ensures pass { IsPassOf cell.now pass.new }
    ensures rested { HasRested pass.old pass.new }
{
    cell.table
        .shared
        .fetch_add::<Leave>(&mut pass.seat, SERVING, 1)
}

// The word on which the ticket's thread sleeps.
pub(crate) fn bed_of(ticket: u64) -> usize
    ensures { (2 ≤ result) × (result < 18) }
{
    FIRST_BED + (ticket & 15) as usize
}

// Wakes the thread whose turn comes after this ticket's, if a ticket is out.
pub(crate) fn wake_next<S: Turned>(cell: &TurnCell<S>, pass: &mut Pass<S>, served: u64)
    requires { IsPassOf cell.now pass.old }
    ensures { IsPassOf cell.now pass.new × IsAsBefore pass.old pass.new }
{
    let top = &cell.table.shared;
    let next = served.wrapping_add(1);
    if top.peek(NEXT) != next {
        let bed = bed_of(next);
        top.fetch_add::<Stir>(&mut pass.seat, bed, 1);
        top.wake_all(bed);
    }
}
