// What stops all workers of a job once one of them has met a fault.
ghost use Rattle.std.specs.Prelude.{◌≡◌, ◌∷◌, [], ◌++◌, None, true, false};
ghost use Rattle.turn_cell.specs.History.{StartsWith};
ghost use Rattle.turn_cell.specs.Passes.{IsPassOf, IsSamePass, IsTurnOf, HasEntered, opened_with, mine, number, seen};
ghost use Rattle.outside.specs.declared.stop.StopEntry.TheVariants.{Met};
ghost use Rattle.outside.specs.Stops.{is_fault, first_met, told_of, StopsFor, ToldIfFirst};

use flow_defs::Cause;
use std::marker::Brand;
use std::sync::Wait;
use turn_cell::{Named, Pass, Turn, TurnCell, Turned};

/// What one turn does to the stop cell. Histories are made of it; no value of it is made.
pub enum StopEntry {
    /// A worker met a fault, for which it ends.
    Met(Cause),
}

/// The cause of the first fault that was met, if there was one. It takes no memory.
#[derive(Drop)]
pub struct StopState {
    met: Option<Cause>,
}

impl Turned for StopState {
    type Entry = StopEntry;

    type Fixed = ();

    ghost stands = { λ state history. StopsFor state history };

    ghost fixed = { λ _. tt };
}

impl StopState {
    /// No fault was met.
    pub fn new() -> Self
        ensures { StopsFor result [] }
    {
        StopState { met: None }
    }

    /// Keeps the cause of a fault, if it is the first.
    #[tactic(auto, using(crate::proofs::Stops::stops_kept, crate::proofs::Stops::stops_new))]
    pub fn add(&mut self, cause: Cause)
        requires { is_fault cause ≡ true }
        ensures { (history : _) (number : _) → StopsFor self.old history → StopsFor self.new (history ++ (number, Met cause) ∷ []) }
    {
        match self.met {
            None => self.met = Some(cause),
            Some(_) => {}
        }
    }

    /// The cause of the first fault, if there is one.
    pub fn first(&self) -> Option<Cause>
        ensures { result ≡ self.now.met }
    {
        self.met
    }
}

/// Looks for a fault that was met, in a turn of the stop cell.
pub fn look_for_stop<R: Wait>(
    rt: &R,
    cell: &TurnCell<StopState>,
    pass: &mut Pass<StopState>,
) -> Option<Cause>
    requires { IsPassOf cell.now pass.old }
    ensures pass { IsPassOf cell.now pass.new × IsSamePass pass.old pass.new }
    ensures seen { StartsWith (seen pass.new) (seen pass.old) }
    ensures answer { result ≡ first_met (seen pass.new) }
{
    let mut turn = cell.enter(rt, pass);
    let met = turn.state().first();
    turn.leave_as_is();
    met
}

// Ends the turn with this fault.
fn leave_met<E: Named<StopEntry>>(turn: Turn<StopState>, cause: Cause)
    requires entry { E.entry ≡ Met cause }
    requires turn { IsTurnOf turn.cell.now turn.pass.now }
    requires state { StopsFor turn.state (seen turn.pass.now ++ (number turn.pass.now, Met cause) ∷ []) }
    ensures pass { IsPassOf turn.entry.cell.now turn.exit.1.0.now }
    ensures entered { HasEntered (Met cause) turn.entry.pass.now turn.exit.1.0.now }
{
    turn.leave::<E>();
}

/// Tells all workers of a fault, in a turn of the stop cell.
pub fn tell_stop<R: Wait>(
    rt: &R,
    cell: &TurnCell<StopState>,
    pass: &mut Pass<StopState>,
    cause: Cause,
)
    requires fault { is_fault cause ≡ true }
    requires pass { IsPassOf cell.now pass.old }
    ensures pass { IsPassOf cell.now pass.new × (number pass.new ≡ number pass.old) }
    ensures told { mine pass.new ≡ mine pass.old ++ Met cause ∷ [] }
    ensures seen { StartsWith (seen pass.new) (seen pass.old) }
{
    let mut turn = cell.enter(rt, pass);
    turn.state().add(cause);
    leave_met::<Brand>(turn, cause);
}

/// Tells all workers of a fault where none was met before, and answers whether it did.
pub fn tell_stop_if_first<R: Wait>(
    rt: &R,
    cell: &TurnCell<StopState>,
    pass: &mut Pass<StopState>,
    cause: Cause,
) -> bool
    requires fault { is_fault cause ≡ true }
    requires pass { IsPassOf cell.now pass.old }
    ensures pass { IsPassOf cell.now pass.new × (number pass.new ≡ number pass.old) }
    ensures told { ToldIfFirst cause (mine pass.old) (mine pass.new) (seen pass.new) result }
{
    let mut turn = cell.enter(rt, pass);
    match turn.state().first() {
        Some(_) => {
            turn.leave_as_is();
            false
        }
        None => {
            turn.state().add(cause);
            leave_met::<Brand>(turn, cause);
            true
        }
    }
}

/// Tells all workers of a cause that is a fault of the worker's own.
pub fn tell_cause<R: Wait>(
    rt: &R,
    cell: &TurnCell<StopState>,
    pass: &mut Pass<StopState>,
    cause: Cause,
)
    requires { IsPassOf cell.now pass.old }
    ensures pass { IsPassOf cell.now pass.new × (number pass.new ≡ number pass.old) }
    ensures told { mine pass.new ≡ mine pass.old ++ told_of cause }
    ensures seen { StartsWith (seen pass.new) (seen pass.old) }
    ensures calm { is_fault cause ≡ false → seen pass.new ≡ seen pass.old }
{
    match cause {
        Cause::Done => {}
        Cause::Stopped => {}
        Cause::Input { .. } => tell_stop(rt, cell, pass, cause),
        Cause::Keeper => tell_stop(rt, cell, pass, cause),
        Cause::Link => tell_stop(rt, cell, pass, cause),
        Cause::LongLine { .. } => tell_stop(rt, cell, pass, cause),
        Cause::BigSource { .. } => tell_stop(rt, cell, pass, cause),
        Cause::BigImage => tell_stop(rt, cell, pass, cause),
        Cause::OverCredit { .. } => tell_stop(rt, cell, pass, cause),
        Cause::Peer { .. } => tell_stop(rt, cell, pass, cause),
        Cause::Memory => tell_stop(rt, cell, pass, cause),
    }
}

impl Named<StopEntry> for Brand {
    ghost use Rattle.flow_defs.specs.declared.cause.Cause.TheVariants.{Memory};
    ghost use Rattle.outside.specs.declared.stop.StopEntry.TheVariants.{Met};

    ghost entry = { Met Memory };
}
