// What tells the workers of a job which image was stored last.
ghost use Rattle.std.specs.Prelude.{◌≡◌, ◌<◌, ◌∷◌, [], ◌++◌};
ghost use Rattle.turn_cell.specs.History.{StartsWith, by, entries_of};
ghost use Rattle.turn_cell.specs.Passes.{IsPassOf, IsSamePass, IsTurnOf, HasEntered, mine, number, seen};
ghost use Rattle.outside.specs.LastImages.{CollectorStoresAll, KeepsLast, OthersStoreNothing, last_stored};

use std::marker::Brand;
use std::sync::Wait;
use turn_cell::{Named, Pass, Turn, TurnCell, Turned};

/// An image that was stored: the number of its checkpoint, and whether all sources are ended in it. The
/// checkpoint after one in which they are is the last. Histories of the cell are made of it.
#[derive(Clone, Copy, Debug, PartialEq, Eq)]
pub struct Stored {
    pub number: u64,
    pub all_ended: bool,
}

/// The image that was stored last, if there was one. It takes no memory.
#[derive(Drop)]
pub struct LastImage {
    stored: Option<Stored>,
}

impl Turned for LastImage {
    type Entry = Stored;

    type Fixed = ();

    ghost stands = { λ state history. KeepsLast state history };

    ghost fixed = { λ _. tt };
}

impl LastImage {
    /// No image was stored.
    pub fn new() -> Self
        ensures { KeepsLast result [] }
    {
        LastImage { stored: None }
    }

    /// Keeps this image as the last one.
    pub fn store(&mut self, stored: Stored)
        ensures { (history : _) (number : _) → number ≡ 0 → KeepsLast self.old history → KeepsLast self.new (history ++ (number, stored) ∷ []) }
    {
        self.stored = Some(stored);
    }

    /// The image that was stored last, if there is one.
    pub fn last(&self) -> Option<Stored>
        ensures { result ≡ self.now.stored }
    {
        self.stored
    }
}

/// Looks for the image that was stored last, in a turn of its cell.
pub fn look_for_stored<R: Wait>(
    rt: &R,
    cell: &TurnCell<LastImage>,
    pass: &mut Pass<LastImage>,
) -> Option<Stored>
    requires { IsPassOf cell.now pass.old }
    ensures pass { IsPassOf cell.now pass.new × IsSamePass pass.old pass.new }
    ensures seen { StartsWith (seen pass.new) (seen pass.old) }
    ensures answer { result ≡ last_stored (seen pass.new) }
    ensures collected { by 0 (seen pass.new) ≡ entries_of (seen pass.new) }
    ensures reader { 0 < number pass.old → mine pass.new ≡ [] }
{
    let mut turn = cell.enter(rt, pass);
    let stored = turn.state().last();
    turn.leave_as_is();
    stored
}

// Ends the turn with this image.
fn leave_stored<E: Named<Stored>>(turn: Turn<LastImage>, stored: Stored)
    requires entry { E.entry ≡ stored }
    requires turn { IsTurnOf turn.cell.now turn.pass.now }
    requires state { KeepsLast turn.state (seen turn.pass.now ++ (number turn.pass.now, stored) ∷ []) }
    ensures pass { IsPassOf turn.entry.cell.now turn.exit.1.0.now }
    ensures entered { HasEntered stored turn.entry.pass.now turn.exit.1.0.now }
{
    turn.leave::<E>();
}

/// Tells all workers that this image was stored, in a turn of its cell. The pass is that of the
/// collecting worker.
pub fn tell_stored<R: Wait>(
    rt: &R,
    cell: &TurnCell<LastImage>,
    pass: &mut Pass<LastImage>,
    stored: Stored,
)
    requires pass { IsPassOf cell.now pass.old }
    requires collector { number pass.old ≡ 0 }
    ensures pass { IsPassOf cell.now pass.new × (number pass.new ≡ number pass.old) }
    ensures told { mine pass.new ≡ mine pass.old ++ stored ∷ [] }
    ensures seen { StartsWith (seen pass.new) (seen pass.old) }
{
    let mut turn = cell.enter(rt, pass);
    turn.state().store(stored);
    leave_stored::<Brand>(turn, stored);
}

/// What every history of the cell keeps: its entries are those of the collecting worker.
pub fn collector_alone_stores()
    ensures all { CollectorStoresAll }
    ensures others { OthersStoreNothing }
{}

impl Named<Stored> for Brand {
    ghost use Rattle.std.specs.Prelude.{false};

    ghost entry = { record { number = 0; all_ended = false } };
}
