// How a cell and its passes are made.
ghost use Rattle.std.specs.Prelude.{◌≡◌, ◌+◌, ◌<◌, ◌≤◌, [], ◌∷◌, ◌++◌, length, MatchResult, IfOk, IfErr, Some};
ghost use Rattle.turn_cell.specs.Passes.{IsPassOf, passes_of, opened_with};
ghost use Rattle.turn_cell.specs.Closing.{AreFresh, IsFresh};
ghost use Rattle.turn_cell.specs.Making.{IsFirst, AreMade};

use crate::cell::TurnCell;
use crate::pass::Pass;
use crate::rule::{Another, Opening};
use crate::turned::Turned;
use atomic_table::Table;
use flow_defs::ListOf;
use std::alloc::{AllocFailed, Global};
use std::snapshot::Snapshot;

/// There was no memory for the cell or its passes. The state comes back.
#[derive(Drop)]
pub struct Refused<S> {
    pub state: S,
}

fn slots_of<S>(alloc: Global, state: S) -> Result<Vec<Option<S>>, Refused<S>>
    ensures { MatchResult result (λ v. v.items ≡ Some state ∷ []) (λ r. r.state ≡ state) }
{
    let mut slots = Vec::new(alloc);
    match slots.push(Some(state)) {
        Ok(()) => Ok(slots),
        Err(failed) => {
            let AllocFailed { value } = failed;
            slots.destroy_empty();
            let Some(state) = value else { unreachable!() };
            Err(Refused { state })
        }
    }
}

fn state_of<S>(slots: Vec<Option<S>>) -> S
    requires { length slots.items ≡ 1 × ((x : S) × (slots.items ≡ Some x ∷ [])) }
    ensures { slots.items ≡ Some result ∷ [] }
{
    let mut slots = slots;
    let slot = slots.pop().unwrap();
    slots.destroy_empty();
    slot.unwrap()
}

// The cell with its first seat.
fn first_seat<S: Turned>(
    alloc: Global,
    state: S,
    passes: u32,
) -> Result<(TurnCell<S>, Pass<S>), Refused<S>>
    requires { (0 < passes) × S.stands state [] }
    ensures ok { IfOk result (λ r. IsFirst r.0 1 r.1 × (opened_with r.0 ≡ state) × (passes_of r.0 ≡ passes)) }
    ensures err { IfErr result (λ r. r.state ≡ state) }
{
    let opening = Opening {
        state: Snapshot::of(&state),
        passes,
    };
    let slots = slots_of(alloc, state)?;
    match Table::new(alloc, &[0; 19], slots, &opening) {
        Ok((table, seat)) => Ok((
            TurnCell::of(table),
            Pass {
                number: 0,
                entries: 0,
                seat,
            },
        )),
        Err(refused) => {
            let atomic_table::Refused { slots } = refused;
            Err(Refused {
                state: state_of(slots),
            })
        }
    }
}

// Splits a further seat off the first one.
fn split<S: Turned>(cell: &TurnCell<S>, first: &mut Pass<S>, number: u32) -> Pass<S>
    requires first { IsFirst cell.now number first.old }
    requires room { (0 < number) × (number < passes_of cell.now) }
    ensures first { IsFirst cell.now (number + 1) first.new }
    ensures further { IsPassOf cell.now result × IsFresh number result }
{
    let seat = cell.table.shared.split_seat::<Another>(&mut first.seat);
    Pass {
        number,
        entries: 0,
        seat,
    }
}

// Makes a further pass.
fn another<S: Turned>(cell: &TurnCell<S>, made: &mut [Pass<S>], number: u32) -> Pass<S>
    requires made { AreMade cell.now number made.old }
    requires room { (0 < number) × (number < passes_of cell.now) }
    ensures { AreMade cell.now (number + 1) (made.new ++ result ∷ []) × (length made.new ≡ length made.old) }
{
    split(cell, &mut made[0], number)
}

// Makes the other passes.
fn fill<S: Turned>(cell: &TurnCell<S>, all: &mut ListOf<Pass<S>>, passes: u32)
    requires made { AreMade cell.now 1 all.old.items × (passes ≡ passes_of cell.now) }
    requires room { passes ≤ all.old.room + 1 }
    ensures { AreMade cell.now passes all.new.items }
{
    for number in 1..passes {
        let further = another(cell, all.as_mut_slice(), number);
        let Ok(()) = all.push(further) else {
            unreachable!()
        };
    }
}

impl<S: Turned> TurnCell<S> {
    /// A cell round this state, and its passes in the order of their numbers, which count from 0.
    pub fn new(
        alloc: Global,
        state: S,
        passes: u32,
    ) -> Result<(TurnCell<S>, ListOf<Pass<S>>), Refused<S>>
        requires { (0 < passes) × S.stands state [] }
        ensures made { IfOk result (λ r. AreFresh r.0 r.1.items × (length r.1.items ≡ passes)) }
        ensures cell { IfOk result (λ r. (opened_with r.0 ≡ state) × (passes_of r.0 ≡ passes)) }
        ensures refused { IfErr result (λ r. r.state ≡ state) }
    {
        let mut all = ListOf::new(alloc);
        if all.reserve(passes as usize).is_err() {
            return Err(Refused { state });
        }
        let (cell, first) = first_seat(alloc, state, passes)?;
        let Ok(()) = all.push(first) else {
            unreachable!()
        };
        fill(&cell, &mut all, passes);
        Ok((cell, all))
    }
}
