// What workers left, taken out of their places.
ghost use Rattle.std.specs.Prelude.{◌≡◌, ◌++◌, ◌∷◌, [], List, Some};
ghost use Rattle.job_workers.specs.declared.connection.LoopLeft.TheVariants.{SentItems, ReadControl, ReadItems, SentControl};
ghost use Rattle.job_workers.specs.declared.place.Place.TheVariants.{Ended, Vacant};
ghost use Rattle.job_ends.specs.Ended.{left_in};
ghost use Rattle.job_ends.specs.Leaving.{HasGate, HasPartition, HasSnapshots, LoopEnds, TookGate, TookPartition, TookSnapshots, left_by, places_of};

use conn_parts::{LoopEnd, SharePasses};
use flow_defs::ListOf;
use input_channel::InputChannel;
use input_gate::GatePasses;
use job_workers::{LoopLeft, LoopRow, Place, TaskLeft, TaskPlace};
use outside::Wire;
use record_writer::PartitionPasses;
use snapshot_channel::TaskPass;
use std::mem;
use subpartition::Subpartition;
use turn_cell::Pass;

/// What the loops of an edge leave for it: its wire, and the passes of those two that enter all its
/// channels to take and to push.
pub struct EdgeLeft<O, I> {
    pub wire: Wire<O, I>,
    pub takers: ListOf<Pass<Subpartition>>,
    pub pushers: ListOf<Pass<InputChannel>>,
}

// Takes the last worker of a row, which has ended.
fn pop_left<W, E>(row: &mut ListOf<Place<W, E>>) -> E
    requires { (front : List _) × ((left : _) × (row.old.items ≡ front ++ Ended left ∷ [])) }
    ensures { row.old.items ≡ row.new.items ++ Ended result ∷ [] }
{
    match row.pop() {
        Some(Place::Ended(left)) => left,
        Some(Place::Todo(_worker)) => unreachable!(),
        Some(Place::Vacant) => unreachable!(),
        None => unreachable!(),
    }
}

// Takes what each of the four loops of an edge left, where it stands last.
fn pop_sent_items<'a, 'p, O: Drop, I: Drop>(row: &mut LoopRow<'a, 'p, O, I>) -> LoopEnd<'p, O>
    requires { (front : List _) × ((end : _) × (row.old.items ≡ front ++ Ended (SentItems end) ∷ [])) }
    ensures { row.old.items ≡ row.new.items ++ Ended (SentItems result) ∷ [] }
{
    match pop_left(row) {
        LoopLeft::SentItems(end) => end,
        LoopLeft::ReadControl(_end) => unreachable!(),
        LoopLeft::ReadItems(_end) => unreachable!(),
        LoopLeft::SentControl(_end) => unreachable!(),
    }
}

fn pop_read_control<'a, 'p, O: Drop, I: Drop>(row: &mut LoopRow<'a, 'p, O, I>) -> LoopEnd<'p, I>
    requires { (front : List _) × ((end : _) × (row.old.items ≡ front ++ Ended (ReadControl end) ∷ [])) }
    ensures { row.old.items ≡ row.new.items ++ Ended (ReadControl result) ∷ [] }
{
    match pop_left(row) {
        LoopLeft::ReadControl(end) => end,
        LoopLeft::SentItems(_end) => unreachable!(),
        LoopLeft::ReadItems(_end) => unreachable!(),
        LoopLeft::SentControl(_end) => unreachable!(),
    }
}

fn pop_read_items<'a, 'p, O: Drop, I: Drop>(row: &mut LoopRow<'a, 'p, O, I>) -> LoopEnd<'p, I>
    requires { (front : List _) × ((end : _) × (row.old.items ≡ front ++ Ended (ReadItems end) ∷ [])) }
    ensures { row.old.items ≡ row.new.items ++ Ended (ReadItems result) ∷ [] }
{
    match pop_left(row) {
        LoopLeft::ReadItems(end) => end,
        LoopLeft::SentItems(_end) => unreachable!(),
        LoopLeft::ReadControl(_end) => unreachable!(),
        LoopLeft::SentControl(_end) => unreachable!(),
    }
}

fn pop_sent_control<'a, 'p, O: Drop, I: Drop>(row: &mut LoopRow<'a, 'p, O, I>) -> LoopEnd<'p, O>
    requires { (front : List _) × ((end : _) × (row.old.items ≡ front ++ Ended (SentControl end) ∷ [])) }
    ensures { row.old.items ≡ row.new.items ++ Ended (SentControl result) ∷ [] }
{
    match pop_left(row) {
        LoopLeft::SentControl(end) => end,
        LoopLeft::SentItems(_end) => unreachable!(),
        LoopLeft::ReadControl(_end) => unreachable!(),
        LoopLeft::ReadItems(_end) => unreachable!(),
    }
}

// Of the passes of a loop those of one kind.
fn takers_of<'p>(passes: SharePasses<'p>) -> ListOf<Pass<Subpartition>>
    ensures { result ≡ passes.entry.subpartitions }
{
    let SharePasses {
        readers: _,
        subpartitions,
        inputs: _,
        pools: _,
        stop: _,
    } = passes;
    subpartitions
}

fn pushers_of<'p>(passes: SharePasses<'p>) -> ListOf<Pass<InputChannel>>
    ensures { result ≡ passes.entry.inputs }
{
    let SharePasses {
        readers: _,
        subpartitions: _,
        inputs,
        pools: _,
        stop: _,
    } = passes;
    inputs
}

// The half of a link of a loop.
fn half_of<'p, H>(end: LoopEnd<'p, H>) -> H
    ensures { result ≡ end.entry.half }
{
    let LoopEnd {
        half,
        passes: _passes,
        cause: _cause,
    } = end;
    half
}

/// Takes what the loops of an edge left for it.
pub fn take_edge<'a, 'p, O: Drop, I: Drop>(row: &mut LoopRow<'a, 'p, O, I>) -> EdgeLeft<O, I>
    requires { (ends : LoopEnds _ _) × (row.old.items ≡ places_of ends) }
    ensures { (ends : LoopEnds _ _) → row.old.items ≡ places_of ends → result ≡ left_by ends }
{
    let announce = pop_sent_control(row);
    let items = pop_read_items(row);
    let control = pop_read_control(row);
    let send = pop_sent_items(row);
    let LoopEnd {
        half: data_out,
        passes: takes,
        cause: _takes_cause,
    } = send;
    let LoopEnd {
        half: data_in,
        passes: pushes,
        cause: _pushes_cause,
    } = items;
    let control_out = half_of(announce);
    let control_in = half_of(control);
    let takers = takers_of(takes);
    let pushers = pushers_of(pushes);
    let wire = Wire {
        data_out,
        data_in,
        control_out,
        control_in,
    };
    EdgeLeft {
        wire,
        takers,
        pushers,
    }
}

// Takes what its worker left out of a place.
fn take_left<W, E>(place: &mut Place<W, E>) -> E
    requires { (left : _) × (left_in place.old ≡ Some left) }
    ensures was { left_in place.old ≡ Some result }
    ensures now { place.new ≡ Vacant }
{
    match mem::replace(place, Place::Vacant) {
        Place::Ended(left) => left,
        Place::Todo(_worker) => unreachable!(),
        Place::Vacant => unreachable!(),
    }
}

// Puts it back into the place.
fn put_left<W, E>(place: &mut Place<W, E>, left: E)
    requires { place.old ≡ Vacant }
    ensures { place.new ≡ Ended left }
{
    match mem::replace(place, Place::Ended(left)) {
        Place::Vacant => {}
        Place::Todo(_worker) => unreachable!(),
        Place::Ended(_left) => unreachable!(),
    }
}

/// Takes the passes of its partition out of what a task left.
pub fn take_partition<'a, 'p, S>(place: &mut TaskPlace<'a, 'p, S>) -> PartitionPasses<'p>
    requires { HasPartition place.old }
    ensures { TookPartition place.old place.new result }
{
    let left = take_left(place);
    let TaskLeft {
        input,
        gate,
        partition,
        snapshots,
        last_image,
        cause,
    } = left;
    let Some(passes) = partition else {
        unreachable!()
    };
    let rest = TaskLeft {
        input,
        gate,
        partition: None,
        snapshots,
        last_image,
        cause,
    };
    put_left(place, rest);
    passes
}

/// Takes the passes of its gate out of what a task left.
pub fn take_gate<'a, 'p, S>(place: &mut TaskPlace<'a, 'p, S>) -> GatePasses<'p>
    requires { HasGate place.old }
    ensures { TookGate place.old place.new result }
{
    let left = take_left(place);
    let TaskLeft {
        input,
        gate,
        partition,
        snapshots,
        last_image,
        cause,
    } = left;
    let Some(passes) = gate else { unreachable!() };
    let rest = TaskLeft {
        input,
        gate: None,
        partition,
        snapshots,
        last_image,
        cause,
    };
    put_left(place, rest);
    passes
}

/// Takes its pass of the channel of snapshots out of what a task left.
pub fn take_snapshots<'a, 'p, S>(place: &mut TaskPlace<'a, 'p, S>) -> TaskPass
    requires { HasSnapshots place.old }
    ensures { TookSnapshots place.old place.new result }
{
    let left = take_left(place);
    let TaskLeft {
        input,
        gate,
        partition,
        snapshots,
        last_image,
        cause,
    } = left;
    let Some(pass) = snapshots else {
        unreachable!()
    };
    let rest = TaskLeft {
        input,
        gate,
        partition,
        snapshots: None,
        last_image,
        cause,
    };
    put_left(place, rest);
    pass
}
