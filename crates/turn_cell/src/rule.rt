// The rule of a cell: its words, its slot, and what each seat knows. It is stated in specs/Rule.antt.

use crate::turned::{Named, Turned};
use atomic_table::{Join, Play, Seat, Split, TableRule};
use std::collections::LinkedList;
use std::marker::PhantomData;
use std::snapshot::Snapshot;

/// With what a cell was made.
#[derive(Drop)]
pub struct Opening<S> {
    pub state: Snapshot<S>,
    pub passes: u32,
}

/// Where a pass is: outside, waiting with a ticket, or in its turn.
pub enum Stage {
    Away,
    Waits(u64),
    Turns(u64),
}

/// What is left of a pass that another took in.
pub struct Past<E> {
    pub number: u64,
    pub seen: LinkedList<(u64, E)>,
    pub mine: LinkedList<E>,
    pub sights: LinkedList<LinkedList<(u64, E)>>,
}

/// What a seat knows. No value of it is made.
pub struct View<A, E> {
    /// Whether it is a pass, which has the number below.
    pub live: bool,
    pub number: u64,
    /// Of the first pass: how many passes there are so far. Of all others 0.
    pub made: u64,
    pub about: Option<A>,
    pub seen: LinkedList<(u64, E)>,
    pub mine: LinkedList<E>,
    /// What it saw at each of its looks.
    pub sights: LinkedList<LinkedList<(u64, E)>>,
    pub stage: Stage,
    /// The passes that it took in.
    pub gathered: LinkedList<Past<E>>,
}

pub(crate) type Place<S> = Seat<Option<S>, View<Opening<S>, <S as Turned>::Entry>>;

/// The word of tickets, from which each pass draws the next one.
pub(crate) const NEXT: usize = 0;

/// The word of the ticket whose turn it is.
pub(crate) const SERVING: usize = 1;

/// The first of the words that threads sleep on. There are 16, one for the tickets of each remainder,
/// so that the end of a turn wakes no others than those whose turn may have come.
pub(crate) const FIRST_BED: usize = 2;

/// The word that counts the entries of the history. It stands in a cache line of its own among those
/// that each turn writes, and stops at the greatest number.
pub(crate) const NEWS: usize = 18;

pub struct Law;

impl<S: Turned> TableRule<Option<S>, View<Opening<S>, S::Entry>, Opening<S>> for Law {
    ghost use Rattle.turn_cell.specs.Rule.{Kept, newcomer};
    ghost use Rattle.std.specs.Prelude.{Some, []};

    ghost holds = { λ _. Kept S.stands S.fixed };

    ghost first = { λ opening. newcomer 0 1 (Some opening) [] };
}

pub(crate) struct Draw;

impl<S: Turned> Play<Option<S>, View<Opening<S>, S::Entry>> for Draw {
    ghost use Rattle.turn_cell.specs.Rule.{drew};

    ghost then = { drew };
}

pub(crate) struct Look;

impl<S: Turned> Play<Option<S>, View<Opening<S>, S::Entry>> for Look {
    ghost use Rattle.turn_cell.specs.Rule.{looked};

    ghost then = { looked S.stands S.fixed };
}

pub(crate) struct Count;

impl<S: Turned> Play<Option<S>, View<Opening<S>, S::Entry>> for Count {
    ghost use Rattle.turn_cell.specs.Rule.{counted};

    ghost then = { counted };
}

pub(crate) struct Glance;

impl<S: Turned> Play<Option<S>, View<Opening<S>, S::Entry>> for Glance {
    ghost use Rattle.turn_cell.specs.Rule.{glanced};

    ghost then = { glanced };
}

pub(crate) struct Enter<E> {
    entry: PhantomData<E>,
}

impl<S: Turned, E: Named<S::Entry>> Play<Option<S>, View<Opening<S>, S::Entry>> for Enter<E> {
    ghost use Rattle.turn_cell.specs.Rule.{entered};

    ghost then = { entered E.entry };
}

pub(crate) struct Leave;

impl<S: Turned> Play<Option<S>, View<Opening<S>, S::Entry>> for Leave {
    ghost use Rattle.turn_cell.specs.Rule.{left};

    ghost then = { left };
}

pub(crate) struct Stir;

impl<S: Turned> Play<Option<S>, View<Opening<S>, S::Entry>> for Stir {
    ghost use Rattle.turn_cell.specs.Rule.{stirred};

    ghost then = { stirred };
}

pub(crate) struct Meet;

impl<S: Turned> Play<Option<S>, View<Opening<S>, S::Entry>> for Meet {
    ghost use Rattle.turn_cell.specs.Rule.{met};

    ghost then = { met };
}

pub(crate) struct Another;

impl<A, E> Split<View<A, E>> for Another {
    ghost use Rattle.turn_cell.specs.Rule.{maker, newcomer};

    ghost left = { maker };

    ghost right = { λ v. newcomer v.made 0 v.about v.seen };
}

// A pass lays off all that it knows.
pub(crate) struct LayOff;

impl<A, E> Split<View<A, E>> for LayOff {
    ghost use Rattle.turn_cell.specs.Rule.{spent};

    ghost left = { λ _. spent };

    ghost right = { λ v. v };
}

// A pass takes in another.
pub(crate) struct Gather;

impl<A, E> Join<View<A, E>> for Gather {
    ghost use Rattle.turn_cell.specs.Rule.{gathers, spent};

    ghost both = { gathers };

    ghost spent = { spent };
}

// A pass releases the one that it took in last.
pub(crate) struct Release;

impl<A, E> Split<View<A, E>> for Release {
    ghost use Rattle.turn_cell.specs.Rule.{gathering, released, but_first};

    ghost left = { λ v. gathering v (but_first v.gathered) };

    ghost right = { λ v. released v.about v.seen v.gathered };
}
