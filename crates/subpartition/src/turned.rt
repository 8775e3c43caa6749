// A subpartition as the state of a turn cell.

use crate::entry::SendEntry;
use crate::subpartition::Subpartition;
use std::marker::Brand;
use turn_cell::{Named, Turned};

impl Turned for Subpartition {
    ghost use Rattle.subpartition.specs.Standing.{QueueStandsFor};

    type Entry = SendEntry;

    type Fixed = u32;

    ghost stands = { λ subpartition history. QueueStandsFor subpartition history };

    ghost fixed = { λ subpartition. subpartition.size };
}

impl Named<SendEntry> for Brand {
    ghost use Rattle.subpartition.specs.declared.entry.SendEntry.TheVariants.{Take};

    ghost entry = { Take };
}
