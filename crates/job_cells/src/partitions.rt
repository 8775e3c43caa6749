// The sending end of an edge.
ghost use Rattle.std.specs.Prelude.{◌≡◌, ◌<◌, [], All, length, IfOk, OnOk};
ghost use Rattle.segment_pool.specs.Stocks.{IsSize};
ghost use Rattle.job_cells.specs.Ends.{AreSent, HasWay};
ghost use Rattle.job_cells.specs.Groups.{AreDealt};
ghost use Rattle.job_cells.specs.Spans.{IsSpan, ways_out};

use crate::group::Group;
use crate::span::Span;
use flow_defs::ListOf;
use std::alloc::{AllocError, Global};
use subpartition::Subpartition;
use subpartition::laws::calls_add_entries;
use turn_cell::Pass;

// How many items a subpartition has room for.
const ITEMS_MAX: u32 = 32;

/// The subpartitions of an edge, with the passes of each sending task at its own.
#[derive(Drop)]
pub struct Partitions {
    pub group: Group<Subpartition>,
    pub senders: ListOf<ListOf<Pass<Subpartition>>>,
}

// So many empty lists.
fn lists_of(alloc: Global, many: u32) -> Result<ListOf<ListOf<Pass<Subpartition>>>, AllocError>
    ensures many { IfOk result (λ lists. length lists.items ≡ many) }
    ensures empty { IfOk result (λ lists. All (λ own. own.items ≡ []) lists.items) }
{
    let mut lists = ListOf::new(alloc);
    for _made in 0..many {
        lists.push(ListOf::new(alloc))?;
    }
    Ok(lists)
}

impl Partitions {
    // Gives a task a further channel.
    fn add(&mut self, alloc: Global, size: u32, task: u32) -> Result<(), AllocError>
        requires size { IsSize size }
        requires dealt { AreDealt self.old.group }
        requires task { task < length self.old.senders.items }
        ensures dealt { OnOk result (AreDealt self.new.group) }
        ensures way { OnOk result (HasWay task size self.old self.new) }
    {
        calls_add_entries();
        let state = Subpartition::new(alloc, size, ITEMS_MAX)?;
        let pass = self.group.add(alloc, state)?;
        self.senders.as_mut_slice()[task as usize].push(pass)?;
        Ok(())
    }
}

/// The subpartitions of an edge: in the order of their places, each sending task gets its first channel, and
/// then each its next one.
pub fn subpartitions_of(alloc: Global, span: Span, size: u32) -> Result<Partitions, AllocError>
    requires span { IsSpan span }
    requires size { IsSize size }
    ensures { IfOk result (AreSent span.senders (ways_out span) 0 size) }
{
    let mut ends = Partitions {
        group: Group::new(alloc),
        senders: lists_of(alloc, span.senders)?,
    };
    for _way in 0..span.ways_out() {
        for task in 0..span.senders {
            ends.add(alloc, size, task)?;
        }
    }
    Ok(ends)
}
