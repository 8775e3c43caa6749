// The passes of an edge, by who gets them.
ghost use Rattle.std.specs.Prelude.{ℕ};
ghost use Rattle.flow_defs.specs.declared.job.Job.{Job};
ghost use Rattle.job_cells.specs.declared.edge.Edge.{Edge};
ghost use Rattle.job_cells.specs.Edges.{ArePassesOf, IsEdgeOf};
ghost use Rattle.job_deploy.specs.Sharing.{AreEndsOf};

use crate::loops::LoopPasses;
use crate::senders::Senders;
use crate::takers::Takers;
use job_cells::EdgePasses;

/// The passes of an edge: of the tasks before it and behind it, and of its loops.
#[derive(Drop)]
pub struct Ends<'p> {
    pub senders: Senders<'p>,
    pub takers: Takers<'p>,
    pub loops: LoopPasses<'p>,
}

/// These passes, by who gets them.
pub fn ends_of<'p>(passes: EdgePasses<'p>) -> Ends<'p>
    ensures { (job : Job) (e size : ℕ) (edge : Edge) → IsEdgeOf job e size edge → ArePassesOf job e edge passes.entry → AreEndsOf job e edge result }
{
    let EdgePasses {
        send_items,
        read_control,
        senders,
        takers,
        sizers,
        gates,
        pushers,
        tellers,
        task_partitions,
        loop_partitions,
        task_gates,
        loop_gates,
    } = passes;
    Ends {
        senders: Senders {
            own: senders,
            pools: task_partitions,
        },
        takers: Takers {
            own: gates,
            pools: task_gates,
        },
        loops: LoopPasses {
            send_items,
            read_control,
            takers,
            sizers,
            pushers,
            tellers,
            partitions: loop_partitions,
            gates: loop_gates,
        },
    }
}
