// The pools of a connection.
ghost use Rattle.std.specs.Prelude.{◌≡◌};
ghost use Rattle.segment_pool.specs.Pools.{IsLimited, size_of};
ghost use Rattle.local_pool.specs.Locals.{IsLocalOf, lent_of, limit_of};
ghost use Rattle.script_text.specs.declared.event.Event.TheVariants as events;
ghost use Rattle.exchange_world.specs.Lanes.{floating_here};
ghost use Rattle.exchange_world.specs.Steps.{step};
ghost use Rattle.exchange_core.specs.Exchanges.{IsWhole, world_of, HasActed};
ghost use Rattle.exchange_core.specs.Inlets.{with_floats, GateFollows};

use crate::connection::Connection;
use exchange_world::laws::sound_takes_and_lends;
use input_channel::InputChannel;
use local_pool::LocalPool;
use script_text::Reply;
use segment_pool::Pool;
use std::sync::Wait;

// A channel asks for floating buffers, and gets as many as it wants and the pool lends.
pub(crate) fn ask_floats<R: Wait>(
    rt: &R,
    pool: &Pool,
    gate: &mut LocalPool,
    inbox: &mut InputChannel,
)
    requires gate { IsLocalOf pool.now gate.old × IsLimited pool.now }
    requires size { inbox.old.size ≡ size_of pool.now }
    ensures gate { GateFollows pool.now gate.old gate.new (floating_here inbox.old) (floating_here inbox.new) }
    ensures inbox { inbox.new ≡ with_floats (limit_of gate.old) (lent_of gate.old) inbox.old }
{
    'asks: while inbox.wants() > 0 {
        let Some(segment) = gate.request(rt, pool) else {
            return;
        };
        inbox.add_floating(segment);
    }
}

impl Connection {
    // Counts the segments that the local pools have kept and lent, and those that are left.
    pub(crate) fn count(&self) -> Reply
        requires { IsWhole self.now }
        ensures { HasActed self.now self.now result (step (world_of self.now) events.Pool) }
    {
        sound_takes_and_lends();
        let mut lent = self.gate.kept() + self.gate.lent();
        for lane in self.lanes.as_slice() {
            lent += lane.partition.kept() + lane.partition.lent();
        }
        Reply::Pool {
            free: self.total - lent,
            lent,
        }
    }
}
