// A connection, and which event goes where.
// What a sound world rules out, as a frame that an end refuses, has no code: it is proved not to come.
ghost use Rattle.std.specs.Prelude.{◌≡◌, ◌*◌, ◌≤◌, length, IfOk};
ghost use Rattle.exchange_world.specs.Worlds.{opened};
ghost use Rattle.exchange_world.specs.Steps.{step, bare};
ghost use Rattle.script_text.specs.Scripts.{IsEvent, IsOpening};
ghost use Rattle.exchange_core.specs.Exchanges.{IsWhole, world_of, HasActed};

use crate::frames::{ControlFrame, DataFrame};
use crate::lane::Lane;
use credit_reader::Readers;
use exchange_world::laws::connections_stay_sound;
use flow_defs::ListOf;
use local_pool::LocalPool;
use script_text::{Event, Reply};
use segment_pool::Pool;
use std::alloc::{AllocError, Global};
use std::collections::VecDeque;
use std::sync::Wait;

/// Both ends of a connection, and what is on the way between them.
#[derive(Drop)]
pub struct Connection {
    pub(crate) pool: Pool,
    pub(crate) lanes: ListOf<Lane>,
    pub(crate) gate: LocalPool,
    pub(crate) readers: Readers,
    pub(crate) frames: VecDeque<DataFrame>,
    pub(crate) controls: VecDeque<ControlFrame>,
    pub(crate) size: u32,
    pub(crate) total: u32,
    // How many segments each channel's partition pool may lend.
    pub(crate) partition_limit: u32,
}

impl Connection {
    // Does what the event says, and replies. After want of memory a part of it may be done.
    pub(crate) fn act<R: Wait>(
        &mut self,
        rt: &R,
        alloc: Global,
        event: Event,
    ) -> Result<Reply, AllocError>
        requires whole { IsWhole self.old }
        requires event { IsEvent (length self.old.lanes.items) event }
        ensures { IfOk result (λ reply. HasActed self.old self.new reply (step (world_of self.old) event)) }
    {
        connections_stay_sound();
        match event {
            Event::Emit { c, text } => Ok(self.emit(rt, c, text.as_slice())),
            Event::Fill { c, n } => {
                let text = vec![in alloc; b'a'; n as usize]?;
                Ok(self.emit(rt, c, &text))
            }
            Event::Barrier { c, k, kind } => self.put_barrier(alloc, c, k, kind),
            Event::Finish { c } => Ok(self.finish(c)),
            Event::Send => self.send(rt, alloc),
            Event::Announce => self.announce(),
            Event::Deliver => self.deliver(rt),
            Event::Credit { c } => self.announce_credit(c),
            Event::Resume { c } => self.resume(c),
            Event::Control => Ok(self.obey()),
            Event::Poll { c } => self.poll(rt, alloc, c, false),
            Event::Hold { c } => self.poll(rt, alloc, c, true),
            Event::Save { c, k } => self.save(alloc, c, k),
            Event::Saved { c, k } => self.tell_saved(alloc, c, k),
            Event::Pool => Ok(self.count()),
        }
    }
}
