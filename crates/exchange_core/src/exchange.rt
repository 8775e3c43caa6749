// Both ends of one connection.
ghost use Rattle.std.specs.Prelude.{◌≡◌, ◌*◌, ◌≤◌, true, false, length, IsErr, IfOk, IfErr};
ghost use Rattle.exchange_world.specs.Steps.{step, bare};
ghost use Rattle.exchange_world.specs.Worlds.{opened};
ghost use Rattle.script_text.specs.Scripts.{IsEvent, IsOpening};
ghost use Rattle.exchange_core.specs.Exchanges.{IsStartFault};

use crate::connection::Connection;
use crate::start_fault::StartFault;
use script_text::{Event, Reply};
use std::alloc::{AllocError, Global};
use std::marker::Model;
use std::sync::Wait;

/// Both ends of one connection, and the frames on the way between them.
///
/// An event takes time in proportion to what it puts, sends or gives; finding its channel takes a walk of
/// at most 16. It waits for no other thread, since no other has a pass of its pool.
#[derive(Drop)]
pub struct Exchange1 {
    connection: Connection,
    // A step met want of memory, and may have left a part of its event done.
    broken: bool,
}

impl Model for Exchange1 {
    ghost use Rattle.std.specs.Prelude.{◌≡◌, false};
    ghost use Rattle.exchange_core.specs.Exchanges.{Exchange, world_of, IsWhole};

    ghost Value = { Exchange };

    ghost view = { λ e. record { world = world_of e.connection; broken = e.broken } };

    ghost invariant = { λ e. e.broken ≡ false → IsWhole e.connection };
}

impl Exchange1 {
    /// Opens a connection of so many channels, with a pool of `total` segments of `size` bytes. The
    /// channels' exclusive buffers are taken, and each channel is requested with their credit.
    pub fn new<R: Wait>(
        rt: &R,
        alloc: Global,
        channels: u32,
        size: u32,
        total: u32,
    ) -> Result<Exchange1, StartFault>
        requires { IsOpening channels size total }
        ensures opened { IfOk result (λ e. (e.world ≡ opened channels size total) × (e.broken ≡ false)) }
        ensures fault { IfErr result (λ fault. IsStartFault channels total fault) }
        ensures enough { IfOk result (λ _. 4 * channels ≤ total) }
    {
        let need = 4 * channels;
        if total < need {
            return Err(StartFault::TooFew { need, have: total });
        }
        let connection = Connection::open(rt, alloc, channels, size, total)?;
        Ok(Exchange1 {
            connection,
            broken: false,
        })
    }

    /// Does what the event says, and replies. Where an earlier step met want of memory, so does this one.
    pub fn step<R: Wait>(
        &mut self,
        rt: &R,
        alloc: Global,
        event: Event,
    ) -> Result<Reply, AllocError>
        requires { IsEvent (length self.old.world.lanes) event }
        ensures reply { IfOk result (λ reply. bare reply ≡ (step self.old.world event).1) }
        ensures world { IfOk result (λ _. (self.new.world ≡ (step self.old.world event).0) × (self.new.broken ≡ false)) }
        ensures err { IsErr result → self.new.broken ≡ true }
        ensures broken { self.old.broken ≡ true → IsErr result }
    {
        if self.broken {
            return Err(AllocError);
        }
        let reply = self.connection.act(rt, alloc, event);
        if reply.is_err() {
            self.broken = true;
        }
        reply
    }
}
