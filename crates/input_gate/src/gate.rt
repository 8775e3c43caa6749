// What a task takes from.
ghost use Rattle.std.specs.Prelude.{◌≡◌, ◌<◌, ℕ, Err};
ghost use Rattle.channel_cut.specs.Cuts.{Cut};
ghost use Rattle.gate_account.specs.Accounts.{Account, IsBlocked, Keeps, Resumed};
ghost use Rattle.input_gate.specs.Gates.{Gave};
ghost use Rattle.input_gate.specs.declared.gate.GateEnd.TheVariants.{Stopped};

use flow_defs::{BarrierKind, Bytes};
use std::sync::Wait;

/// What a gate gives of its channels. Channels are counted from 0.
#[derive(Debug, Drop)]
pub enum GateItem {
    Line {
        channel: u32,
        line: Bytes,
    },
    /// Checkpoint barrier k, which counts from 1.
    Barrier {
        channel: u32,
        k: u64,
        kind: BarrierKind,
    },
    /// The end of each channel came, and nothing is left to give.
    AllEnded,
}

/// Why a gate gives nothing more.
#[derive(Clone, Copy, Debug, PartialEq, Eq)]
pub enum GateEnd {
    /// Another worker had met a fault before.
    Stopped,
    Memory,
    /// What is left of a channel begins with a length that is no record's.
    TooLong { channel: u32, len: u32 },
    /// A channel ended in the middle of a record, of which `len` bytes came.
    Left { channel: u32, len: u32 },
}

/// Many channels, from which one task takes lines and barriers, as by Flink's input gates.
///
/// After an `Err` nothing more is asked of it.
pub trait Gate {
    /// What it is a gate of. No call changes it.
    type Ends;

    ghost ends: { Self → Self.Ends };

    /// What it has given so far.
    ghost account: { Self → Account };

    /// By which cuts its channels were cut. What was shown is shown still.
    ghost shows: { Self → ℕ → Cut → Type 0 };

    /// It has seen an entry in the stop cell.
    ghost saw_stop: { Self → Type 0 };

    /// Gives what is next: a line or a barrier of one of the channels, or that all have ended. It waits
    /// until there is such. With `hold` no barrier of a channel is given that has given as many as any.
    fn next<R: Wait>(&mut self, rt: &R, hold: bool) -> Result<GateItem, GateEnd>
        ensures same { (ends self.new ≡ ends self.old) × ((account self.new).channels ≡ (account self.old).channels) }
        ensures gave { Gave (account self.old) (account self.new) (shows self.new) hold result }
        ensures kept { Keeps (shows self.old) (shows self.new) }
        ensures stopped { result ≡ Err Stopped → saw_stop self.new };

    /// Lets a channel go on behind its inline barrier.
    fn resume<R: Wait>(&mut self, rt: &R, channel: u32)
        requires within { channel < (account self.old).channels }
        requires stopped { IsBlocked (account self.old) channel }
        ensures same { (ends self.new ≡ ends self.old) × ((account self.new).channels ≡ (account self.old).channels) }
        ensures resumed { Resumed (account self.old) (account self.new) channel }
        ensures kept { Keeps (shows self.old) (shows self.new) };
}
