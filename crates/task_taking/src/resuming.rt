// Resumes the channels of a gate.
ghost use Rattle.std.specs.Prelude.{◌≡◌, ◌<◌, ℕ};
ghost use Rattle.gate_account.specs.Accounts.{IsBlocked, Keeps, ResumedAll};

use input_gate::Gate;
use std::sync::Wait;

/// Lets each channel of a gate go on behind the barrier at which it waits.
pub fn resume_each<G: Gate, R: Wait>(rt: &R, gate: &mut G, channels: u32)
    requires channels { channels ≡ (G.account gate.old).channels }
    requires stopped { (c : ℕ) → c < channels → IsBlocked (G.account gate.old) c }
    ensures same { (G.ends gate.new ≡ G.ends gate.old) × ((G.account gate.new).channels ≡ (G.account gate.old).channels) }
    ensures resumed { ResumedAll (G.account gate.old) (G.account gate.new) }
    ensures kept { Keeps (G.shows gate.old) (G.shows gate.new) }
{
    for channel in 0..channels {
        gate.resume(rt, channel);
    }
}
