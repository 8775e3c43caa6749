// The law of a gate.
ghost use Rattle.std.specs.Prelude.{◌≡◌, ◌++◌, ℕ, true};
ghost use Rattle.std.specs.List.{AllByRecursion};
ghost use Rattle.flow_defs.specs.Parcels.{data_of, has_end};
ghost use Rattle.flow_defs.specs.Records.{all_encoded, IsShort};
ghost use Rattle.input_gate.specs.States.{account_in, given_at};

use crate::cell_gate::CellGate;

/// Of each channel, what was polled is the encodings of the lines given, and then what is left. Where its
/// end is told, that was polled. It does nothing.
pub fn lines_are_polled(gate: &CellGate<'_, '_>)
    ensures bytes { (c : ℕ) → data_of (given_at gate.now c) ≡ all_encoded ((account_in gate.now).lines c) ++ (account_in gate.now).left c }
    ensures ends { (c : ℕ) → (account_in gate.now).ended c ≡ true → has_end (given_at gate.now c) ≡ true }
    ensures short { (c : ℕ) → AllByRecursion IsShort ((account_in gate.now).lines c) }
{
    // Read so that what a gate keeps is known.
    let _start = gate.start;
}
