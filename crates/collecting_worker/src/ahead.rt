// Snapshots that came before their checkpoint.
ghost use Rattle.std.specs.Prelude.{◌≡◌, ℕ, ◌<◌, length, remove, slice_index_or, IfSome, IfNone};

use flow_defs::Snapshot;

// Takes the first snapshot with this number out, if there is one.
pub fn take_numbered(ahead: &mut Vec<Snapshot>, number: u64) -> Option<Snapshot>
    ensures some { IfSome result (λ x. (x.number ≡ number) × ((k : ℕ) × (k < length ahead.old.items) × (slice_index_or ahead.old.items k x ≡ x) × (ahead.new.items ≡ remove ahead.old.items k))) }
    ensures none { IfNone result (ahead.new ≡ ahead.old) }
{
    for i in 0..ahead.len() {
        if ahead[i].number == number {
            return Some(ahead.remove(i));
        }
    }
    None
}
