// What keeps an image from being stored.
ghost use Rattle.std.specs.Prelude.{◌≡◌, ◌<◌, ◌++◌, ◌↔◌, ℕ, [], length, IsTrue};
ghost use Rattle.flow_defs.specs.Jobs.{IsJob};
ghost use Rattle.plain_machine.specs.Places.{channels};
ghost use Rattle.plain_machine.specs.Images.{AreSpans, items_at};
ghost use Rattle.collector.specs.Faults.{IsFaultOf};

use flow_defs::{Bytes, Image, Job, PeerFault};
use plain_machine::laws;
use record_spans::are_records;

/// What keeps the image of a checkpoint from being stored: a record that is cut, and then anything that
/// is saved in a last image. The cost is in proportion to the number of records that are saved.
pub fn find_fault(job: &Job, image: &Image) -> Option<PeerFault>
    requires job { IsJob job.now }
    requires saved_in { length image.now.saved_in.items ≡ length (channels job.now) }
    requires saved_out { length image.now.saved_out.items ≡ length (channels job.now) }
    ensures { IsFaultOf job.now image.now result }
{
    laws::places_are_in_order();
    let pieces_in = image.saved_in.as_slice();
    let pieces_out = image.saved_out.as_slice();
    if !are_all_records(pieces_in, pieces_out) {
        return Some(PeerFault::Left);
    }
    if !image.final_one {
        return None;
    }
    if are_empty(pieces_in, pieces_out) {
        return None;
    }
    Some(PeerFault::Barrier)
}

// Whether the two pieces at each place together encode records.
fn are_all_records(pieces_in: &[Bytes], pieces_out: &[Bytes]) -> bool
    requires { length pieces_out.now ≡ length pieces_in.now }
    ensures { IsTrue result ↔ ((place : ℕ) → place < length pieces_in.now → AreSpans (items_at pieces_in.now place ++ items_at pieces_out.now place)) }
{
    for i in 0..pieces_in.len() {
        if !are_records(pieces_in[i].as_slice(), pieces_out[i].as_slice()) {
            return false;
        }
    }
    true
}

// Whether no piece has a byte.
fn are_empty(pieces_in: &[Bytes], pieces_out: &[Bytes]) -> bool
    requires { length pieces_out.now ≡ length pieces_in.now }
    ensures { IsTrue result ↔ ((place : ℕ) → place < length pieces_in.now → items_at pieces_in.now place ++ items_at pieces_out.now place ≡ []) }
{
    for i in 0..pieces_in.len() {
        if !has_none(pieces_in[i].as_slice(), pieces_out[i].as_slice()) {
            return false;
        }
    }
    true
}

// Whether two pieces have no byte.
fn has_none(first: &[u8], second: &[u8]) -> bool
    ensures { IsTrue result ↔ (first.now ++ second.now ≡ []) }
{
    first.len() + second.len() == 0
}
