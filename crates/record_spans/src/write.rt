// Lays a record's encoding down in one buffer after another.
ghost use Rattle.std.specs.Prelude.{◌≡◌, ◌+◌, ◌-◌, ◌≤◌, ◌++◌, length, min, take, drop};
ghost use Rattle.flow_defs.specs.Records.{encoded, length_bytes};
ghost use Rattle.flow_defs.specs.Limits.{record_max};

use flow_defs::RECORD_MAX;

/// Copies the encoding of `line` from its byte `done` on into the front of `room`, as much as fits,
/// and answers how many bytes that are. The encoding has four bytes more than the record.
///
/// It takes no memory. The cost is in proportion to what is copied.
pub fn write_span(line: &[u8], done: usize, room: &mut [u8]) -> usize
    requires short { length line.now ≤ record_max }
    requires within { done ≤ length line.now + 4 }
    ensures count { result ≡ min (length room.old) (length line.now + 4 - done) }
    ensures copied { room.new ≡ take result (drop done (encoded line.now)) ++ drop result room.old }
{
    if done >= 4 {
        return copy_front(&line[done - 4..], room);
    }
    let head = length_bytes(line.len() as u32);
    let first = copy_front(&head[done..], room);
    first + copy_front(line, &mut room[first..])
}

// A length as four bytes, the highest first.
#[tactic(auto, unfolding(flow_defs::specs::Records::length_bytes))]
fn length_bytes(len: u32) -> [u8; 4]
    ensures { result ≡ length_bytes len }
{
    len.to_be_bytes()
}

// Copies as much of `from` as fits into the front of `room`.
fn copy_front(from: &[u8], room: &mut [u8]) -> usize
    ensures count { result ≡ min (length room.old) (length from.now) }
    ensures copied { room.new ≡ take result from.now ++ drop result room.old }
{
    let count = room.len().min(from.len());
    room[..count].copy_from_slice(&from[..count]);
    count
}
