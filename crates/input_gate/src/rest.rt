// What is left of a channel where it holds no whole record.
ghost use Rattle.std.specs.Prelude.{◌≡◌, ◌≤◌, length, take, None};
ghost use Rattle.flow_defs.specs.Records.{first_record, length_bytes};
ghost use Rattle.record_spans.specs.Spans.{HasNoRecord};

use flow_defs::RECORD_MAX;

// The length at the front of an encoding.
#[tactic(auto, unfolding(flow_defs::specs::Records::length_bytes))]
fn front_length(bytes: &[u8]) -> u32
    requires { 4 ≤ length bytes.now }
    ensures { length_bytes result ≡ take 4 bytes.now }
{
    u32::from_be_bytes([bytes[0], bytes[1], bytes[2], bytes[3]])
}

/// The number of these bytes, of which no first record can be read.
pub(crate) fn rest_len(bytes: &[u8]) -> u32
    requires { HasNoRecord bytes.now }
    ensures len { result ≡ length bytes.now }
    ensures none { first_record bytes.now ≡ None }
{
    if bytes.len() < 4 {
        return bytes.len() as u32;
    }
    let len = front_length(bytes);
    if len as usize > RECORD_MAX {
        unreachable!()
    }
    if bytes.len() - 4 >= len as usize {
        unreachable!()
    }
    bytes.len() as u32
}
