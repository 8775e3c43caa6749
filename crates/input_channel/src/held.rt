// A buffer with data that a channel holds, or has given out.
ghost use Rattle.std.specs.Prelude.{◌≡◌, ◌≤◌, ◌++◌, length, take, drop};

use segment_pool::Segment;

/// A buffer of a channel with data in it. It comes from `poll`, and goes back by `recycle`.
#[derive(Drop)]
pub struct HeldBuf {
    pub segment: Segment,
    /// The data are the first `len` bytes of the segment.
    pub len: u32,
    /// Whether it is one of the two buffers that belong to the channel. A floating one belongs to the
    /// pool of its gate.
    pub exclusive: bool,
    ghost fits: { len ≤ length segment },
}

// Puts bytes at the beginning of others.
fn put_first(whole: &mut [u8], bytes: &[u8])
    requires { length bytes.now ≤ length whole.old }
    ensures { whole.new ≡ bytes.now ++ drop (length bytes.now) whole.old }
{
    let len = bytes.len();
    whole[..len].copy_from_slice(bytes);
}

impl HeldBuf {
    ghost use Rattle.input_channel.specs.Contents.{content};

    // A buffer with these bytes in it.
    pub(crate) fn filled(mut segment: Segment, exclusive: bool, bytes: &[u8]) -> HeldBuf
        requires { length bytes.now ≤ length segment }
        ensures content { take result.len result.segment ≡ bytes.now }
        ensures size { length result.segment ≡ length segment }
        ensures kind { result.exclusive ≡ exclusive }
    {
        let len = bytes.len();
        put_first(segment.bytes_mut(), bytes);
        HeldBuf {
            segment,
            len: len as u32,
            exclusive,
        }
    }

    // The data in it.
    pub(crate) fn data(&self) -> &[u8]
        ensures { result.now ≡ content self.now }
    {
        &self.segment.bytes()[..self.len as usize]
    }
}
