// Frames on their way to a link.
ghost use Rattle.std.specs.Prelude.{◌≡◌, ◌+◌, ◌≤◌, ◌++◌, [], length, Some, true, IfOk, IfSome, IsTrue};
ghost use Rattle.net_frames.specs.Frames.{KeepsRanges, IsFrame, spelling};
ghost use Rattle.net_frames.specs.Limits.{frame_max};
ghost use Rattle.outside.specs.Links.{IsUnfinished};
ghost use Rattle.conn_parts.specs.declared.outgoing.TheConstants.{OUT_ROOM};
ghost use Rattle.conn_parts.specs.Messages.{closing};
ghost use Rattle.conn_parts.specs.Writing.{WrittenWhole};

use flow_defs::ListOf;
use net_frames::{Frame, LEN_MAX, encode};
use outside::{Failed, LinkOut};
use std::alloc::{AllocError, Global};
use std::marker::Model;
use std::sync::Wait;

/// How many bytes are gathered at most before they are written: two frames of the greatest length.
pub const OUT_ROOM: usize = 2 * LEN_MAX as usize;

// The closing frame: its length, the magic number and its id.
const CLOSING: [u8; 9] = [0, 0, 0, 9, 0xBA, 0xDC, 0x0F, 0xFE, 5];

/// Frames that are laid down and not written yet. As many as are ready go out in one write; after `new`
/// nothing takes memory.
#[derive(Drop)]
pub struct Outgoing {
    bytes: ListOf<u8>,
}

impl Model for Outgoing {
    ghost use Rattle.std.specs.Prelude.{◌+◌, ◌≤◌, ℕ, List, length};
    ghost use Rattle.std.specs.Coded.{coded_ℕ, coded_list};
    ghost use Rattle.conn_parts.specs.declared.outgoing.TheConstants.{OUT_ROOM};

    ghost Value = { List ℕ };

    ghost coded = { coded_list coded_ℕ };

    ghost view = { λ o. o.bytes.items };

    ghost invariant = { λ o. OUT_ROOM ≤ length o.bytes.items + o.bytes.room };
}

impl Outgoing {
    /// Nothing is laid down.
    pub fn new(alloc: Global) -> Result<Self, AllocError>
        ensures { IfOk result (λ outgoing. outgoing ≡ []) }
    {
        let mut bytes = ListOf::new(alloc);
        bytes.reserve(OUT_ROOM)?;
        Ok(Outgoing { bytes })
    }

    /// Whether a frame of any length fits.
    pub fn has_room(&self) -> bool
        ensures fits { IsTrue result → length self.now + frame_max ≤ OUT_ROOM }
        ensures full { length self.now + frame_max ≤ OUT_ROOM → IsTrue result }
    {
        self.bytes.as_slice().len() <= OUT_ROOM - LEN_MAX as usize
    }

    /// Lays a frame down.
    pub fn put(&mut self, frame: &Frame, content: &[u8])
        requires ranges { KeepsRanges frame.now content.now }
        requires room { length self.old + frame_max ≤ OUT_ROOM }
        ensures laid { self.new ≡ self.old ++ spelling frame.now content.now }
        ensures is_frame { IsFrame frame.now content.now }
    {
        let Ok(()) = encode(frame, content, &mut self.bytes) else {
            unreachable!()
        };
    }

    /// Writes all that was laid down.
    pub fn write_to<O: LinkOut, R: Wait>(&mut self, rt: &R, out: &mut O) -> Result<(), Failed>
        requires { IsUnfinished (O.finished out.old) }
        ensures unfinished { O.finished out.new ≡ O.finished out.old }
        ensures line { O.line out.new ≡ O.line out.old }
        ensures written { WrittenWhole (O.sent out.old) (O.sent out.new) (O.faults out.old) (O.faults out.new) self.old result }
        ensures never_falls { O.faults out.old ≤ O.faults out.new }
        ensures empty { self.new ≡ [] }
    {
        let written = write_whole(rt, out, self.bytes.as_slice());
        self.bytes.clear();
        written
    }
}

// Writes all bytes. A write that takes none is a failed one.
pub(crate) fn write_whole<O: LinkOut, R: Wait>(
    rt: &R,
    out: &mut O,
    bytes: &[u8],
) -> Result<(), Failed>
    requires { IsUnfinished (O.finished out.old) }
    ensures unfinished { O.finished out.new ≡ O.finished out.old }
    ensures line { O.line out.new ≡ O.line out.old }
    ensures written { WrittenWhole (O.sent out.old) (O.sent out.new) (O.faults out.old) (O.faults out.new) bytes.now result }
    ensures never_falls { O.faults out.old ≤ O.faults out.new }
{
    let mut from = 0;
    while from < bytes.len() {
        let count = out.write(rt, &bytes[from..])?;
        if count == 0 {
            return Err(Failed);
        }
        from += count;
    }
    Ok(())
}

/// Writes the closing frame, and finishes the link. It takes no memory.
pub fn close_link<O: LinkOut, R: Wait>(rt: &R, out: &mut O) -> Result<(), Failed>
    requires { IsUnfinished (O.finished out.old) }
    ensures finished { IfSome (O.finished out.old) (λ _. O.finished out.new ≡ Some true) }
    ensures line { O.line out.new ≡ O.line out.old }
    ensures written { WrittenWhole (O.sent out.old) (O.sent out.new) (O.faults out.old) (O.faults out.new) closing result }
    ensures never_falls { O.faults out.old ≤ O.faults out.new }
{
    let written = write_whole(rt, out, &CLOSING);
    out.finish(rt);
    written
}
