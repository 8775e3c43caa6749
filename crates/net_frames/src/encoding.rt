// Lays frames down.
ghost use Rattle.std.specs.Prelude.{◌≡◌, ◌+◌, ◌≤◌, ◌∷◌, [], ◌++◌, length, IsOk, OnOk, OnErr};
ghost use Rattle.std.specs.Int.{w32, to_be_bytes};
ghost use Rattle.net_frames.specs.Frames.{
  u32,
  KeepsRanges,
  IsArrival,
  IsFrame,
  Fit,
  frame_kind,
  frame_len,
  numbers_len,
  channel_numbers,
  arrival_numbers,
  body_numbers,
  spelled,
  spelling,
};

use crate::{ArrivalKind2, Frame, MAGIC};
use flow_defs::{ChannelId, ListOf};
use std::alloc::AllocError;

/// Appends the spelling of a frame. `bytes` are the data of a buffer response of kind `Buffer`, and
/// empty otherwise: the number of a barrier is spelled from the frame itself.
///
/// It takes memory once at most, and copies the data once.
pub fn encode(frame: &Frame, bytes: &[u8], out: &mut ListOf<u8>) -> Result<(), AllocError>
    requires { KeepsRanges frame.now bytes.now }
    ensures ok { OnOk result (out.new.items ≡ out.old.items ++ spelling frame.now bytes.now) }
    ensures is_frame { OnOk result (IsFrame frame.now bytes.now) }
    ensures err { OnErr result (out.new.items ≡ out.old.items) }
    ensures succeeds { frame_len frame.now bytes.now ≤ out.old.room → IsOk result }
    ensures room { out.old.room ≤ out.new.room + frame_len frame.now bytes.now }
{
    let len = frame.head_len() + bytes.len();
    out.reserve(len)?;
    put_u32(out, len as u32);
    put_u32(out, MAGIC);
    put(out, &[frame.kind().id()]);
    put_body(out, frame, bytes);
    put(out, bytes);
    Ok(())
}

// Appends the numbers of a frame's body.
fn put_body(out: &mut ListOf<u8>, frame: &Frame, bytes: &[u8])
    requires range { KeepsRanges frame.now bytes.now }
    requires room { numbers_len (body_numbers frame.now bytes.now) ≤ out.old.room }
    ensures items { out.new.items ≡ out.old.items ++ spelled (body_numbers frame.now bytes.now) }
    ensures room { out.old.room ≤ out.new.room + numbers_len (body_numbers frame.now bytes.now) }
    ensures fits { Fit (body_numbers frame.now bytes.now) }
{
    match *frame {
        Frame::BufferResponse {
            channel,
            sequence,
            backlog,
            what,
        } => {
            put_channel(out, channel);
            put_u32(out, sequence);
            put_u32(out, backlog);
            put_arrival(out, what, bytes);
        }
        Frame::ErrorResponse { channel, code } => {
            put_channel(out, channel);
            put(out, &[code]);
        }
        Frame::PartitionRequest { channel, credit } => put_channel_and(out, channel, credit),
        Frame::Close => {}
        Frame::AddCredit { channel, credit } => put_channel_and(out, channel, credit),
        Frame::ResumeConsumption { channel } => put_channel(out, channel),
        Frame::BacklogAnnouncement { channel, backlog } => put_channel_and(out, channel, backlog),
        Frame::NewBufferSize { channel, size } => put_channel_and(out, channel, size),
    }
}

fn put_arrival(out: &mut ListOf<u8>, what: ArrivalKind2, bytes: &[u8])
    requires range { IsArrival what bytes.now }
    requires room { numbers_len (arrival_numbers what bytes.now) ≤ out.old.room }
    ensures items { out.new.items ≡ out.old.items ++ spelled (arrival_numbers what bytes.now) }
    ensures room { out.old.room ≤ out.new.room + numbers_len (arrival_numbers what bytes.now) }
    ensures fits { Fit (arrival_numbers what bytes.now) }
{
    match what {
        ArrivalKind2::Buffer => {
            put(out, &[0, 0]);
            put_u32(out, bytes.len() as u32);
        }
        ArrivalKind2::Inline { k } => {
            put(out, &[1, 0, 0, 0, 0, 8]);
            put(out, &k.to_be_bytes());
        }
        ArrivalKind2::Front { k } => {
            put(out, &[2, 0, 0, 0, 0, 8]);
            put(out, &k.to_be_bytes());
        }
        ArrivalKind2::End => put(out, &[3, 0, 0, 0, 0, 0]),
    }
}

// Appends a channel, and a number behind it.
fn put_channel_and(out: &mut ListOf<u8>, channel: ChannelId, number: u32)
    requires { 20 ≤ out.old.room }
    ensures items { out.new.items ≡ out.old.items ++ spelled (channel_numbers channel ++ u32 number ∷ []) }
    ensures room { out.old.room ≤ out.new.room + 20 }
    ensures fits { Fit (channel_numbers channel ++ u32 number ∷ []) }
{
    put_channel(out, channel);
    put_u32(out, number);
}

fn put_channel(out: &mut ListOf<u8>, channel: ChannelId)
    requires { 16 ≤ out.old.room }
    ensures items { out.new.items ≡ out.old.items ++ spelled (channel_numbers channel) }
    ensures room { out.old.room ≤ out.new.room + 16 }
    ensures fits { Fit (channel_numbers channel) }
{
    put_u32(out, channel.edge);
    put_u32(out, channel.from);
    put_u32(out, channel.to);
    put_u32(out, 0);
}

// Appends a number, its highest byte first.
fn put_u32(out: &mut ListOf<u8>, number: u32)
    requires { 4 ≤ out.old.room }
    ensures items { out.new.items ≡ out.old.items ++ to_be_bytes w32 number }
    ensures room { out.old.room ≤ out.new.room + 4 }
{
    put(out, &number.to_be_bytes());
}

// Appends bytes for which there is room.
fn put(out: &mut ListOf<u8>, bytes: &[u8])
    requires { length bytes.now ≤ out.old.room }
    ensures items { out.new.items ≡ out.old.items ++ bytes.now }
    ensures room { out.old.room ≤ out.new.room + length bytes.now }
{
    match out.extend(bytes) {
        Ok(()) => {}
        Err(_) => unreachable!(),
    }
}
