// What happens at the sending end.
ghost use Rattle.std.specs.Prelude.{◌≡◌, ◌+◌, ◌≤◌, length, IsSome, IfOk};
ghost use Rattle.flow_defs.specs.Limits.{record_max};
ghost use Rattle.flow_defs.specs.Records.{encoded};
ghost use Rattle.credit_reader.specs.Readers.{Ready};
ghost use Rattle.credit_reader.specs.Senders.{reader_of, happened};
ghost use Rattle.credit_reader.specs.Answers.{due_first};
ghost use Rattle.script_text.specs.Scripts.{IsChannel};
ghost use Rattle.exchange_world.specs.Lanes.{channel_id, head_in, backlog_in};
ghost use Rattle.exchange_world.specs.Sound.{IsSound};
ghost use Rattle.exchange_world.specs.Steps.{pieces, emits, bars, finishes, sends_of, announces, obeys};
ghost use Rattle.exchange_core.specs.Exchanges.{IsWhole, world_of, world_lane, HasActed};

use crate::connection::Connection;
use crate::frames::{ControlFrame, DataFrame};
use crate::lane::{Lane, put_barrier, put_record, take_item};
use credit_reader::{Readers, Told};
use exchange_world::laws::{connections_stay_sound, sound_has_turns, sound_takes_and_lends};
use flow_defs::{BarrierKind, ChannelId};
use script_text::Reply;
use std::alloc::{AllocError, Global};
use std::sync::Wait;

// The id of a channel, by its number from 1 on.
pub(crate) fn channel_id(c: u32) -> ChannelId
    requires { 1 ≤ c }
    ensures { result ≡ channel_id c }
{
    ChannelId {
        edge: 0,
        from: c - 1,
        to: 0,
    }
}

// Tells the readers what stands first on a channel, and its backlog.
fn tell(readers: &mut Readers, lane: &Lane, c: u32)
    requires low { 1 ≤ c }
    requires known { IsSome (reader_of (channel_id c) readers.old.readers) }
    ensures { readers.new ≡ happened (channel_id c) (Ready (head_in (world_lane lane.now).items) (backlog_in (world_lane lane.now).items)) readers.old }
{
    readers.ready(channel_id(c), lane.queue.head(), lane.queue.backlog());
}

// How many buffers of `size` bytes a record takes. By this it is known whether the record fits before its
// first buffer is put.
fn count_buffers(text: &[u8], size: u32) -> u32
    requires short { length text.now ≤ record_max }
    requires size { 1 ≤ size }
    ensures count { result ≡ length (pieces size (encoded text.now)) }
    ensures most { result ≤ length text.now + 4 }
{
    (text.len() as u32 + 4).div_ceil(size)
}

impl Connection {
    // A record is put on a channel.
    pub(crate) fn emit<R: Wait>(&mut self, rt: &R, c: u32, text: &[u8]) -> Reply
        requires whole { IsWhole self.old }
        requires channel { IsChannel (length self.old.lanes.items) c }
        requires short { length text.now ≤ record_max }
        requires sound { IsSound (length self.old.lanes.items) (emits (world_of self.old) c text.now).0 }
        ensures { HasActed self.old self.new result (emits (world_of self.old) c text.now) }
    {
        let lane = &mut self.lanes.as_mut_slice()[c as usize - 1];
        if lane.finished {
            return Reply::Refused;
        }
        let buffers = count_buffers(text, self.size);
        // Each data buffer that waits to be sent is one that the partition's pool has lent.
        let n = lane.partition.lent() + buffers;
        if n > self.partition_limit || lane.queue.spare() < buffers {
            return Reply::Full;
        }
        put_record(rt, &self.pool, lane, self.partition_limit, text);
        tell(&mut self.readers, lane, c);
        Reply::Queued { c, n }
    }

    // A barrier is put on a channel.
    pub(crate) fn put_barrier(
        &mut self,
        alloc: Global,
        c: u32,
        k: u64,
        kind: BarrierKind,
    ) -> Result<Reply, AllocError>
        requires whole { IsWhole self.old }
        requires channel { IsChannel (length self.old.lanes.items) c }
        ensures { IfOk result (λ reply. HasActed self.old self.new reply (bars (world_of self.old) c k kind)) }
    {
        connections_stay_sound();
        let lane = &mut self.lanes.as_mut_slice()[c as usize - 1];
        if lane.finished || k.checked_sub(1) != Some(lane.barriers) {
            return Ok(Reply::Refused);
        }
        if lane.queue.spare() == 0 {
            return Ok(Reply::Full);
        }
        let reply = put_barrier(alloc, lane, c, k, kind)?;
        tell(&mut self.readers, lane, c);
        Ok(reply)
    }

    // The end is put on a channel.
    pub(crate) fn finish(&mut self, c: u32) -> Reply
        requires whole { IsWhole self.old }
        requires channel { IsChannel (length self.old.lanes.items) c }
        ensures { HasActed self.old self.new result (finishes (world_of self.old) c) }
    {
        connections_stay_sound();
        let lane = &mut self.lanes.as_mut_slice()[c as usize - 1];
        if lane.finished {
            return Reply::Refused;
        }
        if lane.queue.spare() == 0 {
            return Reply::Full;
        }
        lane.queue.finish();
        lane.finished = true;
        tell(&mut self.readers, lane, c);
        Reply::Done
    }

    // The first reader of the queue sends one item.
    pub(crate) fn send<R: Wait>(&mut self, rt: &R, alloc: Global) -> Result<Reply, AllocError>
        requires { IsWhole self.old }
        ensures { IfOk result (λ reply. HasActed self.old self.new reply (sends_of (world_of self.old) self.old.readers.queue)) }
    {
        connections_stay_sound();
        sound_has_turns();
        let Some(channel) = self.readers.next() else {
            return Ok(Reply::Nothing);
        };
        let c = channel.from + 1;
        let lane = &mut self.lanes.as_mut_slice()[channel.from as usize];
        let sent = take_item(rt, alloc, &self.pool, lane, self.partition_limit)?;
        let (head, backlog) = (lane.queue.head(), lane.queue.backlog());
        let sequence = self.readers.sent(channel, sent.kind, head, backlog);
        let reply = Reply::Frame {
            c,
            sequence,
            what: sent.kind,
            len: sent.len,
            backlog,
        };
        self.frames.push_back(DataFrame::Response {
            c,
            sequence,
            backlog,
            what: sent.what,
            content: sent.content,
        })?;
        Ok(reply)
    }

    // A backlog that is due is announced.
    pub(crate) fn announce(&mut self) -> Result<Reply, AllocError>
        requires { IsWhole self.old }
        ensures { IfOk result (λ reply. HasActed self.old self.new reply (announces (world_of self.old) (due_first self.old.readers))) }
    {
        connections_stay_sound();
        sound_has_turns();
        let Some(Told { channel, backlog }) = self.readers.announce() else {
            return Ok(Reply::Nothing);
        };
        let c = channel.from + 1;
        self.frames
            .push_back(DataFrame::Announcement { c, n: backlog })?;
        Ok(Reply::Announced { c, n: backlog })
    }

    // The sending end obeys the first control frame.
    pub(crate) fn obey(&mut self) -> Reply
        requires { IsWhole self.old }
        ensures { HasActed self.old self.new result (obeys (world_of self.old) (world_of self.old).controls) }
    {
        connections_stay_sound();
        sound_takes_and_lends();
        match self.controls.pop_front() {
            None => Reply::Absent,
            Some(ControlFrame::AddCredit { c, n }) => {
                let Ok(()) = self.readers.add_credit(channel_id(c), n) else {
                    unreachable!()
                };
                Reply::Granted { c, n }
            }
            Some(ControlFrame::Resumption { c }) => {
                let Ok(()) = self.readers.resume(channel_id(c)) else {
                    unreachable!()
                };
                Reply::Resumed { c }
            }
        }
    }
}
