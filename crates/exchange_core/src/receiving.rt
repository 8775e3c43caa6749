// What happens at the receiving end.
ghost use Rattle.std.specs.Prelude.{◌≡◌, ◌+◌, ◌-◌, ◌≤◌, ◌<◌, ◌^◌, true, ◌++◌, None, length, map, IfOk, OnOk};
ghost use Rattle.segment_pool.specs.Pools.{IsLimited, size_of};
ghost use Rattle.local_pool.specs.Locals.{IsLocalOf, lent_of, limit_of};
ghost use Rattle.input_channel.specs.declared.entry.ReceiveEntry.TheVariants as entries;
ghost use Rattle.input_channel.specs.Answers.{parcel_in, refused};
ghost use Rattle.input_channel.specs.Contents.{content};
ghost use Rattle.input_channel.specs.Inboxes.{poll_gives, waiting};
ghost use Rattle.input_channel.specs.States.{channel_next, exclusive_here, starts_waiting, AllowsSave};
ghost use Rattle.script_text.specs.Scripts.{IsChannel};
ghost use Rattle.exchange_world.specs.Lanes.{floating_here, records_in, behind_records};
ghost use Rattle.exchange_world.specs.Steps.{bare, delivers, credits, resumes, polls, is_no_save, saves, tells_saved};
ghost use Rattle.exchange_core.specs.Exchanges.{IsWhole, world_lane, world_of, HasActed};
ghost use Rattle.exchange_core.specs.Inlets.{GateFollows, with_floats, with_inbox, with_save, floating_out, lent_then, polled_inbox, polled_rest, polled_reply};

use crate::connection::Connection;
use crate::frames::{ControlFrame, DataFrame};
use crate::lane::{Lane, records_of};
use crate::pools::ask_floats;
use exchange_world::laws::{connections_stay_sound, sound_takes_and_lends};
use flow_defs::{BarrierKind, Bytes, ListOf};
use input_channel::{AcceptFault, Arrival, HeldBuf, InputChannel, Polled};
use local_pool::LocalPool;
use script_text::Reply;
use segment_pool::Pool;
use std::alloc::{AllocError, Global};
use std::sync::Wait;

// A channel takes what arrived, and asks for floating buffers.
fn take_arrival<R: Wait>(
    rt: &R,
    pool: &Pool,
    gate: &mut LocalPool,
    inbox: &mut InputChannel,
    a: Arrival,
    bytes: &[u8],
) -> Result<(), AllocError>
    requires gate { IsLocalOf pool.now gate.old × IsLimited pool.now }
    requires size { inbox.old.size ≡ size_of pool.now }
    requires accepted { refused inbox.old a bytes.now ≡ None }
    requires backlog { a.backlog < 2 ^ 31 }
    ensures gate { OnOk result (GateFollows pool.now gate.old gate.new (floating_here (channel_next inbox.old (entries.Push (parcel_in a.what bytes.now) a.backlog))) (floating_here inbox.new)) }
    ensures inbox { OnOk result (inbox.new ≡ with_floats (limit_of gate.old) (lent_of gate.old) (channel_next inbox.old (entries.Push (parcel_in a.what bytes.now) a.backlog))) }
{
    match inbox.accept(a, bytes) {
        Ok(()) => {}
        Err(AcceptFault::Memory) => return Err(AllocError),
        Err(_) => unreachable!(),
    }
    ask_floats(rt, pool, gate, inbox);
    Ok(())
}

// A buffer that was polled comes back, and a floating one goes to the gate's pool.
fn take_back<R: Wait>(
    rt: &R,
    pool: &Pool,
    gate: &mut LocalPool,
    inbox: &mut InputChannel,
    buf: HeldBuf,
)
    requires gate { IsLocalOf pool.now gate.old }
    requires size { (inbox.old.size ≡ size_of pool.now) × (length buf.segment ≡ inbox.old.size) }
    requires given { buf.exclusive ≡ true → exclusive_here inbox.old < 2 }
    requires lent { floating_here inbox.old + floating_out buf.exclusive ≤ lent_of gate.old }
    ensures gate { GateFollows pool.now gate.old gate.new (floating_here inbox.old + floating_out buf.exclusive) (floating_here inbox.new) }
    ensures inbox { inbox.new ≡ channel_next inbox.old (entries.Returned buf.exclusive) }
{
    if let Some(segment) = inbox.recycle(buf) {
        gate.give(rt, pool, segment);
    }
}

// Reads the records that end in a buffer.
fn read_buffer(alloc: Global, lane: &mut Lane, buf: &HeldBuf) -> Result<ListOf<Bytes>, AllocError>
    ensures records { IfOk result (λ records. map (λ r. r.items) records.items ≡ records_in (lane.old.reader ++ content buf.now)) }
    ensures lane { OnOk result (lane.new ≡ record lane.old { reader = behind_records (lane.old.reader ++ content buf.now) }) }
{
    lane.reader.feed(&buf.segment.bytes()[..buf.len as usize])?;
    records_of(alloc, &mut lane.reader)
}

// A channel of which an inline barrier was polled is resumed.
fn resume_lane(lane: &mut Lane)
    requires { (0 < lane.old.owed) × (lane.old.owed ≡ lane.old.inbox.owed) }
    ensures { lane.new ≡ with_inbox lane.old (channel_next (channel_next lane.old.inbox entries.Ask) entries.Resume) lane.old.reader }
{
    lane.inbox.ask_resume();
    lane.owed -= 1;
    lane.inbox.take_resume();
}

// One item of a channel is polled. A buffer is read and comes back, and the channel asks for floating ones.
fn poll_lane<R: Wait>(
    rt: &R,
    alloc: Global,
    pool: &Pool,
    gate: &mut LocalPool,
    lane: &mut Lane,
    c: u32,
    hold: bool,
) -> Result<Reply, AllocError>
    requires gate { IsLocalOf pool.now gate.old × IsLimited pool.now }
    requires size { lane.old.inbox.size ≡ size_of pool.now }
    requires owed { lane.old.owed ≡ lane.old.inbox.owed }
    requires few { lane.old.owed < 2 ^ 32 }
    requires line { (waiting lane.old.inbox.line ≡ lane.old.inbox.queue) × (starts_waiting lane.old.inbox.line ≡ true) }
    requires lent { floating_here lane.old.inbox ≤ lent_of gate.old }
    ensures gate { IfOk result (λ _. GateFollows pool.now gate.old gate.new (floating_here lane.old.inbox) (floating_here lane.new.inbox)) }
    ensures lane { IfOk result (λ _. lane.new ≡ with_inbox lane.old (polled_inbox (limit_of gate.old) (lent_of gate.old) hold lane.old.inbox (poll_gives hold lane.old.inbox.queue)) (polled_rest lane.old.reader (poll_gives hold lane.old.inbox.queue))) }
    ensures reply { IfOk result (λ reply. bare reply ≡ polled_reply c lane.old.inbox lane.old.reader (poll_gives hold lane.old.inbox.queue)) }
{
    match lane.inbox.poll(hold)? {
        Polled::Empty => Ok(Reply::Empty { c }),
        Polled::Held => Ok(Reply::Held { c }),
        Polled::End => Ok(Reply::End { c }),
        Polled::Barrier { k, kind } => {
            if let BarrierKind::Inline = kind {
                lane.owed += 1;
            }
            Ok(Reply::Barrier { c, k, kind })
        }
        Polled::Buffer(buf) => {
            let len = buf.len;
            let records = read_buffer(alloc, lane, &buf)?;
            take_back(rt, pool, gate, &mut lane.inbox, buf);
            ask_floats(rt, pool, gate, &mut lane.inbox);
            Ok(Reply::Data { c, len, records })
        }
    }
}

// Whether a save may not be opened for barrier k.
fn is_no_save(lane: &Lane, k: u64) -> bool
    requires number { 1 ≤ k }
    ensures { result ≡ is_no_save (world_lane lane.now) k }
{
    let inbox = &lane.inbox;
    let is_early = k - 1 > inbox.polled_barriers();
    let is_late = k <= inbox.reached();
    inbox.is_saving() || lane.saves.contains(&k) || is_early || is_late
}

// A save is opened for barrier k, with what the reader has of a record that isn't whole.
fn save_lane(alloc: Global, lane: &mut Lane, k: u64) -> Result<(), AllocError>
    requires may { AllowsSave lane.old.inbox k }
    ensures { OnOk result (lane.new ≡ with_save k lane.old) }
{
    lane.saves.insert(k)?;
    lane.inbox.save(alloc, k, lane.reader.rest())
}

impl Connection {
    // The first data frame comes to its channel, which then asks for floating buffers.
    pub(crate) fn deliver<R: Wait>(&mut self, rt: &R) -> Result<Reply, AllocError>
        requires { IsWhole self.old }
        ensures { IfOk result (λ reply. HasActed self.old self.new reply (delivers (world_of self.old) (world_of self.old).frames)) }
    {
        connections_stay_sound();
        sound_takes_and_lends();
        match self.frames.pop_front() {
            None => Ok(Reply::Absent),
            Some(
                DataFrame::Response {
                    c,
                    sequence,
                    backlog,
                    what,
                    content,
                },
            ) => {
                let lane = &mut self.lanes.as_mut_slice()[c as usize - 1];
                let arrival = Arrival {
                    sequence,
                    backlog,
                    what,
                };
                take_arrival(
                    rt,
                    &self.pool,
                    &mut self.gate,
                    &mut lane.inbox,
                    arrival,
                    content.as_slice(),
                )?;
                Ok(Reply::Accepted { c, sequence })
            }
            Some(DataFrame::Announcement { c, n }) => {
                let lane = &mut self.lanes.as_mut_slice()[c as usize - 1];
                lane.inbox.on_backlog(n);
                ask_floats(rt, &self.pool, &mut self.gate, &mut lane.inbox);
                Ok(Reply::Backlog { c, n })
            }
        }
    }

    // A channel's pending credit is announced.
    pub(crate) fn announce_credit(&mut self, c: u32) -> Result<Reply, AllocError>
        requires whole { IsWhole self.old }
        requires channel { IsChannel (length self.old.lanes.items) c }
        ensures { IfOk result (λ reply. HasActed self.old self.new reply (credits (world_of self.old) c)) }
    {
        connections_stay_sound();
        let lane = &mut self.lanes.as_mut_slice()[c as usize - 1];
        let n = lane.inbox.take_credit();
        if n == 0 {
            return Ok(Reply::Absent);
        }
        self.controls.push_back(ControlFrame::AddCredit { c, n })?;
        Ok(Reply::Credit { c, n })
    }

    // A channel of which an inline barrier was polled is resumed.
    pub(crate) fn resume(&mut self, c: u32) -> Result<Reply, AllocError>
        requires whole { IsWhole self.old }
        requires channel { IsChannel (length self.old.lanes.items) c }
        ensures { IfOk result (λ reply. HasActed self.old self.new reply (resumes (world_of self.old) c)) }
    {
        connections_stay_sound();
        let lane = &mut self.lanes.as_mut_slice()[c as usize - 1];
        if lane.owed == 0 {
            return Ok(Reply::Refused);
        }
        resume_lane(lane);
        self.controls.push_back(ControlFrame::Resumption { c })?;
        Ok(Reply::Done)
    }

    // One item of a channel is polled.
    pub(crate) fn poll<R: Wait>(
        &mut self,
        rt: &R,
        alloc: Global,
        c: u32,
        hold: bool,
    ) -> Result<Reply, AllocError>
        requires whole { IsWhole self.old }
        requires channel { IsChannel (length self.old.lanes.items) c }
        ensures { IfOk result (λ reply. HasActed self.old self.new reply (polls (world_of self.old) c hold)) }
    {
        connections_stay_sound();
        let lane = &mut self.lanes.as_mut_slice()[c as usize - 1];
        poll_lane(rt, alloc, &self.pool, &mut self.gate, lane, c, hold)
    }

    // A save is opened for a barrier, where it may be.
    pub(crate) fn save(&mut self, alloc: Global, c: u32, k: u64) -> Result<Reply, AllocError>
        requires whole { IsWhole self.old }
        requires channel { IsChannel (length self.old.lanes.items) c }
        requires number { 1 ≤ k }
        ensures { IfOk result (λ reply. HasActed self.old self.new reply (saves (world_of self.old) c k)) }
    {
        connections_stay_sound();
        let lane = &mut self.lanes.as_mut_slice()[c as usize - 1];
        if is_no_save(lane, k) {
            return Ok(Reply::Refused);
        }
        save_lane(alloc, lane, k)?;
        Ok(Reply::Done)
    }

    // What was saved for a barrier is told, once that has arrived.
    pub(crate) fn tell_saved(&mut self, alloc: Global, c: u32, k: u64) -> Result<Reply, AllocError>
        requires whole { IsWhole self.old }
        requires channel { IsChannel (length self.old.lanes.items) c }
        requires number { 1 ≤ k }
        ensures { IfOk result (λ reply. HasActed self.old self.new reply (tells_saved (world_of self.old) c k)) }
    {
        connections_stay_sound();
        let lane = &mut self.lanes.as_mut_slice()[c as usize - 1];
        if lane.inbox.open_number() != Some(k) {
            return Ok(Reply::Refused);
        }
        match lane.inbox.saved(alloc, k)? {
            Some(bytes) => Ok(Reply::SavedIn { c, k, bytes }),
            None => Ok(Reply::NotYet { c, k }),
        }
    }
}
