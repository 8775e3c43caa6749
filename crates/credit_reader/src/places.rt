// Readers by their places.
ghost use Rattle.std.specs.Prelude.{◌≡◌, ◌<◌, ◌≤◌, None, Some, true, false, [], ◌∷◌, ◌++◌, length, drop, position, All, slice_get, if◌then◌else◌, IfNone, IfSome};
ghost use Rattle.circular_buffer.specs.Buffer.{buffer};
ghost use Rattle.credit_reader.specs.Readers.{can_send, is_due};
ghost use Rattle.credit_reader.specs.Senders.{is_same, reader_of};
ghost use Rattle.credit_reader.specs.Answers.{due_first};
ghost use Rattle.credit_reader.specs.Places.{passed, places_after, put_at, turned_at, IsFound, Fits};

use crate::{Reader, Readers};
use circular_buffer::HeapCircularBuffer;
use flow_defs::ChannelId;

// A reader and its place.
#[derive(Clone, Copy)]
pub struct Found {
    pub place: usize,
    pub reader: Reader,
}

impl Readers {
    // The reader of a channel.
    pub(crate) fn find(&self, channel: ChannelId) -> Option<Found>
        ensures found { IfSome result (λ found. IsFound self.now channel found) }
        ensures none { IfNone result (reader_of channel self.now.readers ≡ None) }
    {
        let place = place_of(&self.all, channel)?;
        Some(Found {
            place,
            reader: self.all[place],
        })
    }

    // The first reader whose backlog is to be announced.
    pub(crate) fn find_due(&self) -> Option<Found>
        ensures found { IfSome result (λ found. IsFound self.now found.reader.channel found) }
        ensures first { IfSome result (λ found. due_first self.now ≡ Some found.reader) }
        ensures waits { IfSome result (λ found. 1 ≤ found.reader.backlog) }
        ensures none { IfNone result (due_first self.now ≡ None) }
    {
        let place = place_due(&self.all)?;
        Some(Found {
            place,
            reader: self.all[place],
        })
    }

    // The reader that is first in the queue.
    pub(crate) fn first(&self) -> Option<Found>
        ensures found { IfSome result (λ found. IsFound self.now found.reader.channel found) }
        ensures first { IfSome result (λ found. slice_get self.now.queue 0 ≡ Some found.reader.channel) }
        ensures can { IfSome result (λ found. can_send found.reader ≡ true) }
        ensures none { IfNone result (slice_get self.now.queue 0 ≡ None) }
        ensures nobody { IfNone result (All (λ r. can_send r ≡ false) self.now.readers) }
    {
        let place = *self.able.front()?;
        Some(Found {
            place,
            reader: self.all[place],
        })
    }

    // Puts another reader in the place of one of the same channel.
    pub(crate) fn put(&mut self, place: usize, reader: Reader)
        requires { Fits self.old place reader }
        ensures { self.new ≡ put_at place reader self.old }
    {
        let was = self.all[place].can_send();
        self.all[place] = reader;
        requeue(&mut self.able, place, was, reader.can_send());
    }

    // Puts another reader in the place of the one that is first in the queue, and ends its turn.
    pub(crate) fn turn(&mut self, place: usize, reader: Reader)
        requires fits { Fits self.old place reader }
        requires first { slice_get self.old.queue 0 ≡ Some reader.channel }
        ensures { self.new ≡ turned_at place reader self.old }
    {
        self.all[place] = reader;
        rotate(&mut self.able, place, reader.can_send());
    }
}

// The place of the first reader of a channel.
fn place_of(readers: &[Reader], channel: ChannelId) -> Option<usize>
    ensures { result ≡ position (λ r. is_same r.channel channel) readers.now }
{
    readers.iter().position(|reader| reader.channel == channel)
}

// The place of the first reader whose backlog is to be announced.
fn place_due(readers: &[Reader]) -> Option<usize>
    ensures { result ≡ position is_due readers.now }
{
    readers.iter().position(|reader| reader.is_due())
}

// What becomes of the queue where the reader at a place was able to send or not, and now is or isn't.
fn requeue(able: &mut HeapCircularBuffer<usize>, place: usize, was: bool, now: bool)
    requires fits { length able.old.items ≤ able.old.capacity }
    requires room { was ≡ false → now ≡ true → length able.old.items < able.old.capacity }
    ensures { able.new ≡ buffer (places_after place was now able.old.items) able.old.capacity }
{
    if was && !now {
        leave(able, place);
    } else if now && !was {
        join(able, place);
    }
}

// Adds a place at the back of the queue.
fn join(able: &mut HeapCircularBuffer<usize>, place: usize)
    requires { length able.old.items < able.old.capacity }
    ensures { able.new ≡ buffer (able.old.items ++ place ∷ []) able.old.capacity }
{
    able.push_back(place);
}

// Takes a place out of the queue, by one round of the ring: the rarest case.
fn leave(able: &mut HeapCircularBuffer<usize>, place: usize)
    requires { length able.old.items ≤ able.old.capacity }
    ensures { able.new ≡ buffer (places_after place true false able.old.items) able.old.capacity }
{
    for _turn in 0..able.len() {
        pass(able, place);
    }
}

// Takes the first place of the queue to the back, or out if it is this one.
fn pass(able: &mut HeapCircularBuffer<usize>, place: usize)
    requires { length able.old.items ≤ able.old.capacity }
    ensures { able.new ≡ buffer (passed place able.old.items) able.old.capacity }
{
    if let Some(other) = able.pop_front() {
        if other != place {
            join(able, other);
        }
    }
}

// Takes the first place out of the queue, and adds it at the back if it can send on.
fn rotate(able: &mut HeapCircularBuffer<usize>, first: usize, now: bool)
    requires fits { length able.old.items ≤ able.old.capacity }
    requires first { slice_get able.old.items 0 ≡ Some first }
    ensures { able.new ≡ buffer (drop 1 able.old.items ++ (if now then first ∷ [] else [])) able.old.capacity }
{
    able.pop_front();
    if now {
        join(able, first);
    }
}
