// The gate's end of a channel.
ghost use Rattle.std.specs.Prelude.{◌≡◌, ◌<◌, [], ◌∷◌, ◌++◌, false, length, None};
ghost use Rattle.turn_cell.specs.Passes.{IsPassOf, IsTurnOf, HasEntered, opened_with, mine, number, seen};
ghost use Rattle.input_channel.specs.declared.entry.ReceiveEntry.TheVariants.{Poll, Returned};
ghost use Rattle.input_channel.specs.Answers.{gave_of};
ghost use Rattle.input_channel.specs.Legal.{open_save, polled_with, returned};
ghost use Rattle.input_channel.specs.States.{ChannelStandsFor};
ghost use Rattle.conn_harness.specs.Inlets.{IsEven, HasLength};

use input_channel::laws::{answers_tell, channels_stand_for_histories, passes_tell};
use input_channel::{HeldBuf, InputChannel, Polled, ReceiveEntry};
use segment_pool::Segment;
use std::marker::Brand;
use std::sync::Wait;
use turn_cell::{Named, Pass, Turn, TurnCell};

// Ends the turn of a poll.
fn leave_polled<E: Named<ReceiveEntry>>(turn: Turn<InputChannel>, polled: &Polled)
    requires entry { E.entry ≡ Poll false (gave_of polled.now) }
    requires turn { IsTurnOf turn.cell.now turn.pass.now }
    requires state { ChannelStandsFor turn.state (seen turn.pass.now ++ (number turn.pass.now, Poll false (gave_of polled.now)) ∷ []) }
    requires size { turn.state.size ≡ (opened_with turn.cell.now).size }
    ensures pass { IsPassOf turn.entry.cell.now turn.exit.1.0.now }
    ensures entered { HasEntered (Poll false (gave_of polled.now)) turn.entry.pass.now turn.exit.1.0.now }
{
    // Only the clauses speak of it.
    let _polled = polled;
    turn.leave::<E>();
}

// Ends the turn in which a buffer came back.
fn leave_returned<E: Named<ReceiveEntry>>(turn: Turn<InputChannel>, exclusive: bool)
    requires entry { E.entry ≡ Returned exclusive }
    requires turn { IsTurnOf turn.cell.now turn.pass.now }
    requires state { ChannelStandsFor turn.state (seen turn.pass.now ++ (number turn.pass.now, Returned exclusive) ∷ []) }
    requires size { turn.state.size ≡ (opened_with turn.cell.now).size }
    ensures pass { IsPassOf turn.entry.cell.now turn.exit.1.0.now }
    ensures entered { HasEntered (Returned exclusive) turn.entry.pass.now turn.exit.1.0.now }
{
    let _exclusive = exclusive;
    turn.leave::<E>();
}

// Polls in a turn.
fn poll_in_turn<R: Wait>(
    rt: &R,
    cell: &TurnCell<InputChannel>,
    pass: &mut Pass<InputChannel>,
) -> Polled
    requires pass { IsPassOf cell.now pass.old × (number pass.old ≡ 0) }
    requires closed { open_save (mine pass.old) ≡ None }
    ensures pass { IsPassOf cell.now pass.new × (number pass.new ≡ 0) }
    ensures entered { mine pass.new ≡ mine pass.old ++ Poll false (gave_of result) ∷ [] }
    ensures size { HasLength (opened_with cell.now).size result }
{
    let mut turn = cell.enter(rt, pass);
    channels_stand_for_histories();
    answers_tell();
    let Ok(polled) = turn.state().poll(false) else {
        unreachable!()
    };
    leave_polled::<Brand>(turn, &polled);
    polled
}

// Gives a buffer back in a turn. Answers a segment that goes to the pool, and how many floating ones the
// channel wants.
fn return_in_turn<R: Wait>(
    rt: &R,
    cell: &TurnCell<InputChannel>,
    pass: &mut Pass<InputChannel>,
    buf: HeldBuf,
) -> (Option<Segment>, u32)
    requires pass { IsPassOf cell.now pass.old × (number pass.old ≡ 0) }
    requires size { length buf.segment ≡ (opened_with cell.now).size }
    requires out { returned buf.exclusive (mine pass.old) < polled_with buf.exclusive (mine pass.old) }
    ensures pass { IsPassOf cell.now pass.new × (number pass.new ≡ 0) }
    ensures entered { mine pass.new ≡ mine pass.old ++ Returned buf.exclusive ∷ [] }
{
    let exclusive = buf.exclusive;
    let mut turn = cell.enter(rt, pass);
    channels_stand_for_histories();
    passes_tell();
    let free = turn.state().recycle(buf);
    let wants = turn.state().wants();
    leave_returned::<Brand>(turn, exclusive);
    (free, wants)
}

// Adds a floating segment in a turn, or hands it back where it isn't wanted or has another length.
fn add_in_turn<R: Wait>(
    rt: &R,
    cell: &TurnCell<InputChannel>,
    pass: &mut Pass<InputChannel>,
    segment: Segment,
) -> Result<(), Segment>
    requires { IsPassOf cell.now pass.old × (number pass.old ≡ 0) }
    ensures pass { IsPassOf cell.now pass.new × (number pass.new ≡ 0) }
    ensures even { IsEven (mine pass.old) → IsEven (mine pass.new) }
    ensures closed { open_save (mine pass.old) ≡ None → open_save (mine pass.new) ≡ None }
{
    let mut turn = cell.enter(rt, pass);
    channels_stand_for_histories();
    if turn.state().wants() == 0 || turn.state().size() as usize != segment.bytes().len() {
        turn.leave_as_is();
        return Err(segment);
    }
    turn.state().add_floating(segment);
    turn.leave::<Brand>();
    Ok(())
}

/// What was taken from a channel.
#[derive(Drop)]
pub enum Taken {
    /// A buffer, which went back: its letter and its length, a segment for the pool, and how many the
    /// channel wants from there.
    Buffer {
        letter: u8,
        len: u32,
        free: Option<Segment>,
        wants: u32,
    },
    Nothing,
    End,
}

/// The gate's end of a channel. Between its turns all buffers that it polled have come back. It saves nothing.
#[derive(Drop)]
pub struct Inlet<'a> {
    cell: &'a TurnCell<InputChannel>,
    pass: Pass<InputChannel>,
    ghost of_cell: { IsPassOf cell.now pass },
    ghost of_gate: { number pass ≡ 0 },
    ghost even: { IsEven (mine pass) },
    ghost closed: { open_save (mine pass) ≡ None },
}

impl<'a> Inlet<'a> {
    /// An end from which nothing was polled.
    pub fn new(cell: &'a TurnCell<InputChannel>, pass: Pass<InputChannel>) -> Self
        requires { IsPassOf cell.now pass × (number pass ≡ 0) × (mine pass ≡ []) }
    {
        Inlet { cell, pass }
    }

    /// Polls once. A buffer is looked at and goes back.
    pub fn take<R: Wait>(self, rt: &R) -> (Inlet<'a>, Taken) {
        let Inlet { cell, mut pass } = self;
        match poll_in_turn(rt, cell, &mut pass) {
            Polled::Buffer(buf) => {
                let len = buf.len;
                let letter = buf.segment.bytes()[4];
                let (free, wants) = return_in_turn(rt, cell, &mut pass, buf);
                let taken = Taken::Buffer {
                    letter,
                    len,
                    free,
                    wants,
                };
                (Inlet { cell, pass }, taken)
            }
            Polled::End => (Inlet { cell, pass }, Taken::End),
            Polled::Empty => (Inlet { cell, pass }, Taken::Nothing),
            Polled::Held => (Inlet { cell, pass }, Taken::Nothing),
            Polled::Barrier { .. } => (Inlet { cell, pass }, Taken::Nothing),
        }
    }

    /// Adds a floating segment, or hands it back where it isn't wanted.
    pub fn add<R: Wait>(self, rt: &R, segment: Segment) -> (Inlet<'a>, Result<(), Segment>) {
        let Inlet { cell, mut pass } = self;
        let added = add_in_turn(rt, cell, &mut pass, segment);
        (Inlet { cell, pass }, added)
    }
}
