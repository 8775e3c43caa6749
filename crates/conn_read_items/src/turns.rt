// Turns of the loop at the cell of an input channel.
ghost use Rattle.std.specs.Prelude.{◌≡◌, ◌<◌, ◌^◌, [], ◌∷◌, ◌++◌, length, OnOk, IfErr, MatchOption};
ghost use Rattle.turn_cell.specs.Passes.{IsPassOf, IsTurnOf, HasEntered, opened_with, mine, number, seen};
ghost use Rattle.input_channel.specs.declared.entry.ReceiveEntry.TheVariants as entries;
ghost use Rattle.input_channel.specs.Answers.{parcel_in};
ghost use Rattle.input_channel.specs.States.{ChannelStandsFor};
ghost use Rattle.conn_read_items.specs.Turning.{WasRefusedWith};

use input_channel::laws::{answers_tell, channels_stand_for_histories};
use input_channel::{AcceptFault, Arrival, InputChannel, ReceiveEntry};
use segment_pool::Segment;
use std::marker::Brand;
use std::sync::Wait;
use turn_cell::{Named, Pass, Turn, TurnCell};

// Ends the turn in which this arrived.
fn leave_push<E: Named<ReceiveEntry>>(turn: Turn<InputChannel>, a: Arrival, bytes: &[u8])
    requires entry { E.entry ≡ entries.Push (parcel_in a.what bytes.now) a.backlog }
    requires turn { IsTurnOf turn.cell.now turn.pass.now }
    requires state { ChannelStandsFor turn.state (seen turn.pass.now ++ (number turn.pass.now, entries.Push (parcel_in a.what bytes.now) a.backlog) ∷ []) }
    requires size { turn.state.size ≡ (opened_with turn.cell.now).size }
    ensures pass { IsPassOf turn.entry.cell.now turn.exit.1.0.now }
    ensures entered { HasEntered (entries.Push (parcel_in a.what bytes.now) a.backlog) turn.entry.pass.now turn.exit.1.0.now }
{
    turn.leave::<E>();
}

// Ends the turn in which this backlog was announced.
fn leave_backlog<E: Named<ReceiveEntry>>(turn: Turn<InputChannel>, n: u32)
    requires entry { E.entry ≡ entries.Backlog n }
    requires turn { IsTurnOf turn.cell.now turn.pass.now }
    requires state { ChannelStandsFor turn.state (seen turn.pass.now ++ (number turn.pass.now, entries.Backlog n) ∷ []) }
    requires size { turn.state.size ≡ (opened_with turn.cell.now).size }
    ensures pass { IsPassOf turn.entry.cell.now turn.exit.1.0.now }
    ensures entered { HasEntered (entries.Backlog n) turn.entry.pass.now turn.exit.1.0.now }
{
    turn.leave::<E>();
}

/// Gives an arrival to its channel, and answers how many floating segments it then wants. A channel
/// that refuses data over its credit is shut in the same turn.
pub(crate) fn accept<R: Wait>(
    rt: &R,
    cell: &TurnCell<InputChannel>,
    pass: &mut Pass<InputChannel>,
    a: Arrival,
    bytes: &[u8],
) -> Result<u32, AcceptFault>
    requires pass { IsPassOf cell.now pass.old }
    requires reader { number pass.old ≡ 1 }
    requires backlog { a.backlog < 2 ^ 31 }
    ensures pass { IsPassOf cell.now pass.new × (number pass.new ≡ 1) }
    ensures accepted { OnOk result (mine pass.new ≡ mine pass.old ++ entries.Push (parcel_in a.what bytes.now) a.backlog ∷ []) }
    ensures refused { IfErr result (λ fault. WasRefusedWith (mine pass.old) (mine pass.new) (seen pass.new) a bytes.now fault) }
{
    let mut turn = cell.enter(rt, pass);
    channels_stand_for_histories();
    answers_tell();
    match turn.state().accept(a, bytes) {
        Ok(()) => {
            let wanted = turn.state().wants();
            leave_push::<Brand>(turn, a, bytes);
            Ok(wanted)
        }
        Err(
            AcceptFault::OverCredit {
                received,
                announced,
            },
        ) => {
            turn.state().shut();
            turn.leave::<Brand>();
            Err(AcceptFault::OverCredit {
                received,
                announced,
            })
        }
        Err(fault) => {
            turn.leave_as_is();
            Err(fault)
        }
    }
}

/// Tells a channel the backlog of its sender, and answers how many floating segments it then wants.
pub(crate) fn obey_backlog<R: Wait>(
    rt: &R,
    cell: &TurnCell<InputChannel>,
    pass: &mut Pass<InputChannel>,
    n: u32,
) -> u32
    requires pass { IsPassOf cell.now pass.old }
    requires reader { number pass.old ≡ 1 }
    requires backlog { n < 2 ^ 31 }
    ensures pass { IsPassOf cell.now pass.new × (number pass.new ≡ 1) }
    ensures entered { mine pass.new ≡ mine pass.old ++ entries.Backlog n ∷ [] }
{
    let mut turn = cell.enter(rt, pass);
    channels_stand_for_histories();
    turn.state().on_backlog(n);
    let wanted = turn.state().wants();
    leave_backlog::<Brand>(turn, n);
    wanted
}

/// Gives a floating segment to a channel, where that wants one still. Else the segment comes back.
pub(crate) fn add_floating<R: Wait>(
    rt: &R,
    cell: &TurnCell<InputChannel>,
    pass: &mut Pass<InputChannel>,
    segment: Segment,
) -> Option<Segment>
    requires pass { IsPassOf cell.now pass.old }
    requires reader { number pass.old ≡ 1 }
    requires size { length segment ≡ (opened_with cell.now).size }
    ensures pass { IsPassOf cell.now pass.new × (number pass.new ≡ 1) }
    ensures added { MatchOption result (mine pass.new ≡ mine pass.old ++ entries.Added ∷ []) (λ back. (mine pass.new ≡ mine pass.old) × (back ≡ segment)) }
{
    let mut turn = cell.enter(rt, pass);
    channels_stand_for_histories();
    if turn.state().wants() == 0 {
        turn.leave_as_is();
        return Some(segment);
    }
    turn.state().add_floating(segment);
    turn.leave::<Brand>();
    None
}
