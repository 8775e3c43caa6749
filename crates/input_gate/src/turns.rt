// Turns of a gate at the cell of a channel.
ghost use Rattle.std.specs.Prelude.{◌≡◌, ◌<◌, ◌+◌, suc, true, false, [], ◌∷◌, ◌++◌, length, IfSome, IfNone, MatchOption};
ghost use Rattle.std.specs.Option.{option_to_list};
ghost use Rattle.turn_cell.specs.Passes.{IsPassOf, IsTurnOf, HasEntered, opened_with, mine, number, seen};
ghost use Rattle.flow_defs.specs.declared.task.BarrierKind.TheVariants.{Front};
ghost use Rattle.flow_defs.specs.declared.parcel.Parcel.TheVariants as parcels;
ghost use Rattle.flow_defs.specs.Parcels.{barriers_of};
ghost use Rattle.input_channel.specs.declared.entry.Gave.TheVariants.{NoBuffer};
ghost use Rattle.input_channel.specs.declared.entry.ReceiveEntry.TheVariants.{Poll, Returned, Added, Ask};
ghost use Rattle.input_channel.specs.Answers.{gave_of, given_by};
ghost use Rattle.input_channel.specs.Legal.{polled_with, returned, asks, inline_in};
ghost use Rattle.input_channel.specs.States.{ChannelStandsFor};
ghost use Rattle.input_gate.specs.Segments.{freed_by};
ghost use Rattle.input_gate.specs.Turning.{IsGatePass, IsLater, EndsInPoll, Fits, Looked, NoFront, given_to, looks_of};

use crate::passes::{InputCell, InputPass};
use input_channel::laws::{
    answers_tell, channels_stand_for_histories, histories_keep_order, legal_histories_agree,
    passes_tell,
};
use input_channel::{HeldBuf, InputChannel, Polled, ReceiveEntry};
use segment_pool::Segment;
use std::marker::Brand;
use std::sync::Wait;
use turn_cell::{Named, Turn};

// Ends the turn of a poll.
fn leave_polled<E: Named<ReceiveEntry>>(turn: Turn<InputChannel>, hold: bool, polled: &Polled)
    requires entry { E.entry ≡ Poll hold (gave_of polled.now) }
    requires turn { IsTurnOf turn.cell.now turn.pass.now }
    requires state { ChannelStandsFor turn.state (seen turn.pass.now ++ (number turn.pass.now, Poll hold (gave_of polled.now)) ∷ []) }
    requires size { turn.state.size ≡ (opened_with turn.cell.now).size }
    ensures pass { IsPassOf turn.entry.cell.now turn.exit.1.0.now }
    ensures entered { HasEntered (Poll hold (gave_of polled.now)) turn.entry.pass.now turn.exit.1.0.now }
{
    // Only the contract speaks of them.
    let _hold = hold;
    let _polled = polled;
    turn.leave::<E>();
}

// Ends the turn in which a buffer came back.
fn leave_returned<E: Named<ReceiveEntry>>(turn: Turn<InputChannel>, exclusive: bool)
    requires entry { E.entry ≡ Returned exclusive }
    requires turn { IsTurnOf turn.cell.now turn.pass.now }
    requires state { ChannelStandsFor turn.state (seen turn.pass.now ++ (number turn.pass.now, Returned exclusive) ∷ []) }
    requires size { turn.state.size ≡ (opened_with turn.cell.now).size }
    ensures pass { IsPassOf turn.entry.cell.now turn.exit.1.0.now }
    ensures entered { HasEntered (Returned exclusive) turn.entry.pass.now turn.exit.1.0.now }
{
    // Only the contract speaks of it.
    let _exclusive = exclusive;
    turn.leave::<E>();
}

/// Polls in a turn.
pub(crate) fn poll_in_turn<R: Wait>(
    rt: &R,
    cell: &InputCell,
    pass: &mut InputPass,
    hold: bool,
) -> Polled
    requires { IsGatePass cell.now pass.old }
    ensures pass { IsGatePass cell.now pass.new }
    ensures later { IsLater pass.old pass.new }
    ensures given { given_to pass.new ≡ given_to pass.old ++ option_to_list (given_by result) }
    ensures entered { mine pass.new ≡ mine pass.old ++ Poll hold (gave_of result) ∷ [] }
    ensures ends { EndsInPoll pass.old pass.new hold (gave_of result) }
    ensures fits { Fits (opened_with cell.now).size hold (given_to pass.old) result }
    ensures freed { freed_by pass.new ≡ freed_by pass.old }
{
    let mut turn = cell.enter(rt, pass);
    channels_stand_for_histories();
    answers_tell();
    histories_keep_order();
    legal_histories_agree();
    passes_tell();
    let Ok(polled) = turn.state().poll(hold) else {
        unreachable!()
    };
    leave_polled::<Brand>(turn, hold, &polled);
    polled
}

/// Gives a buffer back in a turn. Answers a segment that goes to the pool, how many floating ones the
/// channel wants, and the length of its segments.
pub(crate) fn return_in_turn<R: Wait>(
    rt: &R,
    cell: &InputCell,
    pass: &mut InputPass,
    buf: HeldBuf,
) -> (Option<Segment>, u32)
    requires pass { IsGatePass cell.now pass.old }
    requires size { length buf.segment ≡ (opened_with cell.now).size }
    requires out { returned buf.exclusive (mine pass.old) < polled_with buf.exclusive (mine pass.old) }
    ensures pass { IsGatePass cell.now pass.new }
    ensures later { IsLater pass.old pass.new }
    ensures given { given_to pass.new ≡ given_to pass.old }
    ensures entered { mine pass.new ≡ mine pass.old ++ Returned buf.exclusive ∷ [] }
    ensures size { IfSome result.0 (λ segment. length segment ≡ (opened_with cell.now).size) }
    ensures freed { freed_by pass.new ≡ freed_by pass.old + length (option_to_list result.0) }
{
    let exclusive = buf.exclusive;
    let mut turn = cell.enter(rt, pass);
    channels_stand_for_histories();
    passes_tell();
    let free = turn.state().recycle(buf);
    let wants = turn.state().wants();
    leave_returned::<Brand>(turn, exclusive);
    (free, wants)
}

/// Adds a floating segment in a turn, or hands it back where the channel wants none any more.
pub(crate) fn add_in_turn<R: Wait>(
    rt: &R,
    cell: &InputCell,
    pass: &mut InputPass,
    segment: Segment,
) -> Option<Segment>
    requires pass { IsGatePass cell.now pass.old }
    requires size { length segment ≡ (opened_with cell.now).size }
    ensures pass { IsGatePass cell.now pass.new }
    ensures later { IsLater pass.old pass.new }
    ensures given { given_to pass.new ≡ given_to pass.old }
    ensures added { MatchOption result (mine pass.new ≡ mine pass.old ++ Added ∷ []) (λ back. (mine pass.new ≡ mine pass.old) × (back ≡ segment)) }
    ensures freed { freed_by pass.new ≡ freed_by pass.old }
{
    let mut turn = cell.enter(rt, pass);
    channels_stand_for_histories();
    passes_tell();
    if turn.state().wants() == 0 {
        turn.leave_as_is();
        return Some(segment);
    }
    turn.state().add_floating(segment);
    turn.leave::<Brand>();
    None
}

/// Asks in a turn for the resumption of a channel that gave an inline barrier.
pub(crate) fn ask_in_turn<R: Wait>(rt: &R, cell: &InputCell, pass: &mut InputPass)
    requires pass { IsGatePass cell.now pass.old }
    requires owed { asks (mine pass.old) < inline_in (given_to pass.old) }
    ensures pass { IsGatePass cell.now pass.new }
    ensures later { IsLater pass.old pass.new }
    ensures given { given_to pass.new ≡ given_to pass.old }
    ensures entered { mine pass.new ≡ mine pass.old ++ Ask ∷ [] }
    ensures freed { freed_by pass.new ≡ freed_by pass.old }
{
    let mut turn = cell.enter(rt, pass);
    channels_stand_for_histories();
    passes_tell();
    turn.state().ask_resume();
    turn.leave::<Brand>();
}

/// Takes the first barrier that waits in a turn, where that is front, and answers its number. Else it
/// only looks.
pub(crate) fn take_front<R: Wait>(rt: &R, cell: &InputCell, pass: &mut InputPass) -> Option<u64>
    requires { IsGatePass cell.now pass.old }
    ensures pass { IsGatePass cell.now pass.new }
    ensures later { IsLater pass.old pass.new }
    ensures given { MatchOption result (given_to pass.new ≡ given_to pass.old) (λ k. given_to pass.new ≡ given_to pass.old ++ parcels.Barrier k Front ∷ []) }
    ensures entered { MatchOption result (mine pass.new ≡ mine pass.old) (λ k. mine pass.new ≡ mine pass.old ++ Poll false NoBuffer ∷ []) }
    ensures numbered { IfSome result (λ k. k ≡ suc (length (barriers_of (given_to pass.old)))) }
    ensures looked { IfNone result (Looked (looks_of pass.old) (looks_of pass.new)) }
    ensures freed { freed_by pass.new ≡ freed_by pass.old }
{
    let mut turn = cell.enter(rt, pass);
    channels_stand_for_histories();
    answers_tell();
    histories_keep_order();
    legal_histories_agree();
    passes_tell();
    if !turn.state().front_waits() {
        turn.leave_as_is();
        return None;
    }
    let Ok(polled) = turn.state().poll(false) else {
        unreachable!()
    };
    match polled {
        Polled::Barrier { k, kind: _kind } => {
            turn.leave::<Brand>();
            Some(k)
        }
        Polled::Buffer(_buf) => unreachable!(),
        Polled::End => unreachable!(),
        Polled::Empty => unreachable!(),
        Polled::Held => unreachable!(),
    }
}

/// The same. Where it is `clear` that no front barrier waited at the end of what the pass has seen, and
/// nothing came since, one load is the look, and no turn is taken.
pub(crate) fn find_front<R: Wait>(
    rt: &R,
    cell: &InputCell,
    pass: &mut InputPass,
    clear: bool,
) -> Option<u64>
    requires pass { IsGatePass cell.now pass.old }
    requires clear { clear ≡ true → NoFront (seen pass.old) }
    ensures pass { IsGatePass cell.now pass.new }
    ensures later { IsLater pass.old pass.new }
    ensures given { MatchOption result (given_to pass.new ≡ given_to pass.old) (λ k. given_to pass.new ≡ given_to pass.old ++ parcels.Barrier k Front ∷ []) }
    ensures entered { MatchOption result (mine pass.new ≡ mine pass.old) (λ k. mine pass.new ≡ mine pass.old ++ Poll false NoBuffer ∷ []) }
    ensures numbered { IfSome result (λ k. k ≡ suc (length (barriers_of (given_to pass.old)))) }
    ensures looked { IfNone result (Looked (looks_of pass.old) (looks_of pass.new)) }
    ensures freed { freed_by pass.new ≡ freed_by pass.old }
{
    if !clear {
        return take_front(rt, cell, pass);
    }
    if cell.is_current(pass) {
        return None;
    }
    take_front(rt, cell, pass)
}
