// Turns of a writer of control frames at an input channel.
ghost use Rattle.std.specs.Prelude.{◌≡◌, ◌<◌, ◌^◌, [], ◌∷◌, ◌++◌, true};
ghost use Rattle.turn_cell.specs.History.{StartsWith};
ghost use Rattle.turn_cell.specs.Passes.{IsPassOf, IsTurnOf, HasEntered, opened_with, mine, number, seen};
ghost use Rattle.input_channel.specs.declared.entry.ReceiveEntry.TheVariants.{Credit, Resume};
ghost use Rattle.input_channel.specs.States.{ChannelStandsFor};
ghost use Rattle.conn_send_control.specs.Taking.{Took, HasSeenEnd, one_if};

use input_channel::laws::channels_stand_for_histories;
use input_channel::{InputChannel, ReceiveEntry};
use std::marker::Brand;
use std::sync::Wait;
use turn_cell::{Named, Pass, Turn, TurnCell};

/// The credit that was taken in a turn, and whether the end of the channel had come.
#[derive(Clone, Copy)]
pub(crate) struct Taken {
    pub(crate) credit: u32,
    pub(crate) ended: bool,
}

// Ends the turn in which so much credit was taken.
fn leave_credit<E: Named<ReceiveEntry>>(turn: Turn<InputChannel>, credit: u32)
    requires entry { E.entry ≡ Credit credit }
    requires turn { IsTurnOf turn.cell.now turn.pass.now }
    requires state { ChannelStandsFor turn.state (seen turn.pass.now ++ (number turn.pass.now, Credit credit) ∷ []) }
    requires size { turn.state.size ≡ (opened_with turn.cell.now).size }
    ensures pass { IsPassOf turn.entry.cell.now turn.exit.1.0.now }
    ensures entered { HasEntered (Credit credit) turn.entry.pass.now turn.exit.1.0.now }
{
    turn.leave::<E>();
}

// Ends the turn in which a resumption was taken.
fn leave_resume<E: Named<ReceiveEntry>>(turn: Turn<InputChannel>)
    requires entry { E.entry ≡ Resume }
    requires turn { IsTurnOf turn.cell.now turn.pass.now }
    requires state { ChannelStandsFor turn.state (seen turn.pass.now ++ (number turn.pass.now, Resume) ∷ []) }
    requires size { turn.state.size ≡ (opened_with turn.cell.now).size }
    ensures pass { IsPassOf turn.entry.cell.now turn.exit.1.0.now }
    ensures entered { HasEntered Resume turn.entry.pass.now turn.exit.1.0.now }
{
    turn.leave::<E>();
}

/// Takes the credit that a channel has to tell, and sees whether its end had come.
pub(crate) fn take_credit<R: Wait>(
    rt: &R,
    cell: &TurnCell<InputChannel>,
    pass: &mut Pass<InputChannel>,
) -> Taken
    requires pass { IsPassOf cell.now pass.old }
    requires writer { number pass.old ≡ 2 }
    ensures pass { IsPassOf cell.now pass.new × (number pass.new ≡ 2) }
    ensures took { Took result.credit 0 (mine pass.old) (mine pass.new) }
    ensures seen { StartsWith (seen pass.new) (seen pass.old) }
    ensures fits { result.credit < 2 ^ 31 }
    ensures ended { result.ended ≡ true → HasSeenEnd (seen pass.new) }
{
    channels_stand_for_histories();
    let mut turn = cell.enter(rt, pass);
    let ended = turn.state().ended();
    let credit = turn.state().take_credit();
    if credit == 0 {
        turn.leave_as_is();
        return Taken { credit: 0, ended };
    }
    leave_credit::<Brand>(turn, credit);
    Taken { credit, ended }
}

/// Takes a resumption that a channel has to tell, if there is one.
pub(crate) fn take_resumption<R: Wait>(
    rt: &R,
    cell: &TurnCell<InputChannel>,
    pass: &mut Pass<InputChannel>,
) -> bool
    requires pass { IsPassOf cell.now pass.old }
    requires writer { number pass.old ≡ 2 }
    ensures pass { IsPassOf cell.now pass.new × (number pass.new ≡ 2) }
    ensures took { Took 0 (one_if result) (mine pass.old) (mine pass.new) }
    ensures seen { StartsWith (seen pass.new) (seen pass.old) }
{
    channels_stand_for_histories();
    let mut turn = cell.enter(rt, pass);
    if !turn.state().take_resume() {
        turn.leave_as_is();
        return false;
    }
    leave_resume::<Brand>(turn);
    true
}
