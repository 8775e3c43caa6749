// Turns at the readers: those of the loop that writes items, and those of the loop that reads control frames.
ghost use Rattle.std.specs.Prelude.{◌≡◌, ◌++◌, ◌∷◌, [], ◌%◌, ◌^◌, ◌≤◌, length, IfSome, option_to_list};
ghost use Rattle.std.specs.Option.{option_map};
ghost use Rattle.turn_cell.specs.History.{StartsWith};
ghost use Rattle.turn_cell.specs.Passes.{IsPassOf, IsTurnOf, HasEntered, mine, number, seen};
ghost use Rattle.flow_defs.specs.declared.task.Head.TheVariants.{Buffer};
ghost use Rattle.credit_reader.specs.Readers.{cost};
ghost use Rattle.flow_defs.specs.Limits.{credit_max};
ghost use Rattle.reader_state.specs.declared.entry.ReaderEntry.TheVariants.{Ready, Sent, Told as WasTold, Asked, Granted, Resumed};
ghost use Rattle.reader_state.specs.Standing.{sent_on};
ghost use Rattle.reader_state.specs.Turning.{channels_in, head_told, CanSend, HeadsStay, HeadsChange, IsOneOf, IsReaderPass, StandsIn, AnnouncesDue, TookMessage, LookedForOverdue};
ghost use Rattle.reader_state.specs.Settling.{answer_of, first_overdue};

use crate::entry::ReaderEntry;
use crate::state::ReaderState;
use credit_reader::{SentKind, Told};
use flow_defs::{ChannelId, Head, PeerFault};
use std::marker::Brand;
use std::sync::Wait;
use turn_cell::{Named, Pass, Turn, TurnCell};

/// Tells the reader of a channel what stands first there, and how many data buffers wait.
pub fn tell_ready<R: Wait>(
    rt: &R,
    cell: &TurnCell<ReaderState>,
    pass: &mut Pass<ReaderState>,
    channel: ChannelId,
    head: Head,
    backlog: u32,
)
    requires pass { IsReaderPass cell.now 0 pass.old }
    requires known { IsOneOf channel (channels_in cell.now) }
    requires fits { backlog ≤ credit_max }
    ensures pass { IsReaderPass cell.now 0 pass.new }
    ensures told { mine pass.new ≡ mine pass.old ++ Ready channel head backlog ∷ [] }
    ensures heads { HeadsChange (channels_in cell.now) channel head (seen pass.old) (seen pass.new) }
{
    let mut turn = cell.enter(rt, pass);
    turn.state().ready(channel, head, backlog);
    leave_ready::<Brand>(turn, channel, head, backlog);
}

/// The channel whose reader is to send one item now, if any can send.
pub fn next_to_send<R: Wait>(
    rt: &R,
    cell: &TurnCell<ReaderState>,
    pass: &mut Pass<ReaderState>,
) -> Option<ChannelId>
    requires { IsReaderPass cell.now 0 pass.old }
    ensures pass { IsReaderPass cell.now 0 pass.new × (mine pass.new ≡ mine pass.old) }
    ensures heads { HeadsStay (channels_in cell.now) (seen pass.old) (seen pass.new) }
    ensures can { IfSome result (λ channel. CanSend (channels_in cell.now) channel (seen pass.new)) }
    ensures known { IfSome result (λ channel. IsOneOf channel (channels_in cell.now)) }
{
    let mut turn = cell.enter(rt, pass);
    let next = turn.state().next();
    turn.leave_as_is();
    next
}

/// Takes note that the channel whose turn it was has sent one item, and of what stands first there now.
/// Answers the item's sequence number, modulo 2^32.
pub fn tell_sent<R: Wait>(
    rt: &R,
    cell: &TurnCell<ReaderState>,
    pass: &mut Pass<ReaderState>,
    channel: ChannelId,
    what: SentKind,
    head: Head,
    backlog: u32,
) -> u32
    requires pass { IsReaderPass cell.now 0 pass.old }
    requires can { CanSend (channels_in cell.now) channel (seen pass.old) }
    // Data were told to stand first, so that their credit is there.
    requires kind { cost what ≡ 1 → head_told (channels_in cell.now) channel (seen pass.old) ≡ Buffer }
    requires fits { backlog ≤ credit_max }
    ensures pass { IsReaderPass cell.now 0 pass.new }
    ensures number { result ≡ length (sent_on channel (mine pass.old)) % 2 ^ 32 }
    ensures told { mine pass.new ≡ mine pass.old ++ Sent channel what head backlog ∷ [] }
    ensures heads { HeadsChange (channels_in cell.now) channel head (seen pass.old) (seen pass.new) }
{
    let mut turn = cell.enter(rt, pass);
    let number = turn.state().sent(channel, what, head, backlog);
    leave_sent::<Brand>(turn, channel, what, head, backlog);
    number
}

/// The announcement of a backlog that is due first, which is then made.
pub fn next_to_announce<R: Wait>(
    rt: &R,
    cell: &TurnCell<ReaderState>,
    pass: &mut Pass<ReaderState>,
) -> Option<Told>
    requires { IsReaderPass cell.now 0 pass.old }
    ensures pass { IsReaderPass cell.now 0 pass.new }
    ensures told { mine pass.new ≡ mine pass.old ++ option_to_list (option_map (λ told. WasTold told.channel) result) }
    ensures due { AnnouncesDue (channels_in cell.now) pass.old pass.new result }
    ensures heads { HeadsStay (channels_in cell.now) (seen pass.old) (seen pass.new) }
    ensures fits { IfSome result (λ told. (1 ≤ told.backlog) × (told.backlog ≤ credit_max)) }
    ensures known { IfSome result (λ told. IsOneOf told.channel (channels_in cell.now)) }
{
    let mut turn = cell.enter(rt, pass);
    match turn.state().announce() {
        Some(told) => {
            leave_told::<Brand>(turn, told.channel);
            Some(told)
        }
        None => {
            turn.leave_as_is();
            None
        }
    }
}

/// Takes a partition request, with the credit to begin with.
pub fn take_request<R: Wait>(
    rt: &R,
    cell: &TurnCell<ReaderState>,
    pass: &mut Pass<ReaderState>,
    channel: ChannelId,
    credit: u32,
) -> Result<(), PeerFault>
    requires pass { IsReaderPass cell.now 1 pass.old }
    requires fits { credit ≤ credit_max }
    ensures pass { IsReaderPass cell.now 1 pass.new }
    ensures took { TookMessage (channels_in cell.now) (Asked channel credit) pass.old pass.new result }
{
    let mut turn = cell.enter(rt, pass);
    match turn.state().request(channel, credit) {
        Ok(()) => {
            let overdue = turn.state().overdue();
            leave_asked::<Brand>(turn, channel, credit);
            answer(overdue)
        }
        Err(fault) => {
            turn.leave_as_is();
            Err(fault)
        }
    }
}

/// Takes more credit, in buffers.
pub fn take_credit<R: Wait>(
    rt: &R,
    cell: &TurnCell<ReaderState>,
    pass: &mut Pass<ReaderState>,
    channel: ChannelId,
    credit: u32,
) -> Result<(), PeerFault>
    requires pass { IsReaderPass cell.now 1 pass.old }
    requires fits { (1 ≤ credit) × (credit ≤ credit_max) }
    ensures pass { IsReaderPass cell.now 1 pass.new }
    ensures took { TookMessage (channels_in cell.now) (Granted channel credit) pass.old pass.new result }
{
    let mut turn = cell.enter(rt, pass);
    match turn.state().grant(channel, credit) {
        Ok(()) => {
            let overdue = turn.state().overdue();
            leave_granted::<Brand>(turn, channel, credit);
            answer(overdue)
        }
        Err(fault) => {
            turn.leave_as_is();
            Err(fault)
        }
    }
}

/// Takes a resumption.
pub fn take_resumption<R: Wait>(
    rt: &R,
    cell: &TurnCell<ReaderState>,
    pass: &mut Pass<ReaderState>,
    channel: ChannelId,
) -> Result<(), PeerFault>
    requires pass { IsReaderPass cell.now 1 pass.old }
    ensures pass { IsReaderPass cell.now 1 pass.new }
    ensures took { TookMessage (channels_in cell.now) (Resumed channel) pass.old pass.new result }
{
    let mut turn = cell.enter(rt, pass);
    match turn.state().resume(channel) {
        Ok(()) => {
            let overdue = turn.state().overdue();
            leave_resumed::<Brand>(turn, channel);
            answer(overdue)
        }
        Err(fault) => {
            turn.leave_as_is();
            Err(fault)
        }
    }
}

/// Looks for early credit or resumptions of a channel whose end was sent.
pub fn look_for_overdue<R: Wait>(
    rt: &R,
    cell: &TurnCell<ReaderState>,
    pass: &mut Pass<ReaderState>,
) -> Result<(), PeerFault>
    requires { IsReaderPass cell.now 1 pass.old }
    ensures pass { IsReaderPass cell.now 1 pass.new × (mine pass.new ≡ mine pass.old) }
    ensures looked { LookedForOverdue (channels_in cell.now) pass.new result }
{
    let mut turn = cell.enter(rt, pass);
    let overdue = turn.state().overdue();
    turn.leave_as_is();
    answer(overdue)
}

// What a turn with a message answers, by what is overdue.
fn answer(overdue: Option<PeerFault>) -> Result<(), PeerFault>
    ensures { result ≡ answer_of overdue }
{
    match overdue {
        None => Ok(()),
        Some(fault) => Err(fault),
    }
}

// Ends the turn in which a reader was told what stands first.
fn leave_ready<E: Named<ReaderEntry>>(
    turn: Turn<ReaderState>,
    channel: ChannelId,
    head: Head,
    backlog: u32,
)
    requires entry { E.entry ≡ Ready channel head backlog }
    requires turn { IsTurnOf turn.cell.now turn.pass.now }
    requires state { StandsIn turn.cell.now (seen turn.pass.now ++ (number turn.pass.now, Ready channel head backlog) ∷ []) turn.state }
    ensures pass { IsPassOf turn.entry.cell.now turn.exit.1.0.now }
    ensures entered { HasEntered (Ready channel head backlog) turn.entry.pass.now turn.exit.1.0.now }
{
    turn.leave::<E>();
}

// Ends the turn in which an item was sent.
fn leave_sent<E: Named<ReaderEntry>>(
    turn: Turn<ReaderState>,
    channel: ChannelId,
    what: SentKind,
    head: Head,
    backlog: u32,
)
    requires entry { E.entry ≡ Sent channel what head backlog }
    requires turn { IsTurnOf turn.cell.now turn.pass.now }
    requires state { StandsIn turn.cell.now (seen turn.pass.now ++ (number turn.pass.now, Sent channel what head backlog) ∷ []) turn.state }
    ensures pass { IsPassOf turn.entry.cell.now turn.exit.1.0.now }
    ensures entered { HasEntered (Sent channel what head backlog) turn.entry.pass.now turn.exit.1.0.now }
{
    turn.leave::<E>();
}

// Ends the turn in which a backlog was announced.
fn leave_told<E: Named<ReaderEntry>>(turn: Turn<ReaderState>, channel: ChannelId)
    requires entry { E.entry ≡ WasTold channel }
    requires turn { IsTurnOf turn.cell.now turn.pass.now }
    requires state { StandsIn turn.cell.now (seen turn.pass.now ++ (number turn.pass.now, WasTold channel) ∷ []) turn.state }
    ensures pass { IsPassOf turn.entry.cell.now turn.exit.1.0.now }
    ensures entered { HasEntered (WasTold channel) turn.entry.pass.now turn.exit.1.0.now }
{
    turn.leave::<E>();
}

// Ends the turn in which a channel was requested.
fn leave_asked<E: Named<ReaderEntry>>(turn: Turn<ReaderState>, channel: ChannelId, credit: u32)
    requires entry { E.entry ≡ Asked channel credit }
    requires turn { IsTurnOf turn.cell.now turn.pass.now }
    requires state { StandsIn turn.cell.now (seen turn.pass.now ++ (number turn.pass.now, Asked channel credit) ∷ []) turn.state }
    ensures pass { IsPassOf turn.entry.cell.now turn.exit.1.0.now }
    ensures entered { HasEntered (Asked channel credit) turn.entry.pass.now turn.exit.1.0.now }
{
    turn.leave::<E>();
}

// Ends the turn in which credit came.
fn leave_granted<E: Named<ReaderEntry>>(turn: Turn<ReaderState>, channel: ChannelId, credit: u32)
    requires entry { E.entry ≡ Granted channel credit }
    requires turn { IsTurnOf turn.cell.now turn.pass.now }
    requires state { StandsIn turn.cell.now (seen turn.pass.now ++ (number turn.pass.now, Granted channel credit) ∷ []) turn.state }
    ensures pass { IsPassOf turn.entry.cell.now turn.exit.1.0.now }
    ensures entered { HasEntered (Granted channel credit) turn.entry.pass.now turn.exit.1.0.now }
{
    turn.leave::<E>();
}

// Ends the turn in which a resumption came.
fn leave_resumed<E: Named<ReaderEntry>>(turn: Turn<ReaderState>, channel: ChannelId)
    requires entry { E.entry ≡ Resumed channel }
    requires turn { IsTurnOf turn.cell.now turn.pass.now }
    requires state { StandsIn turn.cell.now (seen turn.pass.now ++ (number turn.pass.now, Resumed channel) ∷ []) turn.state }
    ensures pass { IsPassOf turn.entry.cell.now turn.exit.1.0.now }
    ensures entered { HasEntered (Resumed channel) turn.entry.pass.now turn.exit.1.0.now }
{
    turn.leave::<E>();
}
