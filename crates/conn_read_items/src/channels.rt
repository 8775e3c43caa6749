// What a message does at the place of its channel.
ghost use Rattle.std.specs.Prelude.{◌≡◌, ◌<◌, ◌^◌, [], ◌∷◌, length, OnOk, IfErr};
ghost use Rattle.turn_cell.specs.Passes.{IsPassOf, opened_with, mine, number};
ghost use Rattle.input_channel.specs.declared.entry.ReceiveEntry.TheVariants.{Push, Backlog};
ghost use Rattle.input_channel.specs.Answers.{parcel_in};
ghost use Rattle.conn_parts.specs.Shares.{AreOf, HavePoolSize};
ghost use Rattle.conn_read_items.specs.Asking.{Asked, AskedAt};
ghost use Rattle.conn_read_items.specs.Taking.{AreLent, KeepsStop, NotedMore, GaveAt, RefusedAt};

use crate::cells::Cells;
use crate::turns::{accept, add_floating, obey_backlog};
use conn_parts::{SharePasses, give_segment, request_segment};
use flow_defs::ListOf;
use input_channel::{AcceptFault, Arrival, InputChannel};
use local_pool::HeldPool;
use std::sync::Wait;
use turn_cell::{Pass, TurnCell};

// Asks the local pool at a place for so many floating segments of a channel, one by one, while the pool
// has one and the channel still wants it.
fn ask_floating<'p, R: Wait>(
    rt: &R,
    cells: &Cells<'_, 'p>,
    cell: &TurnCell<InputChannel>,
    pass: &mut Pass<InputChannel>,
    pool_passes: &mut ListOf<Pass<HeldPool<'p>>>,
    to: usize,
    wanted: u32,
)
    requires pass { IsPassOf cell.now pass.old }
    requires reader { number pass.old ≡ 1 }
    requires size { (opened_with cell.now).size ≡ cells.now.size }
    requires pools { AreOf cells.now.pools.now pool_passes.old.items }
    requires sizes { HavePoolSize cells.now.size cells.now.pools.now }
    requires within { to < length cells.now.pools.now }
    ensures pass { IsPassOf cell.now pass.new × (number pass.new ≡ 1) }
    ensures noted { NotedMore (mine pass.old) (mine pass.new) [] }
    ensures pools { AreOf cells.now.pools.now pool_passes.new.items }
    ensures asked { Asked to (mine pass.old) (mine pass.new) pool_passes.old.items pool_passes.new.items }
{
    'asks: for _ask in 0..wanted {
        let Some(segment) = request_segment(rt, cells.pools, pool_passes, to) else {
            return;
        };
        if let Some(segment) = add_floating(rt, cell, pass, segment) {
            give_segment(rt, cells.pools, pool_passes, to, segment);
            return;
        }
    }
}

/// Gives an arrival to the channel at a place, and asks for the floating segments that it wants then.
pub(crate) fn give_at<'p, R: Wait>(
    rt: &R,
    cells: &Cells<'_, 'p>,
    passes: &mut SharePasses<'p>,
    place: usize,
    to: usize,
    a: Arrival,
    bytes: &[u8],
) -> Result<(), AcceptFault>
    requires lent { AreLent cells.now passes.old }
    requires place { place < length cells.now.inputs.now }
    requires to { to < length cells.now.pools.now }
    requires backlog { a.backlog < 2 ^ 31 }
    ensures lent { AreLent cells.now passes.new }
    ensures others { KeepsStop passes.old passes.new }
    ensures asked { AskedAt place to passes.old passes.new }
    ensures gave { OnOk result (GaveAt place passes.old.inputs.items passes.new.inputs.items (Push (parcel_in a.what bytes.now) a.backlog ∷ [])) }
    ensures refused { IfErr result (λ fault. RefusedAt place passes.old.inputs.items passes.new.inputs.items a bytes.now fault) }
{
    let cell = &cells.inputs[place];
    let pass = &mut passes.inputs.as_mut_slice()[place];
    match accept(rt, cell, pass, a, bytes) {
        Ok(wanted) => {
            ask_floating(rt, cells, cell, pass, &mut passes.pools, to, wanted);
            Ok(())
        }
        Err(fault) => Err(fault),
    }
}

/// Tells the channel at a place the backlog of its sender, and asks for the floating segments that it
/// wants then.
pub(crate) fn announce_at<'p, R: Wait>(
    rt: &R,
    cells: &Cells<'_, 'p>,
    passes: &mut SharePasses<'p>,
    place: usize,
    to: usize,
    n: u32,
)
    requires lent { AreLent cells.now passes.old }
    requires place { place < length cells.now.inputs.now }
    requires to { to < length cells.now.pools.now }
    requires backlog { n < 2 ^ 31 }
    ensures lent { AreLent cells.now passes.new }
    ensures others { KeepsStop passes.old passes.new }
    ensures asked { AskedAt place to passes.old passes.new }
    ensures gave { GaveAt place passes.old.inputs.items passes.new.inputs.items (Backlog n ∷ []) }
{
    let cell = &cells.inputs[place];
    let pass = &mut passes.inputs.as_mut_slice()[place];
    let wanted = obey_backlog(rt, cell, pass, n);
    ask_floating(rt, cells, cell, pass, &mut passes.pools, to, wanted);
}
