// The wires of a job.
ghost use Rattle.std.specs.Prelude.{◌≡◌, ◌+◌, ◌≤◌, length, All, Err, IfErr, IfOk, OnErr, OnOk};
ghost use Rattle.outside.specs.Links.{NeverFails};
ghost use Rattle.job_outcome.specs.Theorems.{IsNewWire};
ghost use Rattle.job_outcome.specs.Words.{link_words};
ghost use Rattle.job_run.specs.Wires.{IsLinkGround, IsWireCause};

use flow_defs::{Cause, ListOf};
use outside::{Links, PairFault, Wire};
use std::alloc::Global;

// Gives all these wires back, in their order.
pub(crate) fn give_back<N: Links>(net: &mut N, wires: ListOf<Wire<N::Out, N::In>>)
    requires lent { length wires.items ≤ N.lent net.old }
    ensures lent { N.lent net.new + length wires.items ≡ N.lent net.old }
    ensures never_falls { N.faults net.old ≤ N.faults net.new }
{
    let mut rest = wires;
    rest.as_mut_slice().reverse();
    'wires: while let Some(wire) = rest.pop() {
        net.back(wire);
    }
}

// Adds so many wires, for which there is room.
fn add_wires<N: Links>(
    alloc: Global,
    net: &mut N,
    many: usize,
    wires: &mut ListOf<Wire<N::Out, N::In>>,
) -> Result<(), PairFault>
    requires none { length wires.old.items ≡ 0 }
    requires room { many ≤ wires.old.room }
    ensures unused { All (IsNewWire (link_words N.Out.LinkOut N.In.LinkIn N.belong)) wires.new.items }
    ensures many { OnOk result (length wires.new.items ≡ many) }
    ensures lent { N.lent net.new ≡ N.lent net.old + length wires.new.items }
    ensures same { N.wires net.new ≡ N.wires net.old }
    ensures never_falls { N.faults net.old ≤ N.faults net.new }
    ensures failed { result ≡ Err PairFault.Failed → IsLinkGround (N.never_fails net.old) (N.faults net.old) (N.faults net.new) }
    ensures sure { N.never_fails net.old → All (NeverFails N.Out.never_fails N.In.never_fails) wires.new.items }
{
    for _made in 0..many {
        let wire = net.pair(alloc)?;
        let Ok(()) = wires.push(wire) else {
            unreachable!()
        };
    }
    Ok(())
}

/// So many new wires. Where one can't be had, those that were made are given back.
pub fn open_wires<N: Links>(
    alloc: Global,
    net: &mut N,
    many: usize,
) -> Result<ListOf<Wire<N::Out, N::In>>, Cause>
    ensures unused { IfOk result (λ wires. All (IsNewWire (link_words N.Out.LinkOut N.In.LinkIn N.belong)) wires.items) }
    ensures many { IfOk result (λ wires. length wires.items ≡ many) }
    ensures lent { OnOk result (N.lent net.new ≡ N.lent net.old + many) }
    ensures same { OnOk result (N.wires net.new ≡ N.wires net.old) }
    ensures lent_none { OnErr result (N.lent net.new ≡ N.lent net.old) }
    ensures never_falls { N.faults net.old ≤ N.faults net.new }
    ensures cause { IfErr result (IsWireCause (IsLinkGround (N.never_fails net.old) (N.faults net.old) (N.faults net.new))) }
    ensures sure { N.never_fails net.old → IfOk result (λ wires. All (NeverFails N.Out.never_fails N.In.never_fails) wires.items) }
{
    let mut wires = ListOf::new(alloc);
    if wires.reserve(many).is_err() {
        return Err(Cause::Memory);
    }
    match add_wires(alloc, net, many, &mut wires) {
        Ok(()) => Ok(wires),
        Err(fault) => {
            give_back(net, wires);
            Err(match fault {
                PairFault::Failed => Cause::Link,
                PairFault::Memory => Cause::Memory,
            })
        }
    }
}
