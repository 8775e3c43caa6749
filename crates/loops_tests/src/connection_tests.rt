// A connection over links in memory.
ghost use Rattle.std.specs.Prelude.{◌≡◌, ◌≤◌, false, true, IfOk, IfSome};
ghost use Rattle.outside.specs.Stops.{is_fault};

use crate::taps::{TapIn, TapOut};
use conn_harness::{Carried, Counted, Plan, Work, carry, open_pool};
use flow_defs::{Cause, ListOf};
use outside::{Links, MemoryIn, MemoryLinks, MemoryOut, Wire};
use std::alloc::{AllocError, Global};
use std::sync::Wait;
use std::test::Fail;
use std::thread::Threads;

// How the links are: how many bytes each call takes or gives at most, and which write to the data link
// fails.
#[derive(Clone, Copy)]
struct Case {
    most: usize,
    failing_write: Option<u64>,
}

fn tap_out(alloc: Global, inner: MemoryOut, most: usize) -> TapOut
    requires { 1 ≤ most }
    ensures { result.inner ≡ inner }
{
    TapOut {
        inner,
        most,
        seen: ListOf::new(alloc),
    }
}

fn tap_in(inner: MemoryIn, most: usize) -> TapIn
    requires { 1 ≤ most }
{
    TapIn { inner, most }
}

// A wire of links in memory, the writes with these numbers of which fail.
fn wire_of(alloc: Global, writes: ListOf<u64>) -> Result<Wire<MemoryOut, MemoryIn>, Fail>
    ensures { IfOk result (λ wire. (wire.data_out.finished ≡ false) × (wire.control_out.finished ≡ false)) }
{
    let mut links = MemoryLinks::new(alloc, ListOf::new(alloc), ListOf::new(alloc), writes);
    match links.pair(alloc) {
        Ok(wire) => Ok(wire),
        Err(_) => Err("no wire".into()),
    }
}

// A wire whose ends are tapped. Only a write to the data link fails.
fn tapped_wire(alloc: Global, case: Case) -> Result<Wire<TapOut, TapIn>, Fail>
    requires { 1 ≤ case.most }
    ensures { IfOk result (λ wire. (wire.data_out.inner.finished ≡ false) × (wire.control_out.inner.finished ≡ false)) }
{
    let mut writes = ListOf::new(alloc);
    if let Some(number) = case.failing_write {
        writes.push(number)?;
    }
    let Wire {
        data_out,
        data_in,
        ..
    } = wire_of(alloc, writes)?;
    let Wire {
        control_out,
        control_in,
        ..
    } = wire_of(alloc, ListOf::new(alloc))?;
    Ok(Wire {
        data_out: tap_out(alloc, data_out, case.most),
        data_in: tap_in(data_in, case.most),
        control_out: tap_out(alloc, control_out, case.most),
        control_in: tap_in(control_in, case.most),
    })
}

// Carries by this plan over a wire in memory.
fn run<R: Threads + Wait + Sync>(
    rt: &R,
    alloc: Global,
    case: Case,
    plan: Plan,
) -> Result<Carried<TapOut>, Fail>
    requires some { 1 ≤ case.most }
    requires met { IfSome plan.met (λ cause. is_fault cause ≡ true) }
{
    let wire = tapped_wire(alloc, case)?;
    let Some((pool, passes)) = open_pool(alloc, plan.channels, 64) else {
        return Err("no pool".into());
    };
    Ok(carry(rt, alloc, &pool, passes, wire, plan)?)
}

// Two buffers of five bytes and the end on one channel, all put before the loops begin.
const TWO: Plan = Plan {
    channels: 1,
    unpolled: 0,
    work: Work {
        waits: 0,
        buffers: 2,
        len: 5,
    },
    puts_first: true,
    met: None,
};

// The frames of the two buffers and of the end, with the sequence numbers 0, 1, 2 and the backlogs 1, 0, 0,
// and the closing frame.
fn expected(alloc: Global) -> Result<ListOf<u8>, AllocError> {
    let head = [
        0xBA, 0xDC, 0x0F, 0xFE, 0, 0, 0, 0, 0, 0, 0, 0, 0, 0, 0, 0, 0, 0, 0, 0, 0,
    ];
    let mut bytes = ListOf::new(alloc);
    for (len, numbers, content) in [
        (
            44,
            [0, 0, 0, 0, 0, 0, 0, 1, 0, 0, 0, 0, 0, 5],
            b"\0\0\0\x01a".as_slice(),
        ),
        (
            44,
            [0, 0, 0, 1, 0, 0, 0, 0, 0, 0, 0, 0, 0, 5],
            b"\0\0\0\x01b",
        ),
        (39, [0, 0, 0, 2, 0, 0, 0, 0, 3, 0, 0, 0, 0, 0], b""),
    ] {
        bytes.extend(&[0, 0, 0, len])?;
        bytes.extend(&head)?;
        bytes.extend(&numbers)?;
        bytes.extend(content)?;
    }
    bytes.extend(&[0, 0, 0, 9, 0xBA, 0xDC, 0x0F, 0xFE, 5])?;
    Ok(bytes)
}

fn all_causes(carried: &Carried<TapOut>) -> [Cause; 4] {
    [carried.items, carried.control, carried.read, carried.asked]
}

#[test]
fn four_loops_carry_the_items(rt: HostRuntime) -> Result<(), Fail> {
    let bytes = expected(rt.alloc())?;
    assert_eq!(rt; bytes.as_slice().len(), 136);
    for most in [1, 7, 100, 100_000] {
        let case = Case {
            most,
            failing_write: None,
        };
        let carried = run(&rt, rt.alloc(), case, TWO)?;
        assert_eq!(rt; carried.data_out.seen.as_slice(), bytes.as_slice());
        assert_eq!(rt; all_causes(&carried), [Cause::Done; 4]);
        assert_eq!(rt;
            carried.counted,
            Counted {
                ended: 1,
                buffers: 2,
                bytes: 10,
                in_order: true,
            }
        );
        assert_eq!(rt; carried.told, None);
    }
    Ok(())
}

#[test]
fn a_link_that_fails_stops_all(rt: HostRuntime) -> Result<(), Fail> {
    let case = Case {
        most: 20,
        failing_write: Some(2),
    };
    let carried = run(&rt, rt.alloc(), case, TWO)?;
    assert_eq!(rt; carried.items, Cause::Link);
    assert_eq!(rt; carried.data_out.seen.as_slice().len(), 20);
    assert_eq!(rt; carried.told, Some(Cause::Link));
    Ok(())
}

#[test]
fn a_fault_elsewhere_stops_all(rt: HostRuntime) -> Result<(), Fail> {
    let case = Case {
        most: 100,
        failing_write: None,
    };
    let plan = Plan {
        met: Some(Cause::Memory),
        ..TWO
    };
    let carried = run(&rt, rt.alloc(), case, plan)?;
    assert_eq!(rt; all_causes(&carried), [Cause::Stopped; 4]);
    assert_eq!(rt; carried.told, Some(Cause::Memory));
    Ok(())
}

#[test]
fn channels_that_are_not_polled_hold_none_up(rt: HostRuntime) -> Result<(), Fail> {
    let case = Case {
        most: 100_000,
        failing_write: None,
    };
    let plan = Plan {
        channels: 16,
        unpolled: 2,
        work: Work {
            waits: 0,
            buffers: 1_000,
            len: 64,
        },
        puts_first: false,
        met: None,
    };
    let carried = run(&rt, rt.alloc(), case, plan)?;
    assert_eq!(rt;
        carried.counted,
        Counted {
            ended: 14,
            buffers: 14_000,
            bytes: 896_000,
            in_order: true,
        }
    );
    assert!(rt; carried.put < 16_000);
    assert_eq!(rt; carried.told, Some(Cause::Memory));
    assert_eq!(rt;
        (carried.items, carried.asked),
        (Cause::Stopped, Cause::Stopped)
    );
    // A reading loop may come to the closing frame of a stopped end before it looks at the stop cell.
    for cause in [carried.control, carried.read] {
        assert!(rt;
            cause == Cause::Stopped || cause == Cause::Done,
            "{cause:?}"
        );
    }
    Ok(())
}

#[test]
fn all_channels_carry_all(rt: HostRuntime) -> Result<(), Fail> {
    for (channels, most) in [(1, 7), (3, 100), (16, 100_000), (64, 100_000)] {
        let case = Case {
            most,
            failing_write: None,
        };
        let plan = Plan {
            channels,
            unpolled: 0,
            work: Work {
                waits: 0,
                buffers: 100,
                len: 33,
            },
            puts_first: false,
            met: None,
        };
        let carried = run(&rt, rt.alloc(), case, plan)?;
        let buffers = u64::from(channels) * 100;
        assert_eq!(rt;
            carried.counted,
            Counted {
                ended: channels,
                buffers,
                bytes: buffers * 33,
                in_order: true,
            }
        );
        assert_eq!(rt; carried.put, buffers);
        assert_eq!(rt; all_causes(&carried), [Cause::Done; 4]);
    }
    Ok(())
}
