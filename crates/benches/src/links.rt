// A connection whose links lie in memory: its source, its four loops and its sink, each in a thread of its own.
ghost use Rattle.std.specs.Prelude.{◌≡◌, None, IfSome};

use conn_harness::{Carried, Counted, Plan, Work, carry, open_pool};
use flow_defs::{Cause, ListOf};
use outside::{Links, MemoryLinks};
use std::alloc::Global;
use std::sync::Wait;
use std::thread::Threads;

// Carries by this plan over links in memory. None is what can't be done, want of memory, or a loop that
// met a fault.
fn carry_all<R: Threads + Wait + Sync>(
    rt: &R,
    alloc: Global,
    size: u32,
    plan: Plan,
) -> Option<Counted>
    requires { plan.met ≡ None }
{
    let (pool, passes) = open_pool(alloc, plan.channels, size)?;
    let mut links = MemoryLinks::new(
        alloc,
        ListOf::new(alloc),
        ListOf::new(alloc),
        ListOf::new(alloc),
    );
    let wire = links.pair(alloc).ok()?;
    let Carried {
        items,
        control,
        read,
        asked,
        put,
        counted,
        data_out: _data_out,
        told: _told,
    } = carry(rt, alloc, &pool, passes, wire, plan).ok()?;
    match (items, control, read, asked) {
        (Cause::Done, Cause::Done, Cause::Done, Cause::Done) if put == counted.buffers => Some(
            counted,
        ),
        _ => None,
    }
}

// A segment's size, and a plan: `carry` puts so many buffers of that size on all channels together, `idle`
// puts nothing for so many seconds on one channel and then ends.
fn planned(what: &str, numbers: &[u64]) -> Option<(u32, Plan)>
    ensures { IfSome result (λ r. r.1.met ≡ None) }
{
    let (channels, size, waits, buffers) = match (what, numbers) {
        ("carry", [channels, size, buffers]) if *channels > 0 => (
            u32::try_from(*channels).ok()?,
            u32::try_from(*size).ok()?,
            0,
            *buffers / *channels,
        ),
        ("idle", [seconds]) => (1, 32_768, seconds.saturating_mul(20), 0),
        _ => return None,
    };
    let work = Work {
        waits,
        buffers,
        len: size,
    };
    Some((
        size,
        Plan {
            channels,
            unpolled: 0,
            work,
            puts_first: false,
            met: None,
        },
    ))
}

// How many bytes came.
pub fn run<R: Threads + Wait + Sync>(
    rt: &R,
    alloc: Global,
    what: &str,
    numbers: &[u64],
) -> Option<u64> {
    let (size, plan) = planned(what, numbers)?;
    let counted = carry_all(rt, alloc, size, plan)?;
    Some(counted.bytes)
}
