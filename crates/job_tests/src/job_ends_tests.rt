// Passes of a stop cell that are compared.

use flow_defs::Cause;
use job_cells::cell_of_two;
use job_ends::settle;
use outside::{StopState, look_for_stop, tell_stop};
use std::process::Abort;

#[test]
fn passes_that_are_settled_take_turns_again(rt: HostRuntime) {
    let Ok((cell, mut first, mut second)) = cell_of_two(rt.alloc(), StopState::new()) else {
        panic!(&rt; "no memory")
    };
    tell_stop(&rt, &cell, &mut first, Cause::Link);
    settle(&rt, &cell, &mut first, &mut second);
    assert_eq!(&rt; look_for_stop(&rt, &cell, &mut second), Some(Cause::Link));
    assert_eq!(&rt; look_for_stop(&rt, &cell, &mut first), Some(Cause::Link));
}
