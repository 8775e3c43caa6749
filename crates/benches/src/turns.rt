// Turns at turn cells.
use std::alloc::Global;
use std::sync::Wait;
use std::thread::Threads;
use turn_tests::{add_by_one, add_by_two, add_in_crowd, look_alone, rest_alone};

// So many turns: `one` by one thread alone, `two` by each of two threads at one cell, `crowd` by each of
// sixteen, at a cell of its own and at one that all share. `rest` is turns with no entry by one thread
// alone, and `look` looks with no turn.
pub fn take<R: Threads + Wait + Sync>(rt: &R, alloc: Global, way: &str, times: u64) -> Option<u64> {
    match way {
        "one" => add_by_one(rt, alloc, times),
        "two" => add_by_two(rt, alloc, times),
        "crowd" => add_in_crowd(rt, alloc, 16, times),
        "rest" => rest_alone(rt, alloc, times),
        "look" => look_alone(alloc, times),
        _ => None,
    }
}
