// What runs in threads ends, and finds what the clauses say.
use crate::{
    add_by_four, add_by_two, looks_tell, sleep_and_wake, turns_overlap, write_and_meet,
    write_and_read,
};
use std::test::Fail;

#[test]
fn two_threads_add_two_thousand(rt: HostRuntime) -> Result<(), Fail> {
    let sum = add_by_two(&rt, rt.alloc(), 1_000).ok_or("no memory")?;
    assert_eq!(rt; sum, 2_000);
    Ok(())
}

#[test]
fn four_threads_add_forty_thousand(rt: HostRuntime) -> Result<(), Fail> {
    let sum = add_by_four(&rt, rt.alloc(), 10_000).ok_or("no memory")?;
    assert_eq!(rt; sum, 40_000);
    Ok(())
}

#[test]
fn a_pass_reads_what_it_has_written(rt: HostRuntime) -> Result<(), Fail> {
    let shown = write_and_read(&rt, rt.alloc()).ok_or("no memory")?;
    assert!(rt; shown);
    Ok(())
}

#[test]
fn a_pass_reads_what_another_has_written(rt: HostRuntime) -> Result<(), Fail> {
    let shown = write_and_meet(&rt, rt.alloc()).ok_or("no memory")?;
    assert!(rt; shown);
    Ok(())
}

#[test]
fn two_cells_overlap(rt: HostRuntime) -> Result<(), Fail> {
    let overlapped = turns_overlap(&rt, rt.alloc()).ok_or("no memory")?;
    assert!(rt; overlapped);
    Ok(())
}

#[test]
fn a_look_tells_whether_there_is_news(rt: HostRuntime) -> Result<(), Fail> {
    let told = looks_tell(&rt, rt.alloc()).ok_or("no memory")?;
    assert!(rt; told);
    Ok(())
}

#[test]
fn a_sleeper_is_woken(rt: HostRuntime) -> Result<(), Fail> {
    let woken = sleep_and_wake(&rt, rt.alloc()).ok_or("no memory")?;
    assert!(rt; woken);
    Ok(())
}
