// Barriers of tasks with one, two and three channels, and channels that are saved, and what the tasks do about them.
ghost use Rattle.std.specs.Prelude.{◌≡◌, ◌≤◌};

use crate::barriers_tests::Event::{Front, Inline, Saved};
use barriers::Action::{Block, Done, Nothing, SnapshotFront, SnapshotInline};
use barriers::{Action, Aligner};
use flow_defs::BarrierKind;
use std::alloc::{AllocError, Global};
use std::test::Fail;

// The barrier of checkpoint k comes from a channel, or the saved bytes of a channel are there.
#[derive(Clone, Copy)]
enum Event {
    Inline { channel: u32, k: u64 },
    Front { channel: u32, k: u64 },
    Saved { channel: u32 },
}

struct Case {
    channels: u32,
    // What comes, and what the task does about it.
    rows: &'static [(Event, Action)],
}

static CASES: [Case; 8] = [
    // One channel alone is aligned at once.
    Case {
        channels: 1,
        rows: &[
            (Inline { channel: 0, k: 1 }, SnapshotInline { k: 1 }),
            (Inline { channel: 0, k: 2 }, SnapshotInline { k: 2 }),
        ],
    },
    // The channel that was first is last in the next checkpoint.
    Case {
        channels: 2,
        rows: &[
            (Inline { channel: 0, k: 1 }, Block),
            (Inline { channel: 1, k: 1 }, SnapshotInline { k: 1 }),
            (Inline { channel: 1, k: 2 }, Block),
            (Inline { channel: 0, k: 2 }, SnapshotInline { k: 2 }),
            (Inline { channel: 1, k: 3 }, Block),
            (Inline { channel: 0, k: 3 }, SnapshotInline { k: 3 }),
        ],
    },
    // Each checkpoint waits for all channels anew.
    Case {
        channels: 3,
        rows: &[
            (Inline { channel: 2, k: 1 }, Block),
            (Inline { channel: 0, k: 1 }, Block),
            (Inline { channel: 1, k: 1 }, SnapshotInline { k: 1 }),
            (Inline { channel: 1, k: 2 }, Block),
            (Inline { channel: 2, k: 2 }, Block),
            (Inline { channel: 0, k: 2 }, SnapshotInline { k: 2 }),
            (Inline { channel: 0, k: 3 }, Block),
            (Inline { channel: 1, k: 3 }, Block),
            (Inline { channel: 2, k: 3 }, SnapshotInline { k: 3 }),
        ],
    },
    // A checkpoint may stay open.
    Case {
        channels: 3,
        rows: &[
            (Inline { channel: 1, k: 1 }, Block),
            (Inline { channel: 2, k: 1 }, Block),
        ],
    },
    // One channel alone is saved alone.
    Case {
        channels: 1,
        rows: &[
            (Front { channel: 0, k: 1 }, SnapshotFront { k: 1 }),
            (Saved { channel: 0 }, Done { k: 1 }),
            (Inline { channel: 0, k: 2 }, SnapshotInline { k: 2 }),
        ],
    },
    // At the first front barrier the task snapshots, and with the last channel saved the checkpoint is done.
    Case {
        channels: 2,
        rows: &[
            (Front { channel: 1, k: 1 }, SnapshotFront { k: 1 }),
            (Saved { channel: 1 }, Nothing),
            (Front { channel: 0, k: 1 }, Nothing),
            (Saved { channel: 0 }, Done { k: 1 }),
            (Front { channel: 0, k: 2 }, SnapshotFront { k: 2 }),
            (Front { channel: 1, k: 2 }, Nothing),
            (Saved { channel: 0 }, Nothing),
            (Saved { channel: 1 }, Done { k: 2 }),
        ],
    },
    // A front barrier frees the channel that an inline one blocked, and an inline one behind it blocks none.
    Case {
        channels: 3,
        rows: &[
            (Inline { channel: 0, k: 1 }, Block),
            (Front { channel: 2, k: 1 }, SnapshotFront { k: 1 }),
            (Saved { channel: 0 }, Nothing),
            (Inline { channel: 1, k: 1 }, Nothing),
            (Saved { channel: 2 }, Nothing),
            (Saved { channel: 1 }, Done { k: 1 }),
            (Inline { channel: 2, k: 2 }, Block),
            (Inline { channel: 1, k: 2 }, Block),
            (Inline { channel: 0, k: 2 }, SnapshotInline { k: 2 }),
        ],
    },
    // A front barrier may be the last one that is missing.
    Case {
        channels: 2,
        rows: &[
            (Inline { channel: 0, k: 1 }, Block),
            (Front { channel: 1, k: 1 }, SnapshotFront { k: 1 }),
            (Saved { channel: 1 }, Nothing),
            (Saved { channel: 0 }, Done { k: 1 }),
        ],
    },
];

// An aligner, with what a task knows of it: how many checkpoints are closed, which channels have given the
// barrier of the next one, whether it saves for that, and which channels it has saved.
#[derive(Drop)]
struct Watched {
    aligner: Aligner,
    closed: u64,
    gave: Vec<bool>,
    saving: bool,
    saved: Vec<bool>,
    ghost same: { aligner ≡ record { closed = closed; gave = gave.items; saving = saving; saved = saved.items } },
}

fn watch(alloc: Global, channels: u32) -> Result<Watched, AllocError>
    requires { 1 ≤ channels }
{
    Ok(Watched {
        aligner: Aligner::new(alloc, channels)?,
        closed: 0,
        gave: vec![in alloc; false; channels as usize]?,
        saving: false,
        saved: vec![in alloc; false; channels as usize]?,
    })
}

// Gives this barrier, where the channel may give it now.
fn give(watched: &mut Watched, channel: u32, k: u64, kind: BarrierKind) -> Option<Action> {
    let gave = *watched.gave.get(channel as usize)?;
    if gave || k == 0 || k - 1 != watched.closed {
        return None;
    }
    let action = watched.aligner.on_barrier(channel, k, kind);
    match action {
        Nothing => watched.gave[channel as usize] = true,
        Block => watched.gave[channel as usize] = true,
        SnapshotInline { k } => {
            watched.closed = k;
            watched.gave.fill(false);
        }
        SnapshotFront { .. } => {
            watched.gave[channel as usize] = true;
            watched.saving = true;
            watched.saved.fill(false);
        }
        Done { .. } => unreachable!(),
    }
    Some(action)
}

// Saves this channel, where it may be saved now.
fn save(watched: &mut Watched, channel: u32) -> Option<Action> {
    let gave = *watched.gave.get(channel as usize)?;
    let saved = *watched.saved.get(channel as usize)?;
    if !watched.saving || !gave || saved {
        return None;
    }
    let action = watched.aligner.on_saved(channel);
    match action {
        Nothing => watched.saved[channel as usize] = true,
        Done { k } => {
            watched.closed = k;
            watched.gave.fill(false);
            watched.saving = false;
            watched.saved.fill(false);
        }
        Block => unreachable!(),
        SnapshotInline { .. } => unreachable!(),
        SnapshotFront { .. } => unreachable!(),
    }
    Some(action)
}

fn take(watched: &mut Watched, event: Event) -> Option<Action> {
    match event {
        Inline { channel, k } => give(watched, channel, k, BarrierKind::Inline),
        Front { channel, k } => give(watched, channel, k, BarrierKind::Front),
        Saved { channel } => save(watched, channel),
    }
}

#[test]
fn a_task_aligns_or_saves(rt: HostRuntime) -> Result<(), Fail> {
    for case in &CASES {
        assert!(rt; case.channels > 0);
        let mut watched = watch(rt.alloc(), case.channels)?;
        for (event, action) in case.rows {
            assert_eq!(rt; take(&mut watched, *event), Some(*action));
        }
    }
    Ok(())
}
