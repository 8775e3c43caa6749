// The alignment of one task's channels.
ghost use Rattle.std.specs.Prelude.{◌≡◌, ℕ, ◌+◌, ◌≤◌, List, [], ◌∷◌, ◌++◌, IfOk};
ghost use Rattle.barriers.specs.Alignments.{Event, Came, Saved, AddsBarrier, Answers, AnswersSaved, KeepsBarriers, MayGive, MayBeSaved, AlignmentStandsFor, action, action_saved, after_saved, alignment_next, barrier, is_open, unaligned};

use flow_defs::BarrierKind;
use std::alloc::{AllocError, Global};
use std::marker::Model;

/// What a task does about a barrier, or about the saved bytes of a channel.
#[derive(Clone, Copy, Debug, PartialEq, Eq)]
pub enum Action {
    /// It takes on.
    Nothing,
    /// It reads the barrier's channel no further until the checkpoint is snapshotted.
    Block,
    /// It snapshots for checkpoint k, sends inline barriers on, and resumes its channels.
    SnapshotInline { k: u64 },
    /// It saves on all channels, snapshots for checkpoint k, sends front barriers on, and resumes its channels.
    SnapshotFront { k: u64 },
    /// All channels are saved for checkpoint k: it hands its snapshot in.
    Done { k: u64 },
}

/// Aligns the channels of one task at the barriers of each checkpoint.
#[derive(Debug, Drop)]
pub struct Aligner {
    // The number of checkpoints closed.
    closed: u64,
    // How many channels the next one waits for: those that have not given its barrier, and while the task saves
    // those that were not saved for it.
    missing: u32,
    // The number of the barrier that each channel gave last.
    given: Vec<u64>,
    // Whether the task saves for the next one, since a front barrier came.
    saving: bool,
    // The number of the checkpoint for which each channel was saved last.
    saved: Vec<u64>,
}

impl Model for Aligner {
    ghost use Rattle.barriers.specs.Alignments.{Alignment};
    ghost use Rattle.barriers.specs.Counts.{Counts, seen};

    ghost Value = { Alignment };

    ghost view = { λ a. seen a.closed a.given.items a.saving a.saved.items };

    ghost invariant = { λ a. Counts a.closed a.missing a.given.items a.saving a.saved.items };
}

impl Aligner {
    /// So many channels, none of which has given a barrier. After this nothing takes memory.
    pub fn new(alloc: Global, channels: u32) -> Result<Self, AllocError>
        requires { 1 ≤ channels }
        ensures begins { IfOk result (λ aligner. aligner ≡ unaligned channels) }
        ensures stands { IfOk result (λ aligner. AlignmentStandsFor channels [] aligner) }
    {
        let given = vec![in alloc; 0; channels as usize]?;
        let saved = vec![in alloc; 0; channels as usize]?;
        Ok(Aligner {
            closed: 0,
            missing: channels,
            given,
            saving: false,
            saved,
        })
    }

    /// Whether a checkpoint is open: some channels have given its barrier, and the task waits for others, or saves.
    pub fn is_open(&self) -> bool
        ensures { result ≡ is_open self.now }
    {
        self.saving || (self.missing as usize) < self.given.len()
    }

    /// Takes the barrier of checkpoint k from a channel, and says what the task does about it.
    pub fn on_barrier(&mut self, channel: u32, k: u64, kind: BarrierKind) -> Action
        requires { MayGive self.old (barrier channel k kind) }
        ensures action { result ≡ action self.old (barrier channel k kind) }
        ensures after { self.new ≡ alignment_next self.old (barrier channel k kind) }
        ensures given { AddsBarrier (barrier channel k kind) self.old self.new }
        ensures answers { Answers (barrier channel k kind) self.old result self.new }
        ensures stands { (channels : ℕ) (events : List Event) → AlignmentStandsFor channels events self.old → AlignmentStandsFor channels (events ++ Came (barrier channel k kind) ∷ []) self.new }
    {
        self.given[channel as usize] = k;
        if self.saving {
            return Action::Nothing;
        }
        match kind {
            BarrierKind::Inline => {
                self.missing -= 1;
                if self.missing > 0 {
                    return Action::Block;
                }
                self.missing = self.given.len() as u32;
                self.closed = k;
                Action::SnapshotInline { k }
            }
            BarrierKind::Front => {
                self.saving = true;
                self.missing = self.given.len() as u32;
                Action::SnapshotFront { k }
            }
        }
    }

    /// Takes that a channel's saved bytes are there, for the checkpoint for which the task saves, and says what the
    /// task does about it.
    pub fn on_saved(&mut self, channel: u32) -> Action
        requires { MayBeSaved self.old channel }
        ensures action { result ≡ action_saved self.old channel }
        ensures after { self.new ≡ after_saved self.old channel }
        ensures given { KeepsBarriers self.old self.new }
        ensures answers { AnswersSaved channel self.old result self.new }
        ensures stands { (channels : ℕ) (events : List Event) → AlignmentStandsFor channels events self.old → AlignmentStandsFor channels (events ++ Saved channel (self.old.closed + 1) ∷ []) self.new }
    {
        // (the channel has given the barrier of that checkpoint)
        let k = self.given[channel as usize];
        self.saved[channel as usize] = k;
        self.missing -= 1;
        if self.missing == 0 {
            self.missing = self.given.len() as u32;
            self.saving = false;
            self.closed = k;
            return Action::Done { k };
        }
        Action::Nothing
    }
}
