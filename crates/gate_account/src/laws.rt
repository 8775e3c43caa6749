//! The laws of a gate and its task's alignment. Each function does nothing; what it ensures is the law.
ghost use Rattle.gate_account.specs.Aligning.{NewAreInStep, NothingIsInStep, LineIsInStep, NextIsInTurn, BlockIsInStep, CloseIsInStep, WaitingIsBlocked, ResumedIsInStep, AllResumedIsInStep};

/// A task that takes each barrier into its alignment keeps in step with its gate. Where the gate holds barriers back
/// while a checkpoint is open, the barrier that it gives is one that the alignment waits for.
pub fn gates_are_in_step()
    ensures begin { NewAreInStep }
    ensures nothing { NothingIsInStep }
    ensures line { LineIsInStep }
    ensures turn { NextIsInTurn }
    ensures blocks { BlockIsInStep }
    ensures closes { CloseIsInStep }
{}

/// Behind the last barrier of a checkpoint all channels wait, and the task is in step again once it has resumed them.
pub fn channels_are_resumed()
    ensures may { WaitingIsBlocked }
    ensures one { ResumedIsInStep }
    ensures all { AllResumedIsInStep }
{}
