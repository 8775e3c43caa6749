//! The rule of the channel, and its steps.
use crate::views::View;
use crossbeam_channel::protocol::{Join, Lesson, Outcome, Protocol, Split};
use flow_defs::Snapshot;
use std::marker::{Brand, PhantomData};

// Snapshots are received in the order in which they were sent.
pub struct Order;

impl Protocol<Snapshot, View> for Order {
    ghost use Rattle.snapshot_channel.specs.Views.{InOrder, unopened};

    ghost holds = { InOrder };

    ghost first = { unopened };
}

// A snapshot is sent.
pub struct Sent;

impl Outcome<Snapshot, View> for Sent {
    ghost use Rattle.std.specs.Prelude.{◌≡◌};
    ghost use Rattle.snapshot_channel.specs.Views.{sent_more};

    ghost then = { λ v x w. w ≡ sent_more v x };
}

impl Lesson<Snapshot, View> for Sent {
    ghost fact = { λ v items. Unit {0} };
}

// A snapshot is received.
pub struct Got;

impl Outcome<Snapshot, View> for Got {
    ghost use Rattle.snapshot_channel.specs.Views.{Gets};

    ghost then = { Gets };
}

impl Lesson<Snapshot, View> for Got {
    ghost use Rattle.snapshot_channel.specs.Views.{Meets};

    ghost fact = { Meets };
}

// What was received is compared with what was sent.
pub struct Met;

impl Lesson<Snapshot, View> for Met {
    ghost use Rattle.snapshot_channel.specs.Views.{Meets};

    ghost fact = { Meets };
}

// For what the channel is opened. Each call picks it.
pub trait Opens {
    ghost use Rattle.snapshot_channel.specs.declared.views.Opening.{Opening};

    ghost opening: { Opening };
}

impl Opens for Brand {
    ghost use Rattle.snapshot_channel.specs.Views.{no_opening};

    ghost opening = { no_opening };
}

// The channel is opened. The further pass that comes of it is spent.
pub struct Open<B>(PhantomData<B>);

impl<B: Opens> Split<View> for Open<B> {
    ghost use Rattle.snapshot_channel.specs.declared.views.View.TheVariants.{Spent};
    ghost use Rattle.snapshot_channel.specs.Views.{opened};

    ghost left = { opened B.opening };

    ghost right = { λ v. Spent };
}

// Whose pass is made. Each call picks it.
pub trait Whose {
    ghost use Rattle.flow_defs.specs.declared.task.TaskId.{TaskId};

    ghost whose: { TaskId };
}

impl Whose for Brand {
    ghost use Rattle.snapshot_channel.specs.Snapshots.{task};

    ghost whose = { task 0 0 };
}

// A task gets its pass.
pub struct Deal<B>(PhantomData<B>);

impl<B: Whose> Split<View> for Deal<B> {
    ghost use Rattle.snapshot_channel.specs.Views.{dealt, dealt_to};

    ghost left = { dealt B.whose };

    ghost right = { dealt_to B.whose };
}

// A task's pass comes back.
pub struct Gather;

impl Join<View> for Gather {
    ghost use Rattle.snapshot_channel.specs.declared.views.View.TheVariants.{Spent};
    ghost use Rattle.snapshot_channel.specs.Views.{gathered};

    ghost both = { gathered };

    ghost spent = { Spent };
}
