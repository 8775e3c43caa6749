// Where tasks and channels stand in the lists of an image.
ghost use Rattle.std.specs.Prelude.{◌≡◌, suc, ◌*◌, ◌<◌, ◌≤◌, true, length};
ghost use Rattle.flow_defs.specs.Jobs.{IsJob, last_edge, tasks, is_channel, edge_width, sum_below};
ghost use Rattle.plain_machine.specs.Places.{sender_place, channel_place, channels};
ghost use Rattle.collector.specs.Fitting.{IsTask};
ghost use Rattle.collector.specs.Collecting.{task_count};

use flow_defs::{ChannelId, Exchange, Job, TaskId};
use plain_machine::laws;

/// How many tasks the stages before this one have.
pub fn tasks_before(job: &Job, stage: usize) -> usize
    requires job { IsJob job.now }
    requires stage { stage ≤ suc (suc (last_edge job.now)) }
    ensures is { result ≡ sum_below stage (tasks job.now) }
    ensures few { result ≤ 8 * stage }
{
    let mut before = 0;
    for i in 0..stage {
        before += job.tasks(i) as usize;
    }
    before
}

/// The place of a task among all, which stand in the order of their stages and then of their indices.
pub fn task_place(job: &Job, task: TaskId) -> usize
    requires job { IsJob job.now }
    requires task { IsTask job.now task.stage task.index }
    ensures is { result ≡ sender_place job.now task.stage task.index }
    ensures within { result < task_count job.now }
{
    tasks_before(job, task.stage as usize) + task.index as usize
}

/// How many channels the edges before this one have.
pub fn channels_before(job: &Job, edge: usize) -> usize
    requires job { IsJob job.now }
    requires edge { edge ≤ suc (last_edge job.now) }
    ensures is { result ≡ sum_below edge (edge_width job.now) }
    ensures few { result ≤ 64 * edge }
{
    let mut before = 0;
    for i in 0..edge {
        before += job.width(i) as usize;
    }
    before
}

/// The place of a channel among all.
pub fn place_of(job: &Job, channel: ChannelId) -> usize
    requires job { IsJob job.now }
    requires channel { is_channel job.now channel.edge channel.from channel.to ≡ true }
    ensures is { result ≡ channel_place job.now channel.edge channel.from channel.to }
    ensures within { result < length (channels job.now) }
{
    laws::places_are_in_order();
    let edge = channel.edge as usize;
    let before = channels_before(job, edge);
    match job.exchange(edge) {
        Exchange::Forward => before + channel.from as usize,
        _ => before + channel.from as usize * job.tasks(edge + 1) as usize + channel.to as usize,
    }
}
