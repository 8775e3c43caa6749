// Tasks and channels, by their places in a job.

/// A task: its stage, where 0 is the sources, and its index there.
#[derive(Clone, Copy, Debug, PartialEq, Eq)]
pub struct TaskId {
    pub stage: u32,
    pub index: u32,
}

/// A channel: its edge, which leads from the stage of that number to the next one, and the tasks at both ends.
#[derive(Clone, Copy, Debug, PartialEq, Eq)]
pub struct ChannelId {
    pub edge: u32,
    /// The index of the sending task.
    pub from: u32,
    /// The index of the receiving task.
    pub to: u32,
}

/// How a barrier travels.
#[derive(Clone, Copy, Debug, PartialEq, Eq)]
pub enum BarrierKind {
    /// In line with the data.
    Inline,
    /// In front of the data.
    Front,
}

/// What stands first on a channel.
#[derive(Clone, Copy, Debug, PartialEq, Eq)]
pub enum Head {
    Nothing,
    /// A buffer of data, which costs credit.
    Buffer,
    /// A barrier or the end, which costs none.
    Event,
}
