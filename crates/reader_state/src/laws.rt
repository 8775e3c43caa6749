//! The laws of the readers of a connection. Each function does nothing; what it ensures is the law.
ghost use Rattle.reader_state.specs.Theorems.{ChannelsHaveParts, AfterEachHistory, CoversData, CoversBarriers, NotesEnd, CountsItems, KeepsBacklog, AllPassesTell};

/// After every legal history each channel has a reader and an early part.
pub fn channels_have_parts()
    ensures { ChannelsHaveParts }
{}

/// Data are sent on credit that came, and no credit is given twice or lost.
pub fn credit_covers_data()
    ensures { AfterEachHistory CoversData }
{}

/// No more inline barriers are sent than resumptions came, but for the one that blocks the channel.
pub fn resumptions_cover_barriers()
    ensures { AfterEachHistory CoversBarriers }
{}

/// Whether the end was sent is noted, and an item's sequence number is the count of those before it.
pub fn sent_items_are_noted()
    ensures ends { AfterEachHistory NotesEnd }
    ensures numbers { AfterEachHistory CountsItems }
{}

/// The backlog of a reader is the number that it was told last.
pub fn backlog_is_told()
    ensures { AfterEachHistory KeepsBacklog }
{}

/// What a pass does is told by its own entries.
pub fn passes_tell()
    ensures { AllPassesTell }
{}
