//! The laws of messages. Each function does nothing; what it ensures is the law.
ghost use Rattle.conn_parts.specs.Theorems.{ReadIsWritten, MessagesAdd, FrontsCarryFronts, NumbersGoOn};

use net_frames::laws::spellings_are_apart;

/// The messages that are read from a link begin those that are written to it, and where the closing
/// frame comes next they are all of them.
pub fn read_is_written()
    ensures { ReadIsWritten }
{
    spellings_are_apart();
}

/// What messages carry on a channel adds up, and a beginning of them carries a beginning of it.
pub fn messages_add_up()
    ensures add { MessagesAdd }
    ensures fronts { FrontsCarryFronts }
    ensures numbers { NumbersGoOn }
{}
