//! The laws of a connection. Each function does nothing; what it ensures is the law.
ghost use Rattle.conn_run.specs.Theorems.{ItemsArrive, CreditCoversData};

use conn_parts::laws::{messages_add_up, read_is_written};
use reader_state::laws::{channels_have_parts, credit_covers_data, passes_tell};

/// On each channel the items that arrive are the first of those that were taken, in order, each once,
/// and all of them where the loop that reads them is done.
pub fn items_arrive()
    ensures { ItemsArrive }
{
    read_is_written();
    messages_add_up();
}

/// No more data arrive on a channel than credit was announced there.
pub fn arrivals_have_credit()
    ensures { CreditCoversData }
{
    read_is_written();
    messages_add_up();
    channels_have_parts();
    credit_covers_data();
    passes_tell();
}
