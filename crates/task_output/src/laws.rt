//! What else is known of what a task sent. Each function does nothing; what it ensures is the law.
ghost use Rattle.task_output.specs.Laws.{SentIsBegun, FinishedIsBegun, BarrierIsLeftAside};
ghost use Rattle.task_output.specs.Waiting.{SeenIsWaited, WaitedStays};

use checkpoint_laws::laws::stretches_grow;
use plain_machine::laws::emits_in_parts;

/// What a task sent, told for one that may have been stopped.
pub fn what_was_sent_was_begun()
    ensures sent { SentIsBegun }
    ensures finished { FinishedIsBegun }
    ensures aside { BarrierIsLeftAside }
{
    stretches_grow();
    emits_in_parts();
}

/// What a task has seen of the images that were stored.
pub fn what_was_seen_stays()
    ensures seen { SeenIsWaited }
    ensures stays { WaitedStays }
{}
