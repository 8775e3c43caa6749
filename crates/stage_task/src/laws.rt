//! What the account of a stage comes to. The function does nothing; what it ensures is the law.
ghost use Rattle.stage_task.specs.Accounts.{StageHasAccount};

use plain_machine::laws::{emits_in_parts, no_stage_lengthens};

/// The account of the task of a stage is one of chapters, whatever its cause.
pub fn stages_have_accounts()
    ensures account { StageHasAccount }
{
    emits_in_parts();
    no_stage_lengthens();
}
