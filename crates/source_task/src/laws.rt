//! What the account of a source comes to. The function does nothing; what it ensures is the law.
ghost use Rattle.source_task.specs.Accounts.{SourceHasAccount};

use plain_machine::laws::emits_in_parts;

/// Where the input of a source is told, its account is one of chapters, whatever its cause.
pub fn sources_have_accounts()
    ensures account { SourceHasAccount }
{
    emits_in_parts();
}
