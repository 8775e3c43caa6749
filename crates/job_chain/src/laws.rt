//! The law of a run. The function does nothing; what it ensures is the law.
ghost use Rattle.job_chain.specs.Ran.{StartIsRunBase, RanIsChain, RanEndsInWorth};

use aggregate_task::laws::aggregates_have_accounts;
use channel_cut::laws::runs_are_chains as cut_runs_are_chains;
use plain_machine::laws::{
    chain_keeps_worth, encodings_give_records, recorded_is_successor, start_exists,
    steps_make_chain,
};
use source_task::laws::sources_have_accounts;
use stage_task::laws::stages_have_accounts;

/// The images that a run stores from an image with nothing in flight on are a chain, whatever the cause with which
/// each of its workers ended. A last one has in its tables what that image was worth. The start of a job is such an
/// image.
pub fn runs_are_chains()
    ensures start { StartIsRunBase }
    ensures chain { RanIsChain }
    ensures worth { RanEndsInWorth }
{
    sources_have_accounts();
    stages_have_accounts();
    aggregates_have_accounts();
    cut_runs_are_chains();
    encodings_give_records();
    recorded_is_successor();
    steps_make_chain();
    start_exists();
    chain_keeps_worth();
}
