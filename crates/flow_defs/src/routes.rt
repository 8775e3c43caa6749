// Where records go, and what the segments of a job's channels come to.
ghost use Rattle.std.specs.Prelude.{◌≡◌, ◌%◌, ◌<◌, ◌≤◌};
ghost use Rattle.flow_defs.specs.Jobs.{IsJob, segments_needed};
ghost use Rattle.flow_defs.specs.Routes.{fnv, receiver};

use crate::{Exchange, Job};

/// The index of the task to which a record goes. Its sender has the index `from` and has emitted
/// so many records before; there are `ways` receiving tasks. The hash is FNV-1a of 64 bits.
pub fn route(exchange: Exchange, key: &[u8], emitted: u64, from: u32, ways: u32) -> u32
    requires some { 1 ≤ ways }
    requires forward { exchange ≡ Exchange.Forward → from < ways }
    ensures { result ≡ receiver exchange key.now emitted from ways }
{
    match exchange {
        Exchange::Hash => remainder(hash(key), ways),
        Exchange::Rebalance => remainder(emitted, ways),
        Exchange::Forward => from,
    }
}

// What is left of a number when it is divided by so many. A division by a number that stands here takes a few
// cycles, and by any other some forty.
fn remainder(number: u64, ways: u32) -> u32
    requires { 1 ≤ ways }
    ensures { result ≡ number % ways }
{
    match ways {
        1 => (number % 1) as u32,
        2 => (number % 2) as u32,
        4 => (number % 4) as u32,
        8 => (number % 8) as u32,
        _ => (number % ways as u64) as u32,
    }
}

// FNV-1a of 64 bits.
#[tactic(auto, unfolding(crate::specs::Routes::fnv))]
fn hash(key: &[u8]) -> u64
    ensures { result ≡ fnv key.now }
{
    let mut hash: u64 = 14_695_981_039_346_656_037;
    for byte in key {
        hash = (hash ^ *byte as u64).wrapping_mul(1_099_511_628_211);
    }
    hash
}

/// How many segments of network memory the channels of a job need: on each edge three for each
/// channel and one for each sending task.
pub fn needed(job: &Job) -> u32
    requires { IsJob job.now }
    ensures { result ≡ segments_needed job.now }
{
    let mut segments = 0;
    for edge in 0..job.edges() {
        segments += 3 * job.width(edge) + job.tasks(edge);
    }
    segments
}
