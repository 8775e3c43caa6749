// The function of an aggregate.
ghost use Rattle.stage_fns.specs.Meets.{MeetsAgg};

use flow_defs::AggKind;

/// A function of an aggregate: it takes a record and the value that its key has, which is 0 at first,
/// and answers how many of the record's first bytes are the key, and the key's new value. Several
/// threads may call it at once.
pub type AggFn = Box<dyn Fn(&[u8], u64) -> (usize, u64) + Send + Sync>;

// A function, which stands for aggregates of this kind.
#[derive(Drop)]
pub struct AggEntry {
    pub kind: AggKind,
    pub f: AggFn,
    ghost meets: { MeetsAgg kind (AggFn.pre f) (AggFn.post f) },
}
