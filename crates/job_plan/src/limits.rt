// The limits of a source.

/// The most bytes in a source: 1 TiB.
pub const SOURCE_MAX: u64 = 1_099_511_627_776;
