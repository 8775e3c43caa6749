//! The laws of how much there is. Each function does nothing; what it ensures is the law.
ghost use Rattle.plain_machine.specs.SizeTheorems.{FinishedChainIsCounted, LargeImageIsOfLoad, LargeImageIsOfHeavyEdge, TallyCountsRecords};

/// A finished chain from the start has as many images as its interval goes into the longest source, and two, or one without an interval.
pub fn finished_chain_is_counted()
    ensures count { FinishedChainIsCounted }
{}

/// An image of a chain is too large to be spelled only where there was so much to come: the keys of a table of the base and the load of
/// some edge are together above 4,294,967,295, from the start on the load alone.
pub fn large_image_is_of_load()
    ensures base { LargeImageIsOfLoad }
    ensures start { LargeImageIsOfHeavyEdge }
{}

/// A tally by count has counted each record that comes to the aggregate.
pub fn tally_counts_records()
    ensures sum { TallyCountsRecords }
{}
