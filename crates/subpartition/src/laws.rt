//! The laws of what stands to be sent. Each function does nothing; what it ensures is the law.
ghost use Rattle.subpartition.specs.Theorems.{DataTravelInOrder, DataAreTakenOrLeft, BarrierSplitsData, InlineOvertakesNothing, PutStays, BarriersTravelInOrder, EndTravels, TakenGrows, BarriersAreNumbered, EndIsLast, EntriesAreHistory, TaskTellsPuts, TakenStays, FirstItemStays};
ghost use Rattle.subpartition.specs.Theorems.{NewStandsForNone, PutAdds, PutInlineAdds, PutFrontAdds, FinishAdds, TakeAdds, SizeAdds, LastIsPut, TakeTells, FrontOvertakes, TaskTellsQueue};

/// Every history keeps the order: data, barriers and the end travel as they were put, and what was taken
/// stays.
pub fn histories_keep_order()
    ensures bytes { DataTravelInOrder }
    ensures left { DataAreTakenOrLeft }
    ensures barriers { BarriersTravelInOrder }
    ensures end { EndTravels }
    ensures taken { TakenGrows }
{}

/// A barrier parts the data: what travels before it, and what it overtook, was put before it, and stays so. One
/// in line overtakes nothing.
pub fn barriers_part_data()
    ensures splits { BarrierSplitsData }
    ensures inline { InlineOvertakesNothing }
    ensures stays { PutStays }
{}

/// In a history whose entries were all allowed the barriers count from 1, and the end is last.
pub fn allowed_histories()
    ensures numbers { BarriersAreNumbered }
    ensures end { EndIsLast }
{}

/// What one pass's own entries tell of a cell: the task's what was put, the sender's what was taken.
pub fn passes_tell()
    ensures entries { EntriesAreHistory }
    ensures task { TaskTellsPuts }
    ensures sender { TakenStays }
    ensures first { FirstItemStays }
{}

/// Each call of a subpartition adds its entry to the history that the subpartition stands for.
pub fn calls_add_entries()
    ensures new { NewStandsForNone }
    ensures put { PutAdds }
    ensures put_inline { PutInlineAdds }
    ensures put_front { PutFrontAdds }
    ensures finish { FinishAdds }
    ensures take { TakeAdds }
    ensures size { SizeAdds }
{}

/// What a subpartition tells of its history: what was put stands last, what it gives was taken next, and
/// the task's own entries say its last barrier and whether it was finished.
pub fn calls_tell()
    ensures put { LastIsPut }
    ensures take { TakeTells }
    ensures front { FrontOvertakes }
    ensures task { TaskTellsQueue }
{}
