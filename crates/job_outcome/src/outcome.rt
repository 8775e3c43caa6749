// Why the workers of a job ended.
ghost use Rattle.std.specs.Prelude.{◌≡◌, ◌≢◌, ◌↔◌, IsTrue, Option, Some};
ghost use Rattle.flow_defs.specs.declared.cause.Cause.{Cause};
ghost use Rattle.flow_defs.specs.declared.cause.Cause.TheVariants.{Done, Memory, Stopped};
ghost use Rattle.job_outcome.specs.Outcomes.{AllDone, HasEnded, cause_of_collector, cause_of_loop, cause_of_task};
ghost use Rattle.job_outcome.specs.Rows.{AreDone, HasOne, HasOneIn, RowIsDone};

use flow_defs::{Cause, ListOf};
use job_workers::{CollectPlace, LoopLeft, LoopPlace, LoopRow, Place, TaskPlace, TaskRow};

// A place of a worker.
trait Ends {
    ghost cause_in: { Self → Option Cause };

    // Why the worker ended, if it has ended.
    fn cause(&self) -> Option<Cause>
        ensures { result ≡ cause_in self.now };
}

impl<'a, 'p, S> Ends for TaskPlace<'a, 'p, S> {
    ghost cause_in = { λ place. cause_of_task place };

    fn cause(&self) -> Option<Cause> {
        match self {
            Place::Todo(_) => None,
            Place::Ended(left) => Some(left.cause),
            Place::Vacant => None,
        }
    }
}

impl<'a, 'p, O, I> Ends for LoopPlace<'a, 'p, O, I> {
    ghost cause_in = { λ place. cause_of_loop place };

    fn cause(&self) -> Option<Cause> {
        match self {
            Place::Todo(_) => None,
            Place::Ended(LoopLeft::SentItems(end)) => Some(end.cause),
            Place::Ended(LoopLeft::ReadControl(end)) => Some(end.cause),
            Place::Ended(LoopLeft::ReadItems(end)) => Some(end.cause),
            Place::Ended(LoopLeft::SentControl(end)) => Some(end.cause),
            Place::Vacant => None,
        }
    }
}

impl<'a> Ends for CollectPlace<'a> {
    ghost cause_in = { λ place. cause_of_collector place };

    fn cause(&self) -> Option<Cause> {
        match self {
            Place::Todo(_) => None,
            Place::Ended(end) => Some(end.cause),
            Place::Vacant => None,
        }
    }
}

// Whether the worker of a place is done.
fn is_done<P: Ends>(place: &P) -> bool
    ensures { IsTrue result ↔ (P.cause_in place.now ≡ Some Done) }
{
    matches!(place.cause(), Some(Cause::Done))
}

// Whether all workers of a row are done.
fn all_done_in<P: Ends>(row: &[P]) -> bool
    ensures { IsTrue result ↔ RowIsDone P.cause_in row.now }
{
    for place in row {
        if !is_done(place) {
            return false;
        }
    }
    true
}

// Whether those of all rows are.
fn all_done<P: Ends>(rows: &[ListOf<P>]) -> bool
    ensures { IsTrue result ↔ AreDone P.cause_in rows.now }
{
    for row in rows {
        if !all_done_in(row.as_slice()) {
            return false;
        }
    }
    true
}

// Whether the worker of a place ended with this cause.
fn ended_with<P: Ends>(place: &P, cause: Cause) -> bool
    ensures { IsTrue result → P.cause_in place.now ≡ Some cause }
{
    matches!(place.cause(), Some(found) if found == cause)
}

// Whether a worker of a row ended with this cause.
fn has_ended_in<P: Ends>(row: &[P], cause: Cause) -> bool
    ensures { IsTrue result → HasOneIn P.cause_in row.now cause }
{
    for place in row {
        if ended_with(place, cause) {
            return true;
        }
    }
    false
}

// Whether one of any row did.
fn has_ended<P: Ends>(rows: &[ListOf<P>], cause: Cause) -> bool
    ensures { IsTrue result → HasOne P.cause_in rows.now cause }
{
    for row in rows {
        if has_ended_in(row.as_slice(), cause) {
            return true;
        }
    }
    false
}

/// What all workers of a job came to, where `told` is what the stop cell tells: done exactly where all of them
/// are done. Another answer is the cause that was told, with which one of them ended, or want of memory. Of want
/// of memory nothing is said: it is also the answer where no fault was told, or none ended with the one that was.
pub fn outcome_of<'a, 'p, S, O, I>(
    rows: &[TaskRow<'a, 'p, S>],
    loops: &[LoopRow<'a, 'p, O, I>],
    collected: &CollectPlace<'a>,
    told: Option<Cause>,
) -> Cause
    ensures done { (result ≡ Done) ↔ AllDone rows.now loops.now collected.now }
    ensures ended { result ≢ Done → result ≢ Memory → HasEnded rows.now loops.now collected.now result }
    ensures told { result ≢ Done → result ≢ Memory → told ≡ Some result }
    ensures stopped { result ≢ Stopped }
{
    if all_done(rows) && all_done(loops) && is_done(collected) {
        return Cause::Done;
    }
    match told {
        None | Some(Cause::Done | Cause::Stopped) => Cause::Memory,
        Some(cause) => {
            if has_ended(rows, cause) || has_ended(loops, cause) || ended_with(collected, cause) {
                cause
            } else {
                Cause::Memory
            }
        }
    }
}
