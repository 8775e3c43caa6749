// A pass.
ghost use Rattle.std.specs.Prelude.{◌≡◌};

use crate::rule::Place;
use crate::turned::Turned;

/// The right to take turns at one cell, one after another. A pass that is dropped can't be handed
/// to `close`, so its cell can't be closed any more.
pub struct Pass<S: Turned> {
    // It is kept so that a pass has a size: no proof is made of an element of a slice that has none.
    pub(crate) number: u32,
    // How many entries the history had when this pass saw it last, or the greatest number where it had more.
    pub(crate) entries: u64,
    pub(crate) seat: Place<S>,
}

impl<S: Turned> Pass<S> {
    pub(crate) fn into_seat(self) -> Place<S>
        ensures { result ≡ self.seat }
    {
        let Self {
            number: _,
            entries: _,
            seat,
        } = self;
        seat
    }
}

impl<S: Turned> Drop for Pass<S> {
    fn drop(self) {
        let Self {
            number: _,
            entries: _,
            seat,
        } = self;
        drop(seat);
    }
}
