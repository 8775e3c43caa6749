// Whether it is worth to take a turn.
ghost use Rattle.std.specs.Prelude.{◌≡◌, MatchBool};
ghost use Rattle.turn_cell.specs.Passes.{IsPassOf, IsSamePass, HasSighted, seen, sights};

use crate::cell::TurnCell;
use crate::pass::Pass;
use crate::rule::{Glance, NEWS};
use crate::turned::Turned;

impl<S: Turned> TurnCell<S> {
    /// Whether a turn has ended with an entry since the pass's last one, or since the start. It takes no turn,
    /// so a loop that found nothing asks this before it looks again, and is in nobody's way. No clause says
    /// what it answers; a turn alone tells.
    pub fn has_news(&self, pass: &Pass<S>) -> bool {
        self.table.shared.peek(NEWS) != pass.entries
    }

    /// Looks whether the pass has seen the history as it stands, by one load and with no turn. Where it
    /// answers true, this was a look: there was a moment in this call at which the history was just what
    /// the pass has seen. Where it answers false there may be news, and a turn tells.
    pub fn is_current(&self, pass: &mut Pass<S>) -> bool
        requires { IsPassOf self.now pass.old }
        ensures pass { IsPassOf self.now pass.new × IsSamePass pass.old pass.new × (seen pass.new ≡ seen pass.old) }
        ensures looked { MatchBool result (HasSighted pass.old pass.new) (sights pass.new ≡ sights pass.old) }
    {
        let found = self.table.shared.load::<Glance>(&mut pass.seat, NEWS);
        found == pass.entries && found < u64::MAX
    }
}

/// Whether one of these cells has news for the pass at its place.
pub fn have_news<S: Turned>(cells: &[TurnCell<S>], passes: &[Pass<S>]) -> bool {
    for at in 0..cells.len().min(passes.len()) {
        if cells[at].has_news(&passes[at]) {
            return true;
        }
    }
    false
}
