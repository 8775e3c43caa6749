// How two passes tell one another what they have seen.
// One pass takes the other in, learns the history, and releases it.
ghost use Rattle.std.specs.Prelude.{◌≡◌};
ghost use Rattle.turn_cell.specs.History.{StartsWith};
ghost use Rattle.turn_cell.specs.Passes.{IsPassOf, IsSamePass, seen, sights};

use crate::cell::TurnCell;
use crate::gather::{gather, lay_off, learn, release};
use crate::pass::Pass;
use crate::turned::Turned;

impl<S: Turned> TurnCell<S> {
    /// Both passes have then seen one history, which begins with what each had seen. Takes constant
    /// time and no memory, and waits for no turn.
    pub fn meet(&self, a: &mut Pass<S>, b: &mut Pass<S>)
        requires { IsPassOf self.now a.old × IsPassOf self.now b.old }
        ensures passes { IsPassOf self.now a.new × IsPassOf self.now b.new }
        ensures same { IsSamePass a.old a.new × IsSamePass b.old b.new }
        ensures begins { StartsWith (seen a.new) (seen a.old) × StartsWith (seen a.new) (seen b.old) }
        ensures one { seen b.new ≡ seen a.new }
        ensures sights { (sights a.new ≡ sights a.old) × (sights b.new ≡ sights b.old) }
    {
        let other = lay_off(self, b);
        gather(self, a, other);
        learn(self, a);
        let other = release(self, a, b.number);
        *b = other;
    }
}
