// The standard output. Nothing is told of what it got.
ghost use Rattle.std.specs.Prelude.{None};

use crate::{Failed, Sink};
use std::io::Print;

/// The standard output.
pub struct StdSink<'a, R> {
    rt: &'a R,
    faults: u64,
}

impl<'a, R> StdSink<'a, R> {
    ghost use Rattle.std.specs.Prelude.{◌≡◌};

    /// The standard output of the runtime.
    pub fn new(rt: &'a R) -> Self
        ensures { result.faults ≡ 0 }
    {
        StdSink { rt, faults: 0 }
    }
}

impl<R> Drop for StdSink<'_, R> {
    fn drop(self) {
        let StdSink { rt: _, faults: _ } = self;
    }
}

impl<R: Print> Sink for StdSink<'_, R> {
    ghost got = { λ _. None };

    ghost faults = { λ s. s.faults };

    fn write(&mut self, bytes: &[u8]) -> Result<usize, Failed> {
        match self.rt.write_some(bytes) {
            Ok(count) => {
                if count == 0 {
                    self.faults = self.faults.saturating_add(1);
                }
                Ok(count)
            }
            Err(_) => {
                self.faults = self.faults.saturating_add(1);
                Err(Failed)
            }
        }
    }
}
