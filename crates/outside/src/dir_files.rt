// The files below the working folder. Nothing is told of what they hold.
ghost use Rattle.std.specs.Prelude.{None};

use crate::{Failed, Files, FindFault, Source};
use std::alloc::Global;
use std::fs::File;
use std::io::Read;

/// The files below the working folder. A name is resolved by the operating system.
pub struct DirFiles<'a, R> {
    rt: &'a R,
    faults: u64,
    lent: u64,
}

impl<'a, R> DirFiles<'a, R> {
    ghost use Rattle.std.specs.Prelude.{◌≡◌};

    /// The files as the runtime shows them.
    pub fn new(rt: &'a R) -> Self
        ensures faults { result.faults ≡ 0 }
        ensures lent { result.lent ≡ 0 }
    {
        DirFiles {
            rt,
            faults: 0,
            lent: 0,
        }
    }
}

impl<R> Drop for DirFiles<'_, R> {
    fn drop(self) {
        let DirFiles {
            rt: _,
            faults: _,
            lent: _,
        } = self;
    }
}

/// A file that was found.
#[derive(Drop)]
pub struct DirSource<F: Drop> {
    file: F,
    faults: u64,
}

impl<F: Read + Drop> Source for DirSource<F> {
    ghost left = { λ _. None };

    ghost faults = { λ s. s.faults };

    fn read(&mut self, room: &mut [u8]) -> Result<usize, Failed> {
        match self.file.read(room) {
            Ok(count) => Ok(count),
            Err(_) => {
                self.faults = self.faults.saturating_add(1);
                Err(Failed)
            }
        }
    }
}

impl<R: std::rt::Files> Files for DirFiles<'_, R>
where
    R::File: Send,
{
    type Input = DirSource<R::File>;

    ghost contents = { λ _ _. None };

    ghost faults = { λ f. f.faults };

    ghost lent = { λ f. f.lent };

    fn find(&mut self, _alloc: Global, name: &str) -> Result<DirSource<R::File>, FindFault> {
        let Some(lent) = self.lent.checked_add(1) else {
            self.faults = self.faults.saturating_add(1);
            return Err(FindFault::Failed);
        };
        match std::fs::open(self.rt, name) {
            Ok(file) => {
                self.lent = lent;
                Ok(DirSource { file, faults: 0 })
            }
            Err(_) => {
                self.faults = self.faults.saturating_add(1);
                Err(FindFault::Failed)
            }
        }
    }

    fn back(&mut self, input: DirSource<R::File>) {
        self.lent = self.lent.saturating_sub(1);
        if input.faults > 0 {
            self.faults = self.faults.saturating_add(1);
        }
    }
}
