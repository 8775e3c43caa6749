// Lines that the program holds, which a job reads as a file.
ghost use Rattle.std.specs.Prelude.{◌≡◌, Some, None, nat_eq, if◌then◌else◌};
ghost use Rattle.std.specs.Cmp.Lexicographic.{pointwise};

use outside::{Failed, Files, FindFault, Source};
use std::alloc::Global;

/// The only file there is: its name and its bytes.
#[derive(Drop)]
pub struct HeldFile<'a> {
    pub name: &'a str,
    pub text: &'a [u8],
    faults: u64,
    lent: u64,
}

/// What is left of the file to be read. No read of it fails.
#[derive(Drop)]
pub struct HeldInput<'a> {
    left: &'a [u8],
}

impl<'a> HeldFile<'a> {
    pub fn new(name: &'a str, text: &'a [u8]) -> Self
        ensures { (result.name.now ≡ name.now) × (result.text.now ≡ text.now) }
    {
        HeldFile {
            name,
            text,
            faults: 0,
            lent: 0,
        }
    }
}

impl Source for HeldInput<'_> {
    ghost left = { λ s. Some s.left.now };

    ghost faults = { λ _. 0 };

    fn read(&mut self, room: &mut [u8]) -> Result<usize, Failed> {
        let count = self.left.len().min(room.len());
        room[..count].copy_from_slice(&self.left[..count]);
        self.left = &self.left[count..];
        Ok(count)
    }
}

impl<'a> Files for HeldFile<'a> {
    type Input = HeldInput<'a>;

    ghost contents = { λ f name. if pointwise nat_eq name f.name.now then Some f.text.now else None };

    ghost faults = { λ f. f.faults };

    ghost lent = { λ f. f.lent };

    fn find(&mut self, _alloc: Global, name: &str) -> Result<HeldInput<'a>, FindFault> {
        match self.lent.checked_add(1) {
            Some(lent) if name == self.name => {
                self.lent = lent;
                Ok(HeldInput { left: self.text })
            }
            _ => {
                self.faults = self.faults.saturating_add(1);
                Err(FindFault::Failed)
            }
        }
    }

    fn back(&mut self, _input: HeldInput<'a>) {
        self.lent = self.lent.saturating_sub(1);
    }
}
