// Files in memory.
ghost use Rattle.std.specs.Prelude.{◌≡◌, ◌+◌, ◌-◌, ◌<◌, ◌≤◌, Some, None, Err, IfOk, IfSome, IfNone, OnOk, OnErr};
ghost use Rattle.outside.specs.Faults.{HasRisen};
ghost use Rattle.outside.specs.Memory.{source_of};
ghost use Rattle.outside.specs.MemoryFiles.{AllGive, named, contents_in, BackStep, FindStep};

use crate::{Files, FindFault, MemorySource};
use flow_defs::{Bytes, ListOf, Word};
use std::alloc::{AllocError, Global};
use std::marker::Model;

/// A file: its name, its bytes, how many of them a read gives at most, and the numbers of the reads
/// that fail, counted from 1.
#[derive(Debug, Drop)]
pub struct MemoryFile {
    pub name: Word,
    pub bytes: Bytes,
    pub most: usize,
    pub fails: ListOf<u64>,
}

/// Files in memory. The calls of `find` whose numbers are listed fail.
#[derive(Debug, Drop)]
pub struct MemoryFiles {
    files: ListOf<MemoryFile>,
    finds: ListOf<u64>,
    calls: u64,
    faults: u64,
    lent: u64,
}

impl Model for MemoryFiles {
    ghost use Rattle.outside.specs.MemoryFiles.{FilesState, AllGive};

    ghost Value = { FilesState };

    ghost view = { λ f. record { files = f.files.items; fails = f.finds.items; calls = f.calls; faults = f.faults; lent = f.lent } };

    ghost invariant = { λ f. AllGive f.files.items };
}

impl MemoryFiles {
    ghost use Rattle.outside.specs.MemoryFiles.{files_of};

    /// These files. The numbers in `finds` count from 1.
    pub fn new(files: ListOf<MemoryFile>, finds: ListOf<u64>) -> Self
        requires { AllGive files.items }
        ensures { result ≡ files_of files.items finds.items }
    {
        MemoryFiles {
            files,
            finds,
            calls: 0,
            faults: 0,
            lent: 0,
        }
    }
}

// The first file of this name.
fn file_named<'a>(files: &'a [MemoryFile], name: &str) -> Option<&'a MemoryFile>
    ensures some { IfSome result (λ file. named files.now name.now ≡ Some file.now) }
    ensures gives { IfSome result (λ file. AllGive files.now → 1 ≤ file.now.most) }
    ensures none { IfNone result (named files.now name.now ≡ None) }
{
    for file in files {
        if file.name.text() == name {
            return Some(file);
        }
    }
    None
}

// A source of a copy of the file.
fn source_of(alloc: Global, file: &MemoryFile) -> Result<MemorySource, AllocError>
    requires { 1 ≤ file.now.most }
    ensures { IfOk result (λ source. source ≡ source_of file.now.bytes.items file.now.most file.now.fails.items) }
{
    let mut bytes = Bytes::new(alloc);
    bytes.extend(file.bytes.as_slice())?;
    let mut fails = ListOf::new(alloc);
    for number in file.fails.as_slice() {
        fails.push(*number)?;
    }
    Ok(MemorySource::new(bytes, file.most, fails))
}

impl Files for MemoryFiles {
    type Input = MemorySource;

    ghost contents = { λ f. contents_in f.files };

    ghost faults = { λ f. f.faults };

    ghost lent = { λ f. f.lent };

    fn find(&mut self, alloc: Global, name: &str) -> Result<MemorySource, FindFault>
        ensures told { IfOk result (λ input. Some input.left ≡ contents_in self.old.files name.now) }
        ensures fresh { IfOk result (λ input. input.faults ≡ 0) }
        ensures same { contents_in self.new.files ≡ contents_in self.old.files }
        ensures never_falls { self.old.faults ≤ self.new.faults }
        ensures failed { result ≡ Err FindFault.Failed → HasRisen self.old.faults self.new.faults }
        ensures lends { OnOk result (self.new.lent ≡ self.old.lent + 1) }
        ensures lends_none { OnErr result (self.new.lent ≡ self.old.lent) }

        // Which call fails, and what another one gives.
        ensures step { FindStep self.old name.now result self.new }
    {
        self.calls = self.calls.saturating_add(1);
        if self.finds.as_slice().contains(&self.calls) {
            self.faults = self.faults.saturating_add(1);
            return Err(FindFault::Failed);
        }
        let Some(lent) = self.lent.checked_add(1) else {
            self.faults = self.faults.saturating_add(1);
            return Err(FindFault::Failed);
        };
        match file_named(self.files.as_slice(), name) {
            Some(file) => {
                let source = source_of(alloc, file)?;
                self.lent = lent;
                Ok(source)
            }
            None => {
                self.faults = self.faults.saturating_add(1);
                Err(FindFault::Failed)
            }
        }
    }

    fn back(&mut self, input: MemorySource)
        ensures same { contents_in self.new.files ≡ contents_in self.old.files }
        ensures rises { 0 < input.faults → HasRisen self.old.faults self.new.faults }
        ensures stays { input.faults ≡ 0 → self.new.faults ≡ self.old.faults }
        ensures never_falls { self.old.faults ≤ self.new.faults }
        ensures returns { self.new.lent ≡ self.old.lent - 1 }

        // What is counted, and that nothing else changes.
        ensures step { BackStep self.old input self.new }
    {
        self.lent = self.lent.saturating_sub(1);
        if input.faults() > 0 {
            self.faults = self.faults.saturating_add(1);
        }
    }
}
