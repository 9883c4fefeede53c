// A library in memory.
ghost use Rattle.std.specs.Prelude.{◌≡◌, ◌≢◌, ℕ, ◌≤◌, ◌↔◌, List, [], ◌∷◌, ◌++◌, length, Option, None, Some, IfOk, IfErr, IfSome, OnOk, OnErr, MatchOption, IsTrue, IsErrOf, vec_len, string_bytes, slice_get, option_map, bytes_eq, ◌+◌, take, drop, option_copied};
ghost use Rattle.gx_io.specs.Faults.{one_more, Rose};
ghost use Rattle.gx_io.specs.Load.{file_of, IsFailedOrMemory, TellsLengthAbove, TellsLengthOf, TooLongExactlyAbove};
ghost use Rattle.gx_io.specs.LibraryState.{LibraryState, with_file, load_fails, after_load, IsCopyWithin};

use crate::errors::LoadError;
use crate::library::Library;
use std::alloc::{AllocError, Global};
use std::marker::Model;

/// Files in memory, which it tells. A name that it does not hold is a fault.
#[derive(Drop)]
pub struct MemoryLibrary {
    alloc: Global,
    files: Vec<HeldFile>,
    failing: Vec<u64>,
    calls: u64,
    faults: u64,
}

impl Model for MemoryLibrary {
    ghost use Rattle.gx_io.specs.LibraryState.{LibraryState};

    ghost Value = { LibraryState };

    ghost view = { λ library. record { files = library.files.items; failing = library.failing.items; calls = library.calls; faults = library.faults } };
}

#[derive(Drop)]
struct HeldFile {
    name: String,
    bytes: Vec<u8>,
}

impl Model for HeldFile {
    ghost use Rattle.std.specs.Prelude.{ℕ, List, string_bytes};

    ghost Value = { List ℕ × List ℕ };

    ghost view = { λ file. (string_bytes file.name, file.bytes.items) };
}

impl HeldFile {
    fn new(alloc: Global, name: &str, bytes: &[u8]) -> Result<HeldFile, AllocError>
        ensures { IfOk result (λ file. file ≡ (name.now, bytes.now)) }
    {
        Ok(HeldFile {
            name: String::from_str(alloc, name)?,
            bytes: Vec::from_slice(alloc, bytes)?,
        })
    }

    fn is_named(&self, name: &str) -> bool
        ensures { result ≡ bytes_eq self.now.0 name.now }
    {
        self.name.as_str() == name
    }

    fn bytes(&self) -> &[u8]
        ensures { result.now ≡ self.now.1 }
    {
        self.bytes.as_slice()
    }
}

// Where the file of that name stands, or how many files there are.
fn place_of(files: &[HeldFile], name: &str) -> usize
    ensures within { result ≤ length files.now }
    ensures file { file_of files.now name.now ≡ option_map (λ file. file.1) (slice_get files.now result) }
    ensures replaced { (bytes : List ℕ) → with_file files.now name.now bytes
        ≡ take result files.now ++ ((name.now, bytes) ∷ drop (result + 1) files.now) }
{
    for (i, file) in files.iter().enumerate() {
        if file.is_named(name) {
            return i;
        }
    }
    files.len()
}

impl MemoryLibrary {
    /// A library without files.
    pub fn new(alloc: Global) -> MemoryLibrary
        ensures { result ≡ record { files = []; failing = []; calls = 0; faults = 0 } }
    {
        MemoryLibrary {
            alloc,
            files: Vec::new(alloc),
            failing: Vec::new(alloc),
            calls: 0,
            faults: 0,
        }
    }

    /// Adds a file. Where the name is held already, these bytes replace those of its file.
    pub fn add(&mut self, name: &str, bytes: &[u8]) -> Result<(), AllocError>
        ensures ok { OnOk result
            (self.new ≡ record self.old { files = with_file self.old.files name.now bytes.now }) }
        ensures err { OnErr result (self.new ≡ self.old) }
    {
        let file = HeldFile::new(self.alloc, name, bytes)?;
        let i = place_of(self.files.as_slice(), name);
        if i < self.files.len() {
            self.files[i] = file;
        } else {
            self.files.push(file)?;
        }
        Ok(())
    }

    /// Makes the load with that number, counted from 1, fail.
    pub fn fail_at(&mut self, call: u64) -> Result<(), AllocError>
        ensures ok { OnOk result
            (self.new ≡ record self.old { failing = self.old.failing ++ call ∷ [] }) }
        ensures err { OnErr result (self.new ≡ self.old) }
    {
        self.failing.push(call)?;
        Ok(())
    }

    fn file(&self, name: &str) -> Option<&[u8]>
        ensures { option_copied result ≡ file_of self.now.files name.now }
    {
        let place = place_of(self.files.as_slice(), name);
        if place < self.files.len() {
            Some(self.files[place].bytes())
        } else {
            None
        }
    }

    // Counts a load of that name, and says whether it fails.
    fn count_load(&mut self, name: &str) -> bool
        ensures fails { result ≡ load_fails self.old name.now }
        ensures after { self.new ≡ after_load self.old name.now }
        ensures counted { self.old.faults ≤ self.new.faults }
    {
        let is_held = self.file(name).is_some();
        self.calls = self.calls.saturating_add(1);
        let fails = self.failing.contains(&self.calls) || !is_held;
        if fails {
            self.faults = self.faults.saturating_add(1);
        }
        fails
    }
}

// The bytes, or how many they are where they are more than the limit.
fn copy_within(alloc: Global, bytes: &[u8], limit: usize) -> Result<Vec<u8>, LoadError>
    ensures { IsCopyWithin limit bytes.now result }
{
    if bytes.len() > limit {
        let length = bytes.len() as u64;
        return Err(LoadError::TooLong { length });
    }
    Ok(Vec::from_slice(alloc, bytes)?)
}

impl Library for MemoryLibrary {
    ghost files = { λ library. Some library.files };

    ghost faults = { λ library. library.faults };

    ghost was_loaded = { λ before name after. after ≡ after_load before name };

    fn load(&mut self, alloc: Global, name: &str, limit: usize) -> Result<Vec<u8>, LoadError>
        ensures call { self.new ≡ after_load self.old name.now }
        ensures told { self.new.files ≡ self.old.files }
        ensures counted { self.old.faults ≤ self.new.faults }
        ensures within { IfOk result (λ bytes. vec_len bytes ≤ limit) }
        ensures whole { IfSome (Some self.old.files)
            (λ held. IfOk result (λ bytes. file_of held name.now ≡ Some bytes.items)) }
        ensures absent { IfSome (Some self.old.files)
            (λ held. file_of held name.now ≡ None → IsFailedOrMemory result) }
        ensures failed { IsErrOf result LoadError.Failed → Rose self.old.faults self.new.faults }
        ensures above { IfErr result (TellsLengthAbove limit) }
        ensures too_long { IfSome (Some self.old.files)
            (λ held. TooLongExactlyAbove limit (file_of held name.now) result) }

        // Which loads fail; `call` says what each load leaves.
        ensures fails { IsErrOf result LoadError.Failed ↔ IsTrue (load_fails self.old name.now) }
        ensures length { TellsLengthOf (file_of self.old.files name.now) result }
    {
        if self.count_load(name) {
            return Err(LoadError::Failed);
        }
        match self.file(name) {
            Some(bytes) => copy_within(alloc, bytes, limit),
            None => unreachable!(),
        }
    }
}

/// A file that was set is found by its name, and every other name finds what it found before.
pub fn law_of_names()
    ensures set { (files : List (List ℕ × List ℕ)) → (name : List ℕ) → (bytes : List ℕ)
        → file_of (with_file files name bytes) name ≡ Some bytes }
    ensures others { (files : List (List ℕ × List ℕ)) → (name : List ℕ) → (bytes : List ℕ) → (other : List ℕ)
        → other ≢ name → file_of (with_file files name bytes) other ≡ file_of files other }
{}
