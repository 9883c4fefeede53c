// A library of files, over std.
ghost use Rattle.std.specs.Prelude.{◌≡◌, ℕ, ◌+◌, ◌<◌, ◌≤◌, List, Option, None, Some, IfOk, IfErr, IfSome, OnOk, IsErrOf, vec_len, if◌then◌else◌, ◌⊎◌};
ghost use Rattle.gx_io.specs.Faults.{Rose, one_more};
ghost use Rattle.gx_io.specs.Load.{TellsLengthAbove, TellsLength, TooLongExactlyAbove, is_failed};
ghost use Rattle.gx_io.specs.Reader.{ConsumesAtMost};

use crate::errors::LoadError;
use crate::library::Library;
use std::alloc::Global;
use std::fs;
use std::fs::Files;
use std::io::Read;
use std::marker::Model;

// Bytes of one read.
const BLOCK: usize = 8192;

/// The files of a runtime, by path. It tells no contents, and each error of the runtime is a fault.
#[derive(Drop)]
pub struct FileLibrary<R: Files> {
    runtime: R,
    faults: u64,
}

// A contract sees its count of faults.
impl<R: Files> Model for FileLibrary<R> {
    ghost use Rattle.std.specs.Prelude.{ℕ};

    ghost Value = { ℕ };

    ghost view = { λ library. library.faults };
}

impl<R: Files> FileLibrary<R> {
    /// The files of that runtime.
    pub fn new(runtime: R) -> FileLibrary<R>
        ensures { result ≡ 0 }
    {
        FileLibrary { runtime, faults: 0 }
    }
}

impl<R: Files> Library for FileLibrary<R> {
    ghost files = { λ _. None };

    ghost faults = { λ library. library };

    ghost was_loaded = { λ before _ after. (after ≡ before) ⊎ (after ≡ one_more before) };

    fn load(&mut self, alloc: Global, name: &str, limit: usize) -> Result<Vec<u8>, LoadError>
        ensures call { (self.new ≡ self.old) ⊎ (self.new ≡ one_more self.old) }
        ensures counted { self.old ≤ self.new }
        ensures within { IfOk result (λ bytes. vec_len bytes ≤ limit) }
        ensures failed { IsErrOf result LoadError.Failed → Rose self.old self.new }
        ensures above { IfErr result (TellsLengthAbove limit) }

        // The count rises at a failure alone, and a length that is told is that of the bytes read.
        ensures rises { self.new ≡ (if is_failed result then one_more self.old else self.old) }
        ensures length { IfErr result (TellsLength (limit + 1)) }
    {
        let result = match fs::open(&self.runtime, name) {
            Ok(mut file) => read_within(alloc, &mut file, limit),
            Err(_) => Err(LoadError::Failed),
        };
        if let Err(LoadError::Failed) = result {
            self.faults = self.faults.saturating_add(1);
        }
        result
    }
}

/// All that a reader has left, if this is at most `limit` bytes; of more, one byte more than the limit is read.
///
/// # Errors
///
/// `TooLong` with `limit + 1` where there are more bytes than the limit, `Failed` where a read fails, and `Memory` where no
/// memory is found for what was read.
pub fn read_within<F: Read>(
    alloc: Global,
    reader: &mut F,
    limit: usize,
) -> Result<Vec<u8>, LoadError>
    ensures within { IfOk result (λ bytes. vec_len bytes ≤ limit) }
    ensures whole { IfOk result (λ bytes. IfSome (F.remaining reader.old) (λ rest. bytes.items ≡ rest)) }
    ensures too_long { IfSome (F.remaining reader.old) (λ rest. TooLongExactlyAbove limit (Some rest) result) }
    ensures length { IfErr result (TellsLength (limit + 1)) }
    ensures most { ConsumesAtMost (limit + 1) (F.remaining reader.old) (F.remaining reader.new) }
{
    let mut bytes = Vec::new(alloc);
    let mut block = [0u8; BLOCK];
    while bytes.len() <= limit {
        let room = (limit - bytes.len()).min(BLOCK - 1) + 1;
        match reader.read(&mut block[..room]) {
            Ok(0) => return Ok(bytes),
            Ok(count) => bytes.extend_from_slice(&block[..count])?,
            Err(_) => return Err(LoadError::Failed),
        }
    }
    let length = bytes.len() as u64;
    Err(LoadError::TooLong { length })
}
