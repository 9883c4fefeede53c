// A sink over a writer of std.
ghost use Rattle.std.specs.Prelude.{◌≡◌, ℕ, ◌≤◌, List, [], Option, None, IsOk, OnOk, OnErr, IsErrOf, is_ok, if◌then◌else◌, ◌⊎◌};
ghost use Rattle.std.specs.Io.KnownBytes.{Appends};
ghost use Rattle.gx_io.specs.Faults.{Rose, one_more};
ghost use Rattle.gx_io.specs.WriterState.{AppendsPrefix};

use crate::errors::PutError;
use crate::sink::Sink;
use std::io::Write;
use std::marker::Model;

/// A writer of std, which is flushed after each piece. It tells no bytes. Each error of the writer is a fault, and so
/// is a writer that takes nothing of a piece.
#[derive(Drop)]
pub struct WriterSink<W: Write> {
    writer: W,
    faults: u64,
}

impl<W: Write> Model for WriterSink<W> {
    ghost use Rattle.gx_io.specs.WriterState.{WriterState};

    ghost Value = { WriterState W };

    ghost view = { λ sink. record { writer = sink.writer; faults = sink.faults } };
}

impl<W: Write> WriterSink<W> {
    /// A sink that writes to that writer.
    pub fn new(writer: W) -> WriterSink<W>
        ensures { result ≡ record { writer = writer; faults = 0 } }
    {
        WriterSink { writer, faults: 0 }
    }
}

impl<W: Write> Sink for WriterSink<W> {
    ghost written = { λ _. None };

    ghost faults = { λ sink. sink.faults };

    ghost was_put = { λ before _ after. (after.faults ≡ before.faults) ⊎ (after.faults ≡ one_more before.faults) };

    fn put(&mut self, bytes: &[u8]) -> Result<(), PutError>
        ensures call { (self.new.faults ≡ self.old.faults) ⊎ (self.new.faults ≡ one_more self.old.faults) }
        ensures empty { bytes.now ≡ [] → IsOk result }
        ensures counted { self.old.faults ≤ self.new.faults }
        ensures failed { IsErrOf result PutError.Failed → Rose self.old.faults self.new.faults }

        // The count rises at a refusal alone, which is a failure.
        ensures rises { self.new.faults ≡ (if is_ok result then self.old.faults else one_more self.old.faults) }
        ensures refused { OnErr result (IsErrOf result PutError.Failed) }

        // What the writer holds, where it is known.
        ensures whole { OnOk result
            (Appends (W.contents self.old.writer) (W.contents self.new.writer) bytes.now) }
        ensures part { OnErr result
            (AppendsPrefix (W.contents self.old.writer) (W.contents self.new.writer) bytes.now) }
    {
        if bytes.is_empty() {
            return Ok(());
        }
        let result = write_and_flush(&mut self.writer, bytes);
        if result.is_err() {
            self.faults = self.faults.saturating_add(1);
        }
        result
    }
}

fn write_and_flush<W: Write>(writer: &mut W, bytes: &[u8]) -> Result<(), PutError>
    ensures whole { OnOk result (Appends (W.contents writer.old) (W.contents writer.new) bytes.now) }
    ensures part { OnErr result (AppendsPrefix (W.contents writer.old) (W.contents writer.new) bytes.now) }
    ensures refused { OnErr result (IsErrOf result PutError.Failed) }
{
    let mut written = 0;
    while written < bytes.len() {
        match writer.write(&bytes[written..]) {
            Ok(0) | Err(_) => return Err(PutError::Failed),
            Ok(count) => written += count,
        }
    }
    match writer.flush() {
        Ok(()) => Ok(()),
        Err(_) => Err(PutError::Failed),
    }
}
