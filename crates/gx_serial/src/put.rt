// Bytes, put to a sink in pieces.
ghost use Rattle.std.specs.Prelude.{◌≡◌, ◌≤◌, OnOk, OnErr, IsErrOf};
ghost use Rattle.gx_io.specs.Faults.{Rose};
ghost use Rattle.gx_io.specs.Put.{GrowsBy, GrowsByPrefix};

use gx_io::{PutError, Sink};

// Bytes of one piece.
const PIECE: usize = 8192;

pub(crate) fn put_in_pieces<S: Sink>(sink: &mut S, bytes: &[u8]) -> Result<(), PutError>
    ensures ok { OnOk result (GrowsBy (S.written sink.old) (S.written sink.new) bytes.now) }
    ensures err { OnErr result (GrowsByPrefix (S.written sink.old) (S.written sink.new) bytes.now) }
    ensures counted { S.faults sink.old ≤ S.faults sink.new }
    ensures failed { IsErrOf result PutError.Failed → Rose (S.faults sink.old) (S.faults sink.new) }
{
    let mut done = 0;
    while done < bytes.len() {
        let end = bytes.len().min(done + PIECE);
        match sink.put(&bytes[done..end]) {
            Ok(()) => done = end,
            Err(error) => return Err(error),
        }
    }
    Ok(())
}
