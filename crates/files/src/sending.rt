ghost use Rattle.std.specs.Prelude.{OnOk, OnErr};
ghost use Rattle.std.specs.Io.KnownBytes.{Appends};
ghost use Rattle.files.specs.Sending.{Begins};

use std::io;
use std::io::{ErrorKind, Write};

/// Sends the bytes to the sink. An interrupted write is tried again. Returns the sink's error, or
/// `WriteZero` if the sink takes no byte; the sink has received a prefix of the bytes then.
pub fn send<W: Write>(sink: &mut W, bytes: &[u8]) -> io::Result<()>
    ensures sent { OnOk result (Appends (W.contents sink.old) (W.contents sink.new) bytes.now) }
    ensures begun { OnErr result (Begins (W.contents sink.old) (W.contents sink.new) bytes.now) }
{
    let mut sent = 0;
    for _ in 0..u64::MAX {
        if sent >= bytes.len() {
            return Ok(());
        }
        match sink.write(&bytes[sent..]) {
            Ok(0) => return Err(io::Error::from(ErrorKind::WriteZero)),
            Ok(count) => sent += count,
            Err(error) if error.kind() == ErrorKind::Interrupted => {}
            Err(error) => return Err(error),
        }
    }
    Err(io::Error::from(ErrorKind::TimedOut))
}
