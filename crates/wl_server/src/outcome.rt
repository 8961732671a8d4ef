//! What a call of the system came to, over any listener's answer, reader or writer.

ghost use Rattle.std.specs.Prelude.{◌≡◌, ◌≤◌, ◌<◌, [], Some, length, take, IfOk, IfSome, IfNone, OnErr};
ghost use Rattle.std.specs.Io.KnownBytes.{Appends, Consumes, IsAtEnd, Keeps};
ghost use Rattle.wl_server.specs.Faults.{count_after};
ghost use Rattle.wl_server.specs.Outcome.{Answers};

use crate::hub::HubFault;
use std::io;
use std::io::{ErrorKind, Read, Write};

/// Answers what a call gave, `None` if it would block or was interrupted. Anything else is a fault,
/// which it counts.
pub(crate) fn settle<T>(faults: &mut u64, outcome: io::Result<T>) -> Result<Option<T>, HubFault>
    ensures answers { Answers outcome result }
    ensures counted { faults.new ≡ count_after faults.old result }
{
    match outcome {
        Ok(given) => Ok(Some(given)),
        Err(error) => match error.kind() {
            ErrorKind::WouldBlock | ErrorKind::Interrupted => Ok(None),
            _ => {
                *faults = faults.saturating_add(1);
                Err(HubFault)
            }
        },
    }
}

/// Reads once. What the reader has left loses the bytes that are answered, and nothing else.
pub(crate) fn read_from<R: Read>(
    faults: &mut u64,
    reader: &mut R,
    buf: &mut [u8],
) -> Result<Option<usize>, HubFault>
    ensures within { IfOk result (λ got. IfSome got (λ n. n ≤ length buf.new)) }
    ensures bytes { IfOk result (λ got. IfSome got (λ n. Consumes (R.remaining reader.old) (R.remaining reader.new) (take n buf.new))) }
    ensures end { IfOk result (λ got. IfSome got (λ n. n ≡ 0 → 0 < length buf.new → IsAtEnd (R.remaining reader.new))) }
    ensures blocks { IfOk result (λ got. IfNone got (Keeps (R.remaining reader.old) (R.remaining reader.new))) }
    ensures err { OnErr result (Keeps (R.remaining reader.old) (R.remaining reader.new)) }
    ensures counted { faults.new ≡ count_after faults.old result }
{
    settle(faults, reader.read(buf))
}

/// Writes once. What the writer holds grows by the bytes that are answered, and by nothing else.
pub(crate) fn write_to<W: Write>(
    faults: &mut u64,
    writer: &mut W,
    bytes: &[u8],
) -> Result<Option<usize>, HubFault>
    ensures within { IfOk result (λ got. IfSome got (λ n. n ≤ length bytes.now)) }
    ensures bytes { IfOk result (λ got. IfSome got (λ n. Appends (W.contents writer.old) (W.contents writer.new) (take n bytes.now))) }
    ensures blocks { IfOk result (λ got. IfNone got (Keeps (W.contents writer.old) (W.contents writer.new))) }
    ensures err { OnErr result (Keeps (W.contents writer.old) (W.contents writer.new)) }
    ensures counted { faults.new ≡ count_after faults.old result }
{
    settle(faults, writer.write(bytes))
}
