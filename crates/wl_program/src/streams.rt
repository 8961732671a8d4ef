//! The file of the images, and flushing what is still to be written.

ghost use Rattle.std.specs.Prelude.{◌≡◌, ◌⊎◌, IfErr};
ghost use Rattle.std.specs.Io.KnownBytes.{Keeps};
ghost use Rattle.wl_recording.specs.Images.{images_in};

use crate::fault::Fault;
use std::io::{BufWriter, ErrorKind, Write};
use std::rt::Files;
use std::{fs, io};

/// Opens the file of the images, if there is to be one.
pub(crate) fn create<F: Files + AllocGlobal>(
    files: &F,
    path: Option<&str>,
) -> Result<Option<BufWriter<F::File>>, Fault>
    ensures { IfErr result (λ fault. (fault ≡ Fault.Write) ⊎ (fault ≡ Fault.Memory)) }
{
    match path {
        Some(path) => Ok(Some(create_file(files, path)?)),
        None => Ok(None),
    }
}

fn create_file<F: Files + AllocGlobal>(files: &F, path: &str) -> Result<BufWriter<F::File>, Fault>
    ensures { IfErr result (λ fault. (fault ≡ Fault.Write) ⊎ (fault ≡ Fault.Memory)) }
{
    let file = fs::create(files, path).map_err(opening_failed)?;
    BufWriter::new(files.alloc(), file).map_err(opening_failed)
}

fn opening_failed(error: io::Error) -> Fault
    ensures { (result ≡ Fault.Write) ⊎ (result ≡ Fault.Memory) }
{
    match error.kind() {
        ErrorKind::OutOfMemory => Fault::Memory,
        _ => Fault::Write,
    }
}

/// Flushes what is still to be written.
pub(crate) fn flush<W: Write, P: Write>(output: &mut W, ppm: &mut Option<P>) -> Result<(), Fault>
    ensures kept { Keeps (W.contents output.old) (W.contents output.new) }
    ensures images { Keeps (images_in P.contents ppm.old) (images_in P.contents ppm.new) }
    ensures failed { IfErr result (λ fault. fault ≡ Fault.Write) }
{
    output.flush().map_err(|_| Fault::Write)?;
    match ppm {
        Some(ppm) => ppm.flush().map_err(|_| Fault::Write),
        None => Ok(()),
    }
}
