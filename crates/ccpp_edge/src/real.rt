// Files and the standard output. No contract can say what they hold: here the trust in the system begins.
ghost use Rattle.std.specs.Prelude.{◌≡◌, ◌≢◌, ◌≤◌, None, IfOk, IfSome, OnOk, OnErr};
ghost use Rattle.std.specs.Io.KnownBytes.{Appends};
ghost use Rattle.ccpp_edge.specs.Count.{Rose, raised};
ghost use Rattle.ccpp_edge.specs.declared.shelf.ShelfFault.TheVariants.{Failed as TheShelfFailed};
ghost use Rattle.ccpp_edge.specs.declared.sink.SinkFault.TheVariants.{Failed as TheSinkFailed};

use crate::calls::raise;
use crate::{Bytes, Shelf, ShelfFault, Sink, SinkFault};
use std::alloc::Global;
use std::fs::File;
use std::io::{self, ErrorKind, Read, Write};
use std::rt::Files;

/// How many bytes of a file are asked for at a time.
const PIECE_LEN: usize = 16384;

/// The files of the system, by their paths. It tells nothing of what they hold. Each call of the system that fails, and so
/// a file that is missing too, raises its count of faults, up to the last value of a `u64`. This project's own.
#[derive(Drop)]
pub struct RealShelf<'a, R> {
    alloc: Global,
    files: &'a R,
    faults: u64,
}

impl<'a, R: Files> RealShelf<'a, R> {
    /// The files that the runtime reaches.
    pub fn new(alloc: Global, files: &'a R) -> RealShelf<'a, R>
        ensures { ⟦<RealShelf<'a, R> as Shelf>⟧.faults result ≡ 0 }
    {
        RealShelf {
            alloc,
            files,
            faults: 0,
        }
    }
}

impl<R: Files> Shelf for RealShelf<'_, R> {
    ghost held = { λ _. None };

    ghost faults = { λ shelf. shelf.faults };

    fn read(&mut self, name: &str) -> Result<Bytes, ShelfFault> {
        match File::open(self.files, name) {
            Ok(mut file) => read_whole(&mut file, self.alloc, &mut self.faults),
            Err(error) => {
                raise(&mut self.faults);
                Err(match error.kind() {
                    ErrorKind::NotFound => ShelfFault::Absent,
                    _ => ShelfFault::Failed,
                })
            }
        }
    }

    fn write(&mut self, name: &str, bytes: &[u8]) -> Result<(), ShelfFault> {
        match File::create(self.files, name) {
            Ok(mut file) => Ok(write_whole(&mut file, bytes, &mut self.faults)?),
            Err(_) => {
                raise(&mut self.faults);
                Err(ShelfFault::Failed)
            }
        }
    }
}

/// The standard output. It tells nothing of what was written. Each call of the system that fails raises its count of
/// faults, up to the last value of a `u64`. This project's own.
#[derive(Drop)]
pub struct RealSink<'a, P> {
    output: &'a P,
    faults: u64,
}

impl<'a, P: Print> RealSink<'a, P> {
    /// What the runtime prints to.
    pub fn new(output: &'a P) -> RealSink<'a, P>
        ensures { ⟦<RealSink<'a, P> as Sink>⟧.faults result ≡ 0 }
    {
        RealSink { output, faults: 0 }
    }
}

impl<P: Print> Sink for RealSink<'_, P> {
    ghost written = { λ _. None };

    ghost faults = { λ sink. sink.faults };

    fn write_all(&mut self, bytes: &[u8]) -> Result<(), SinkFault> {
        Ok(write_whole(&mut io::writer(self.output), bytes, &mut self.faults)?)
    }
}

/// A call of the system failed, and was counted.
#[derive(Clone, Copy, Debug)]
struct SystemFailed;

impl From<SystemFailed> for ShelfFault {
    ghost from_gives = { λ _ fault. fault ≡ TheShelfFailed };

    fn from(_: SystemFailed) -> Self {
        ShelfFault::Failed
    }
}

impl From<SystemFailed> for SinkFault {
    ghost from_gives = { λ _ fault. fault ≡ TheSinkFailed };

    fn from(_: SystemFailed) -> Self {
        SinkFault::Failed
    }
}

/// The bytes that the reader has left.
fn read_whole<F: Read>(reader: &mut F, alloc: Global, faults: &mut u64) -> Result<Bytes, ShelfFault>
    ensures whole { IfOk result (λ bytes. IfSome (F.remaining reader.old) (λ left. bytes ≡ left)) }
    ensures failed { result ≡ Err ShelfFault.Failed → Rose faults.old faults.new }
    ensures never_absent { result ≢ Err ShelfFault.Absent }
    ensures faults { faults.old ≤ faults.new }
{
    let mut bytes = Bytes::new(alloc);
    let mut piece = [0u8; PIECE_LEN];
    for _ in 0..u64::MAX {
        match reader.read(&mut piece) {
            Ok(0) => return Ok(bytes),
            Ok(taken) => bytes.extend_from_slice(&piece[..taken])?,
            Err(error) => count_failure(&error, faults)?,
        }
    }
    raise(faults);
    Err(ShelfFault::Failed)
}

/// Hands all bytes to the writer, in as many calls as it wants.
fn write_whole<W: Write>(writer: &mut W, bytes: &[u8], faults: &mut u64) -> Result<(), SystemFailed>
    ensures whole { OnOk result (Appends (W.contents writer.old) (W.contents writer.new) bytes.now) }
    ensures failed { OnErr result (Rose faults.old faults.new) }
    ensures faults { faults.old ≤ faults.new }
{
    let mut rest = bytes;
    for _ in 0..u64::MAX {
        if rest.is_empty() {
            return Ok(());
        }
        match writer.write(rest) {
            Ok(0) => break,
            Ok(taken) => rest = &rest[taken..],
            Err(error) => count_failure(&error, faults)?,
        }
    }
    raise(faults);
    Err(SystemFailed)
}

/// Counts a call of the system that failed. One that was interrupted may be made again.
fn count_failure(error: &io::Error, faults: &mut u64) -> Result<(), SystemFailed>
    ensures exact { faults.new ≡ raised faults.old }
    ensures rose { Rose faults.old faults.new }
    ensures faults { faults.old ≤ faults.new }
{
    raise(faults);
    match error.kind() {
        ErrorKind::Interrupted => Ok(()),
        _ => Err(SystemFailed),
    }
}
