ghost use Rattle.std.specs.Prelude.{◌≡◌, ◌≢◌, ◌≤◌, ◌↔◌, Some, None, false, IsTrue, IfOk, OnOk, OnErr, bytes_eq, position};
ghost use Rattle.ccpp_edge.specs.Fake.{bytes_under};
ghost use Rattle.ccpp_edge.specs.Shelf.{SameButFor};
ghost use Rattle.std.specs.Option.{option_copied};

use crate::calls::Calls;
use crate::{Bytes, List, Shelf, ShelfFault, Text};
use std::alloc::{AllocError, Global};
use std::marker::Model;

/// The name of a file, and its bytes.
#[derive(Debug, Drop)]
pub struct NamedBytes {
    pub name: Text,
    pub bytes: Bytes,
}

/// A shelf in memory, of whose calls some are to fail. It is for tests. This project's own.
#[derive(Debug, Drop)]
pub struct MemShelf {
    alloc: Global,
    files: List<NamedBytes>,
    calls: Calls,
}

impl Model for MemShelf {
    ghost use Rattle.ccpp_edge.specs.Fake.{FakeShelf};

    ghost Value = { FakeShelf };

    ghost view = { λ shelf. record { files = shelf.files; calls = shelf.calls } };
}

impl MemShelf {
    ghost use Rattle.ccpp_edge.specs.Fake.{NamesDiffer};

    /// A shelf that holds these files, the names of which differ. Of its reads and writes, counted together from 0, exactly those
    /// with a number in `failing` fail.
    pub fn new(alloc: Global, files: List<NamedBytes>, failing: List<u64>) -> MemShelf
        requires { NamesDiffer files }
        ensures { result ≡ record { files = files; calls = record { failing = failing; made = 0; faults = 0 } } }
    {
        MemShelf {
            alloc,
            files,
            calls: Calls::new(failing),
        }
    }
}

impl Shelf for MemShelf {
    ghost use Rattle.ccpp_edge.specs.Fake.{next_fails, counted, bytes_under};

    ghost held = { λ shelf. Some (bytes_under shelf.files) };

    ghost faults = { λ shelf. shelf.calls.faults };

    fn read(&mut self, name: &str) -> Result<Bytes, ShelfFault>
        ensures bytes { IfOk result (λ bytes. bytes_under self.old.files name.now ≡ Some bytes) }
        ensures failed { (result ≡ Err ShelfFault.Failed) ↔ IsTrue (next_fails self.old.calls) }
        ensures absent { (result ≡ Err ShelfFault.Absent) ↔ ((next_fails self.old.calls ≡ false) × (bytes_under self.old.files name.now ≡ None)) }
        ensures shelf { self.new ≡ record self.old { calls = counted self.old.calls } }
    {
        if self.calls.next_fails() {
            return Err(ShelfFault::Failed);
        }
        let bytes = bytes_of(self.files.as_slice(), name).ok_or(ShelfFault::Absent)?;
        Ok(Bytes::from_slice(self.alloc, bytes.as_slice())?)
    }

    /// A call that fails changes nothing held.
    fn write(&mut self, name: &str, bytes: &[u8]) -> Result<(), ShelfFault>
        ensures bytes { OnOk result (bytes_under self.new.files name.now ≡ Some bytes.now) }
        ensures others { SameButFor (Some (bytes_under self.old.files)) (Some (bytes_under self.new.files)) name.now }
        ensures refused { OnErr result (self.new.files ≡ self.old.files) }
        ensures failed { (result ≡ Err ShelfFault.Failed) ↔ IsTrue (next_fails self.old.calls) }
        ensures never_absent { result ≢ Err ShelfFault.Absent }
        ensures calls { self.new.calls ≡ counted self.old.calls }
    {
        if self.calls.next_fails() {
            return Err(ShelfFault::Failed);
        }
        let file = NamedBytes {
            name: Text::of(self.alloc, name)?,
            bytes: Bytes::from_slice(self.alloc, bytes)?,
        };
        Ok(put(&mut self.files, file)?)
    }
}

/// Puts a file in the place of the one of its name, or at the end where there is none. Want of memory changes nothing.
fn put(files: &mut List<NamedBytes>, file: NamedBytes) -> Result<(), AllocError>
    ensures bytes { OnOk result (bytes_under files.new file.name ≡ Some file.bytes) }
    ensures others { OnOk result (SameButFor (Some (bytes_under files.old)) (Some (bytes_under files.new)) file.name) }
    ensures err { OnErr result (files.new ≡ files.old) }
{
    match place_of(files.as_slice(), file.name.as_str()) {
        Some(at) => {
            files.set(at, file);
            Ok(())
        }
        None => files.push(file),
    }
}

/// The bytes of the file of this name.
fn bytes_of<'a>(files: &'a [NamedBytes], name: &str) -> Option<&'a Bytes>
    ensures { option_copied result ≡ bytes_under files.now name.now }
{
    let file = files.iter().find(|file| file.name.as_str() == name)?;
    Some(&file.bytes)
}

/// The first place of a file of this name.
fn place_of(files: &[NamedBytes], name: &str) -> Option<usize>
    ensures { result ≡ position (λ file. bytes_eq file.name name.now) files.now }
{
    files.iter().position(|file| file.name.as_str() == name)
}
