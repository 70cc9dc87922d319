//! A file of std as the system gives it.

ghost use Rattle.std.specs.Prelude.{◌≡◌, ◌<◌, [], false, length, IfOk};
ghost use Rattle.std.specs.Io.{ReadsAtMost, WritesAtMost};
ghost use Rattle.std.proofs.lemmas.Bool.{false≢true};

use crate::counted::counted;
use disk_trait::{DiskFault, Faults};
use std::fs::OpenFile;
use std::io;
use std::io::ErrorKind;
use std::os::unix::fs::FileExt;
use stream_io::RawFile;

/// A file of std. It tells nothing but its count of faults: that what it gives and takes is what the file holds, and
/// that the file keeps the model of crashes, is trusted.
#[derive(Drop)]
pub struct HostFile<F: FileExt + OpenFile + Drop> {
    file: F,
    faults: u64,
}

impl<F: FileExt + OpenFile + Drop> HostFile<F> {
    /// An open file.
    pub fn new(file: F) -> HostFile<F>
        ensures { ⟦<HostFile<F> as Faults>⟧.count result ≡ 0 }
    {
        HostFile { file, faults: 0 }
    }
}

/// An error of the system, which is a fault whatever it is.
fn disk_fault(_: io::Error) -> DiskFault {
    DiskFault
}

/// Reads once, and again if a signal interrupted it.
fn read_again<F: FileExt>(file: &F, at: u64, out: &mut [u8]) -> io::Result<usize>
    ensures { ReadsAtMost result out.new }
{
    for _ in 0..u64::MAX {
        match file.read_at(out, at) {
            Err(error) if error.kind() == ErrorKind::Interrupted => {}
            done => return done,
        }
    }
    Err(io::Error::from(ErrorKind::Interrupted))
}

/// Writes once, and again if a signal interrupted it. A file that takes none of a piece that is not empty has failed.
fn write_again<F: FileExt>(file: &F, at: u64, bytes: &[u8]) -> io::Result<usize>
    ensures size { WritesAtMost result bytes.now }
    ensures some { IfOk result (λ n. 0 < length bytes.now → 0 < n) }
{
    for _ in 0..u64::MAX {
        match file.write_at(bytes, at) {
            Err(error) if error.kind() == ErrorKind::Interrupted => {}
            Ok(0) if !bytes.is_empty() => return Err(io::Error::from(ErrorKind::WriteZero)),
            done => return done,
        }
    }
    Err(io::Error::from(ErrorKind::Interrupted))
}

impl<F: FileExt + OpenFile + Drop> Faults for HostFile<F> {
    ghost count = { λ it. it.faults };

    ghost steady = { λ _. false };

    fn faults(&self) -> u64 {
        self.faults
    }
}

impl<F: FileExt + OpenFile + Drop> RawFile for HostFile<F> {
    ghost told = { λ _. false };

    ghost reads = { λ _. [] };

    ghost room = { λ _. 0 };

    ghost honest = { λ _. false };

    ghost may_leave = { λ _ _. ⊥ };

    ghost grown = { λ _. false };

    ghost sync_failed = { λ _. false };

    fn len(&mut self) -> Result<u64, DiskFault> {
        let found = self.file.metadata();
        let length = found.map(|known| known.len()).map_err(disk_fault);
        counted(&mut self.faults, length)
    }

    fn read_at(&mut self, at: u64, out: &mut [u8]) -> Result<usize, DiskFault> {
        let read = read_again(&self.file, at, out).map_err(disk_fault);
        counted(&mut self.faults, read)
    }

    fn write_at(&mut self, at: u64, bytes: &[u8]) -> Result<usize, DiskFault> {
        let written = write_again(&self.file, at, bytes).map_err(disk_fault);
        counted(&mut self.faults, written)
    }

    fn sync_all(&mut self) -> Result<(), DiskFault> {
        let done = self.file.sync_all().map_err(disk_fault);
        counted(&mut self.faults, done)
    }

    fn sync_data(&mut self) -> Result<(), DiskFault> {
        let done = self.file.sync_data().map_err(disk_fault);
        counted(&mut self.faults, done)
    }

    ghost has_room = { λ _ told. absurd (false≢true told) };

    ghost leaves_reads = { λ _ honest _. absurd (false≢true honest) };

    ghost leaves_no_longer = { λ _ _ honest _ _. absurd (false≢true honest) };
}
