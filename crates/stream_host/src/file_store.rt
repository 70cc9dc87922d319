//! The store of files.

ghost use Rattle.std.specs.Prelude.{◌≡◌, ◌<◌, ◌≤◌, ℕ, Err, length, IfOk, false, refl};
ghost use Rattle.stream_host.specs.Untold.{IsNewStore, untold_store};
ghost use Rattle.stream_io.specs.declared.store.ReadAllFault.{ReadAllFault};

use crate::causes::{call_fault, new_fault, read_fault};
use crate::fault_count::FaultCount;
use crate::file_disk::FileDisk;
use crate::host_file::HostFile;
use crate::lockable::Lockable;
use crate::new_file::{is_taken, write_new};
use crate::open_file::{make_disk, open_disk, open_view};
use disk_trait::Faults;
use std::alloc::Global;
use std::fs::{File, OpenFile};
use std::io::Read;
use std::os::unix::fs::FileExt;
use std::rt::Files;
use stream_io::{CallFault, NewFault, ReadAllFault, Readers, Store};

/// The store of a runtime's files. It tells nothing but its counts of faults.
///
/// An error of the system that says that memory ran out counts as that, and any other is a fault, except that a name
/// which must be new may be taken. Anything that stands at a name takes it, even a folder or a dangling link.
///
/// A disk is a file that is open for reading and writing and whose advisory lock is held, so no other store hands the
/// same file out as a disk meanwhile. That lock is a method of `std::fs::File` alone, so files say by `Lockable` that
/// they have one.
#[derive(Drop)]
pub struct FileStore<R: Files + Drop> {
    rt: R,
    faults: FaultCount,
    disk_faults: FaultCount,
}

impl<R: Files + Drop> FileStore<R>
where
    R::File: FileExt + Lockable + Send,
{
    /// The store of the files of this runtime. No call has failed yet.
    pub fn new(rt: R) -> FileStore<R>
        ensures { IsNewStore (⟦<FileStore<R> as Store>⟧.state result) }
    {
        FileStore {
            rt,
            faults: FaultCount::new(),
            disk_faults: FaultCount::new(),
        }
    }
}

/// Reads a file whole, if it has at most `limit` bytes. Memory is taken for its length, and one byte more for the
/// read that finds its end; a file that grows meanwhile, or tells no length, takes what its bytes need.
fn read_file<R: Files>(
    rt: &R,
    alloc: Global,
    name: &str,
    limit: u64,
) -> Result<Vec<u8>, ReadAllFault>
    ensures within { IfOk result (λ v. length v.items ≤ limit) }
    ensures above { (got : ℕ) → result ≡ Err (ReadAllFault.TooLong got) → limit < got }
{
    let file = File::open(rt, name).map_err(read_fault)?;
    let found = file.metadata().map_err(read_fault)?;
    let got = found.len();
    if found.is_file() && got > limit {
        return Err(ReadAllFault::TooLong { got });
    }
    let room = got.min(limit).saturating_add(1);
    let mut bytes = Vec::with_capacity(alloc, room as usize)?;
    let read = file.take(limit.saturating_add(1)).read_to_end(&mut bytes);
    read.map_err(read_fault)?;
    let got = bytes.len() as u64;
    if got > limit {
        return Err(ReadAllFault::TooLong { got });
    }
    Ok(bytes)
}

/// Closes a file that was handed out, and answers how many faults it has counted.
fn close<F: FileExt + OpenFile + Drop>(disk: FileDisk<HostFile<F>>) -> u64
    ensures { result ≡ ⟦<FileDisk<HostFile<F>> as Faults>⟧.count disk }
{
    disk.faults()
}

impl<R: Files + Drop> Faults for FileStore<R> {
    ghost count = { λ s. s.faults };

    ghost steady = { λ _. false };

    fn faults(&self) -> u64 {
        self.faults.get()
    }
}

impl<R: Files + Drop> Store for FileStore<R>
where
    R::File: FileExt + Lockable + Send,
{
    type Disk = FileDisk<HostFile<R::File>>;

    type View = FileDisk<HostFile<R::File>>;

    ghost state = { λ s. untold_store s.faults s.disk_faults };

    fn disk_faults(&self) -> u64 {
        self.disk_faults.get()
    }

    fn read_all(&mut self, alloc: Global, name: &str, limit: u64) -> Result<Vec<u8>, ReadAllFault> {
        self.faults.noted(read_file(&self.rt, alloc, name, limit))
    }

    fn has(&mut self, name: &str) -> Result<bool, CallFault> {
        self.faults
            .noted(is_taken(&self.rt, name).map_err(call_fault))
    }

    /// Writes a file so that it appears under its name whole or not at all, even if the program is killed or the power
    /// fails: it is written as `name` with `.new` after it and made stable, gets its name by a hard link, which is
    /// refused if something stands there, loses the other name, and then its folder is made stable. It is made with the
    /// permissions that its readers are to have, within those that the umask leaves. After a refusal what it wrote is
    /// removed, if possible.
    ///
    /// If something stands under the name with `.new`, the call fails and leaves it alone: a program that was killed
    /// may have left it, and nobody can tell that no other is at work on it. The user who runs the program removes it.
    ///
    /// If the file system has no hard links, the file is written directly under its name, and a program that is killed
    /// meanwhile leaves a part of it there.
    fn write_new(
        &mut self,
        alloc: Global,
        name: &str,
        bytes: &[u8],
        readers: Readers,
    ) -> Result<(), NewFault> {
        let written = write_new(&self.rt, alloc, name, bytes, readers);
        self.faults.noted(written.map_err(new_fault))
    }

    /// Makes an empty file for these readers, locks it, and makes its name stable. A file grows as it is written, so no
    /// room is set aside.
    fn new_disk(
        &mut self,
        _alloc: Global,
        name: &str,
        _size: usize,
        readers: Readers,
    ) -> Result<Self::Disk, NewFault> {
        self.faults
            .noted(make_disk(&self.rt, name, readers).map_err(new_fault))
    }

    /// Opens a file for reading and writing, and locks it. It fails on anything that is not a regular file, and if
    /// another has the lock.
    fn take_disk(&mut self, name: &str) -> Result<Self::Disk, CallFault> {
        self.faults
            .noted(open_disk(&self.rt, name).map_err(call_fault))
    }

    /// Closes the file, which gives up its lock.
    fn return_disk(&mut self, _name: &str, disk: Self::Disk) {
        self.disk_faults.add(close(disk));
    }

    /// Opens a file for reading, and fails on anything that is not a regular file. It takes no lock: many view a file
    /// at once, and a file that is viewed was made by `write_new`, which no lock keeps out.
    fn view(&mut self, _alloc: Global, name: &str) -> Result<Self::View, CallFault> {
        self.faults
            .noted(open_view(&self.rt, name).map_err(call_fault))
    }

    /// Closes the file.
    fn end_view(&mut self, view: Self::View) {
        self.disk_faults.add(close(view));
    }

    ghost counts = { λ _. refl };

    ghost steadies = { λ _. refl };
}
