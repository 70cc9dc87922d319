//! A file of the system as a disk.

ghost use Rattle.std.specs.Prelude.{◌≡◌, ◌↔◌, ◌+◌, ◌^◌, ◌<◌, ◌≤◌, ◌&&◌, ℕ, List, length, nat_lt, take, drop};
ghost use Rattle.std.specs.Prelude.{IsTrue, IsFalse, IsOk, IfOk, OnOk, OnErr};
ghost use Rattle.disk_trait.specs.Disks.{SameKind};
ghost use Rattle.disk_trait.specs.Images.{written, Torn, Follows, Only};
ghost use Rattle.stream_host.specs.FileLaws.{is_honest};
ghost use Rattle.stream_host.specs.declared.next_sync.NextSync.{NextSync};
ghost use Rattle.stream_io.specs.RawFiles.{Untouched};

use crate::counted::counted;
use crate::host_file::HostFile;
use crate::next_sync::{NextSync, sync_file};
use crate::pieces::{read_pieces, write_pieces};
use disk_trait::{Disk, DiskFault, Faults, Pages};
use std::fs::{File, OpenFile};
use std::io;
use std::marker::Model;
use std::os::unix::fs::FileExt;
use stream_io::RawFile;

/// A file of the system as a disk, or as pages that are read. It tells what the file tells, and it keeps the model of
/// crashes if it tells that and the file keeps its own. A call of the disk is one call of the file if the file does it
/// whole.
///
/// A failed sync is never forgotten: from then on each sync of this disk fails, and the file is not asked again.
/// Another disk over the same file knows nothing of it.
///
/// Its calls fail for their arguments alone if the file is steady, tells, and has room for fewer than 2^64 bytes. With
/// more room the end of a write may not fit in a `u64`.
///
/// A sync is `sync_all` if the file may have become longer since the last one that succeeded, or if none has. Otherwise
/// it is `sync_data`, which need not write the file's length and times.
///
/// An advisory lock keeps others out only if they ask for it.
#[derive(Drop)]
pub struct FileDisk<F: RawFile + Drop> {
    file: F,
    faults: u64,
    /// A length in bytes that the file is no shorter than.
    known_length: u64,
    next_sync: NextSync,
}

impl<F: RawFile + Drop> Model for FileDisk<F> {
    ghost use Rattle.stream_host.specs.Files.{KnowsFile, OnFile};

    ghost Value = { OnFile F };

    ghost view = { λ s. record {
      file = s.file;
      faults = s.faults;
      known_length = s.known_length;
      next_sync = s.next_sync;
    } };

    ghost invariant = { λ s. KnowsFile F.told F.Faults.steady F.reads F.grown F.sync_failed
        s.file s.known_length s.next_sync };
}

impl FileDisk<HostFile<File>> {
    /// A disk over an open file, for which it takes the file's advisory lock. It fails if another holds that lock, or
    /// if there can be none.
    pub fn locked(file: File) -> io::Result<FileDisk<HostFile<File>>>
        ensures { IfOk result (λ disk. ⟦<FileDisk<HostFile<File>> as Faults>⟧.count disk ≡ 0) }
    {
        file.try_lock()?;
        Ok(FileDisk::unlocked(file))
    }
}

impl<F: FileExt + OpenFile + Drop> FileDisk<HostFile<F>> {
    /// Pages over an open file, which take no lock. One file may have several.
    pub fn unlocked(file: F) -> FileDisk<HostFile<F>>
        ensures { ⟦<FileDisk<HostFile<F>> as Faults>⟧.count result ≡ 0 }
    {
        FileDisk::over(HostFile::new(file))
    }
}

impl<F: RawFile + Drop> FileDisk<F> {
    /// A disk over a file of which no sync has failed.
    pub fn over(file: F) -> FileDisk<F>
        requires unfailed { IsTrue (F.told file) → IsFalse (F.sync_failed file) }
        ensures count { ⟦<FileDisk<F> as Faults>⟧.count result ≡ 0 }
        ensures told { ⟦<FileDisk<F> as Pages>⟧.told result ≡ F.told file }
        ensures steady { ⟦<FileDisk<F> as Faults>⟧.steady result
            ≡ (F.Faults.steady file && F.told file && nat_lt (F.room file) (2 ^ 64)) }
        ensures honest { ⟦<FileDisk<F> as Pages>⟧.honest result ≡ (F.honest file && F.told file) }
        ensures reads { ⟦<FileDisk<F> as Pages>⟧.reads result ≡ F.reads file }
        ensures room { ⟦<FileDisk<F> as Pages>⟧.room result ≡ F.room file }
        ensures images { (image : List ℕ) → ⟦<FileDisk<F> as Pages>⟧.may_leave result image ↔ F.may_leave file image }
    {
        FileDisk {
            file,
            faults: 0,
            known_length: 0,
            next_sync: NextSync::All,
        }
    }

    /// The file.
    pub fn into_file(self) -> F
        ensures reads { F.reads result ≡ ⟦<FileDisk<F> as Pages>⟧.reads self }
        ensures images { (image : List ℕ) → F.may_leave result image ↔ ⟦<FileDisk<F> as Pages>⟧.may_leave self image }
    {
        self.file
    }

    /// The length of the file, which is known from then on.
    fn measure(&mut self) -> Result<u64, DiskFault>
        ensures length { IsTrue (F.told self.old.file) → IfOk result (λ n. n ≡ length (F.reads self.old.file)) }
        ensures known { IfOk result (λ n. n ≤ self.new.known_length) }
        ensures succeeds { IsTrue (F.Faults.steady self.old.file) → IsOk result }
        ensures faults { self.new.faults ≡ self.old.faults }
        ensures untouched { Untouched F.told F.honest F.reads F.may_leave F.grown F.sync_failed
            self.old.file self.new.file }
        ensures stays { SameKind F.told F.honest F.Faults.steady F.room self.old.file self.new.file }
    {
        let length = self.file.len()?;
        self.known_length = self.known_length.max(length);
        Ok(length)
    }

    /// Fails if a place lies past the end. The file is asked only if that is not known yet.
    fn reach(&mut self, place: u64) -> Result<(), DiskFault>
        ensures known { OnOk result (place ≤ self.new.known_length) }
        ensures within { IsTrue (F.told self.old.file) → OnOk result (place ≤ length (F.reads self.old.file)) }
        ensures succeeds { IsTrue (F.Faults.steady self.old.file) → IsTrue (F.told self.old.file)
            → place ≤ length (F.reads self.old.file) → IsOk result }
        ensures faults { self.new.faults ≡ self.old.faults }
        ensures untouched { Untouched F.told F.honest F.reads F.may_leave F.grown F.sync_failed
            self.old.file self.new.file }
        ensures stays { SameKind F.told F.honest F.Faults.steady F.room self.old.file self.new.file }
    {
        if place > self.known_length && place > self.measure()? {
            return Err(DiskFault);
        }
        Ok(())
    }

    /// Reads into the whole room. Nothing is read into an empty one, which fails only if the place lies past the end.
    fn read_within(&mut self, at: u64, out: &mut [u8]) -> Result<(), DiskFault>
        ensures bytes { IsTrue (F.told self.old.file)
            → OnOk result (out.new ≡ take (length out.old) (drop at (F.reads self.old.file))) }
        ensures within { IsTrue (F.told self.old.file)
            → OnOk result (at + length out.old ≤ length (F.reads self.old.file)) }
        ensures succeeds { IsTrue (F.Faults.steady self.old.file) → IsTrue (F.told self.old.file)
            → at + length out.old ≤ length (F.reads self.old.file) → at + length out.old < 2 ^ 64 → IsOk result }
        ensures faults { self.new.faults ≡ self.old.faults }
        ensures untouched { Untouched F.told F.honest F.reads F.may_leave F.grown F.sync_failed
            self.old.file self.new.file }
        ensures stays { SameKind F.told F.honest F.Faults.steady F.room self.old.file self.new.file }
    {
        if out.is_empty() {
            return self.reach(at);
        }
        read_pieces(&mut self.file, at, out)
    }

    /// Writes all bytes from a place on that lies within the file or at its end.
    fn write_within(&mut self, at: u64, bytes: &[u8]) -> Result<(), DiskFault>
        requires { at ≤ self.old.known_length }
        ensures bytes { IsTrue (F.told self.old.file)
            → OnOk result (F.reads self.new.file ≡ written (F.reads self.old.file) at bytes.now) }
        ensures torn { IsTrue (F.told self.old.file)
            → OnErr result (Torn at (length bytes.now) (F.reads self.old.file) (F.reads self.new.file)) }
        ensures images { IsTrue (F.honest self.old.file) → IsTrue (F.told self.old.file)
            → Follows (Torn at (length bytes.now)) (F.may_leave self.old.file) (F.may_leave self.new.file) }
        ensures within { IsTrue (F.told self.old.file) → at ≤ length (F.reads self.old.file) }
        ensures succeeds { IsTrue (F.Faults.steady self.old.file) → IsTrue (F.told self.old.file)
            → at + length bytes.now ≤ F.room self.old.file → at + length bytes.now < 2 ^ 64 → IsOk result }
        ensures faults { self.new.faults ≡ self.old.faults }
        ensures stays { SameKind F.told F.honest F.Faults.steady F.room self.old.file self.new.file }
    {
        let grows = bytes.len() as u64 > self.known_length - at;
        // before the write, since one that fails may have made the file longer too
        self.next_sync = self.next_sync.after_write(grows);
        write_pieces(&mut self.file, at, bytes)?;
        let end = at.saturating_add(bytes.len() as u64);
        self.known_length = self.known_length.max(end);
        Ok(())
    }

    /// Writes all bytes, unless they begin past the end.
    fn write_whole(&mut self, at: u64, bytes: &[u8]) -> Result<(), DiskFault>
        ensures bytes { IsTrue (F.told self.old.file)
            → OnOk result (F.reads self.new.file ≡ written (F.reads self.old.file) at bytes.now) }
        ensures torn { IsTrue (F.told self.old.file)
            → OnErr result (Torn at (length bytes.now) (F.reads self.old.file) (F.reads self.new.file)) }
        ensures images { IsTrue (F.honest self.old.file) → IsTrue (F.told self.old.file)
            → Follows (Torn at (length bytes.now)) (F.may_leave self.old.file) (F.may_leave self.new.file) }
        ensures within { IsTrue (F.told self.old.file) → OnOk result (at ≤ length (F.reads self.old.file)) }
        ensures succeeds { IsTrue (F.Faults.steady self.old.file) → IsTrue (F.told self.old.file)
            → at ≤ length (F.reads self.old.file) → at + length bytes.now ≤ F.room self.old.file
            → at + length bytes.now < 2 ^ 64 → IsOk result }
        ensures faults { self.new.faults ≡ self.old.faults }
        ensures stays { SameKind F.told F.honest F.Faults.steady F.room self.old.file self.new.file }
    {
        self.reach(at)?;
        self.write_within(at, bytes)
    }

    /// Makes the file stable, unless a sync has failed.
    fn sync_whole(&mut self) -> Result<(), DiskFault>
        ensures stable { IsTrue (F.honest self.old.file) → IsTrue (F.told self.old.file)
            → OnOk result (Only (F.reads self.old.file) (F.may_leave self.new.file)) }
        ensures images { IsTrue (F.honest self.old.file)
            → (image : List ℕ) → F.may_leave self.new.file image → F.may_leave self.old.file image }
        ensures same { IsTrue (F.told self.old.file) → F.reads self.new.file ≡ F.reads self.old.file }
        ensures succeeds { IsTrue (F.Faults.steady self.old.file) → IsOk result }
        ensures faults { self.new.faults ≡ self.old.faults }
        ensures stays { SameKind F.told F.honest F.Faults.steady F.room self.old.file self.new.file }
    {
        let done = sync_file(&mut self.file, self.next_sync);
        self.next_sync = NextSync::after_sync(done.is_ok());
        done
    }
}

impl<F: RawFile + Drop> Faults for FileDisk<F> {
    ghost count = { λ disk. disk.faults };

    ghost steady = { λ disk. F.Faults.steady disk.file && F.told disk.file && nat_lt (F.room disk.file) (2 ^ 64) };

    fn faults(&self) -> u64 {
        self.faults
    }
}

impl<F: RawFile + Drop> Pages for FileDisk<F> {
    ghost told = { λ disk. F.told disk.file };

    ghost reads = { λ disk. F.reads disk.file };

    ghost room = { λ disk. F.room disk.file };

    ghost honest = { λ disk. F.honest disk.file && F.told disk.file };

    ghost may_leave = { λ disk. F.may_leave disk.file };

    fn len(&mut self) -> Result<u64, DiskFault> {
        let found = self.measure();
        counted(&mut self.faults, found)
    }

    fn read_at(&mut self, at: u64, out: &mut [u8]) -> Result<(), DiskFault> {
        let read = self.read_within(at, out);
        counted(&mut self.faults, read)
    }
}

impl<F: RawFile + Drop> Disk for FileDisk<F> {
    fn write_at(&mut self, at: u64, bytes: &[u8]) -> Result<(), DiskFault> {
        let done = self.write_whole(at, bytes);
        counted(&mut self.faults, done)
    }

    fn sync(&mut self) -> Result<(), DiskFault> {
        let done = self.sync_whole();
        counted(&mut self.faults, done)
    }

    ghost leaves_reads = { λ disk honest told. F.leaves_reads disk.file (is_honest _ _ honest) told };

    ghost leaves_no_longer = { λ disk image honest told leaves.
        F.leaves_no_longer disk.file image (is_honest _ _ honest) told leaves };
}
