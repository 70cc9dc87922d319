//! Files that are there, opened to be read whole or handed out as disks and views.

ghost use Rattle.std.specs.Prelude.{◌≡◌, IfOk};

use crate::file_disk::FileDisk;
use crate::host_file::HostFile;
use crate::lockable::Lockable;
use crate::new_file::{keep_name, make};
use disk_trait::Faults;
use std::fs::{Metadata, OpenFile, OpenOptions};
use std::io::ErrorKind;
use std::os::unix::fs::FileExt;
use std::rt::Files;
use std::{fs, io};
use stream_io::Readers;

/// Makes an empty file under a name at which nothing stands, for these readers, as a disk that holds its lock. If that
/// fails, the file is removed, if possible.
pub fn make_disk<R: Files>(
    rt: &R,
    name: &str,
    readers: Readers,
) -> io::Result<FileDisk<HostFile<R::File>>>
where
    R::File: FileExt + Lockable,
    ensures { IfOk result (λ disk. ⟦<FileDisk<HostFile<R::File>> as Faults>⟧.count disk ≡ 0) }
{
    let file = make(rt, name, readers)?;
    let locked = file.lock_alone();
    keep_name(rt, name, locked)?;
    Ok(FileDisk::unlocked(file))
}

/// Opens a regular file as a disk that holds its lock.
pub fn open_disk<R: Files>(rt: &R, name: &str) -> io::Result<FileDisk<HostFile<R::File>>>
where
    R::File: FileExt + Lockable,
    ensures { IfOk result (λ disk. ⟦<FileDisk<HostFile<R::File>> as Faults>⟧.count disk ≡ 0) }
{
    let mut how = OpenOptions::new();
    how.read(true).write(true);
    let file = open_regular(rt, &how, name)?;
    file.lock_alone()?;
    Ok(FileDisk::unlocked(file))
}

/// Opens a regular file as pages that are read.
pub fn open_view<R: Files>(rt: &R, name: &str) -> io::Result<FileDisk<HostFile<R::File>>>
where
    R::File: FileExt,
    ensures { IfOk result (λ disk. ⟦<FileDisk<HostFile<R::File>> as Faults>⟧.count disk ≡ 0) }
{
    let mut how = OpenOptions::new();
    how.read(true);
    Ok(FileDisk::unlocked(open_regular(rt, &how, name)?))
}

/// Opens a file that is there, and refuses anything that is not a regular file: by its name, since opening a pipe means
/// waiting for its other end, and once it is open, since the name may stand for something else by then.
fn open_regular<R: Files>(rt: &R, how: &OpenOptions, name: &str) -> io::Result<R::File> {
    refuse_irregular(fs::metadata(rt, name)?)?;
    let file = how.open(rt, name)?;
    refuse_irregular(file.metadata()?)?;
    Ok(file)
}

/// Refuses anything that is not a regular file.
fn refuse_irregular(found: Metadata) -> io::Result<()> {
    if found.is_file() {
        Ok(())
    } else {
        Err(io::Error::from(ErrorKind::InvalidInput))
    }
}
