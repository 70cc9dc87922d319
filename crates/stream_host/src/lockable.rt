//! Files that can be locked.

use std::fs::File;
use std::io;

/// An open file with an advisory lock.
pub trait Lockable {
    /// Takes the lock for this open file alone, and does not wait. It fails if another holds it, or if there can be
    /// none. The lock is given up when the file is closed.
    fn lock_alone(&self) -> io::Result<()>;
}

impl Lockable for File {
    fn lock_alone(&self) -> io::Result<()> {
        self.try_lock()?;
        Ok(())
    }
}
