//! Files that are no files: their calls get the answers that are listed.

ghost use Rattle.std.specs.Prelude.{◌≤◌, IfOk};

use crate::scripts::is_text;
use std::alloc::{AllocError, Allocator, Global};
use std::fs::{Metadata, OpenFile, OpenOptions};
use std::io;
use std::io::{Empty, ErrorKind, Read, Seek, SeekFrom, Write};
use std::os::unix::fs::FileExt;
use std::rt::Files;
use std::sync::Arc;
use std::sync::atomic::{AtomicUsize, Ordering};
use stream_host::Lockable;

/// Names of a file, of that file while it is not whole, and of its folder: what stands before the last part.
const NAMES: [[&'static str; 3]; 5] = [
    ["in/a", "in/a.new", "in"],
    ["b", "b.new", "."],
    ["a/b", "a/b.new", "a"],
    ["a/b/c", "a/b/c.new", "a/b"],
    ["/b", "/b.new", "/"],
];

/// How far the count of calls moves on if a call is made that is not listed. No list is as long.
const ASTRAY: usize = 10_000;

/// What a fake file system is to be asked, and how many bytes of that it was asked. Each call is a word of four bytes:
/// what is done (`m` to look, `c` to make, `o` to open for reading, `u` for writing too, `k` to lock, `r` to remove,
/// `l` to link to, `s` to sync, `d` to sync data, `g` to read, `w` to write, a digit to write at that place), to what
/// (`a` the file, `n` the file under the name that it has until it is whole, `i` the folder), the place that is read or
/// the byte that is written, and a blank if that succeeds, `0` if no byte is moved, `d` if a folder stands there, or a
/// letter that says how it fails.
#[derive(Drop)]
pub(crate) struct Record {
    words: Vec<u8>,
    asked: AtomicUsize,
    // which of `NAMES` the names are
    names: usize,
    // how many bytes lie before the first of a file that somebody reads or writes
    before: u64,
}

impl Record {
    /// A record of nothing so far.
    pub(crate) fn new(
        alloc: Global,
        names: usize,
        before: u64,
        words: &str,
    ) -> Result<Arc<Record>, AllocError> {
        let words = Vec::from_slice(alloc, words.as_bytes())?;
        let asked = AtomicUsize::new(0);
        let record = Record {
            words,
            asked,
            names,
            before,
        };
        Ok(Arc::new(alloc, record)?)
    }

    /// What went wrong: this, or else what was to be asked, if something else was.
    pub(crate) fn wrong(&self, wrong: &'static str, words: &'static str) -> &'static str {
        if wrong.is_empty() && !self.is_done() {
            words
        } else {
            wrong
        }
    }

    /// Whether just this was asked.
    fn is_done(&self) -> bool {
        self.asked.load(Ordering::SeqCst) == self.words.len()
    }

    /// The byte at a place of the list, or 0 past its end.
    fn byte(&self, at: usize) -> u8 {
        match self.words.get(at) {
            Some(byte) => *byte,
            None => 0,
        }
    }

    /// The answer to a call: the letter that the list has for it, or one for a call that is not listed.
    fn letter(&self, verb: u8, what: u8, byte: u8) -> u8 {
        let at = self.asked.fetch_add(4, Ordering::SeqCst).min(ASTRAY);
        if self.byte(at) == verb && self.byte(at + 1) == what && self.byte(at + 2) == byte {
            return self.byte(at + 3);
        }
        self.asked.fetch_add(ASTRAY, Ordering::SeqCst);
        b'?'
    }

    /// Makes a call.
    fn call(&self, verb: u8, what: u8) -> io::Result<()> {
        match self.letter(verb, what, b' ') {
            b' ' => Ok(()),
            letter => Err(io::Error::from(kind_of(letter))),
        }
    }

    /// Makes a call that moves a byte, or none.
    fn moves(&self, verb: u8, what: u8, byte: u8) -> io::Result<usize>
        ensures { IfOk result (λ n. n ≤ 1) }
    {
        match self.letter(verb, what, byte) {
            b' ' => Ok(1),
            b'0' => Ok(0),
            letter => Err(io::Error::from(kind_of(letter))),
        }
    }

    /// What is told about a file.
    fn look(&self, what: u8) -> io::Result<Metadata> {
        match self.letter(b'm', what, b' ') {
            b' ' => Ok(Metadata::of_file(self.before.saturating_add(3))),
            b'd' => Ok(Metadata::of_dir()),
            letter => Err(io::Error::from(kind_of(letter))),
        }
    }

    /// The letter of a name.
    fn what(&self, path: &str) -> u8 {
        let names = &NAMES[self.names.min(4)];
        let bytes = path.as_bytes();
        match (is_text(bytes, names[0]), is_text(bytes, names[1])) {
            (true, _) => b'a',
            (_, true) => b'n',
            _ if is_text(bytes, names[2]) => b'i',
            _ => b'?',
        }
    }

    /// The digit of a place in a file.
    fn digit(&self, offset: u64) -> u8 {
        match offset.checked_sub(self.before) {
            Some(place) => b'0'.saturating_add(place.min(9) as u8),
            None => b'?',
        }
    }
}

/// How a call fails if this letter answers it.
fn kind_of(letter: u8) -> ErrorKind {
    match letter {
        b'e' => ErrorKind::AlreadyExists,
        b'f' => ErrorKind::StorageFull,
        b'i' => ErrorKind::Interrupted,
        b'l' => ErrorKind::Unsupported,
        b'm' => ErrorKind::OutOfMemory,
        b'n' => ErrorKind::NotFound,
        b'p' => ErrorKind::PermissionDenied,
        b'w' => ErrorKind::WouldBlock,
        _ => ErrorKind::Other,
    }
}

/// A fake file system.
#[derive(Clone, Copy)]
pub(crate) struct FakeFiles<'a>(pub(crate) &'a Arc<Record>);

/// A fake file of the bytes `xyz`, which reads and writes one byte at a time. What is written is kept nowhere.
#[derive(Drop)]
pub(crate) struct FakeFile {
    record: Arc<Record>,
    what: u8,
    place: u64,
}

impl FakeFile {
    /// A file that has not been read.
    pub(crate) fn new(record: &Arc<Record>, what: u8) -> io::Result<FakeFile> {
        Ok(FakeFile {
            record: Arc::try_clone(record)?,
            what,
            place: 0,
        })
    }
}

impl Files for FakeFiles<'_> {
    type File = FakeFile;

    type Dir = Empty;

    /// Makes a file or opens one.
    fn open_file(&self, how: &OpenOptions, path: &str) -> io::Result<FakeFile> {
        let verb = match (how.asks_create_new(), how.asks_write()) {
            (true, _) => b'c',
            (_, true) => b'u',
            _ => b'o',
        };
        let what = self.0.what(path);
        self.0.call(verb, what)?;
        FakeFile::new(self.0, what)
    }

    /// Looks at a name.
    fn metadata(&self, path: &str) -> io::Result<Metadata> {
        self.0.look(self.0.what(path))
    }

    /// Looks at a name.
    fn symlink_metadata(&self, path: &str) -> io::Result<Metadata> {
        self.0.look(self.0.what(path))
    }

    /// Removes a file.
    fn remove_file(&self, path: &str) -> io::Result<()> {
        self.0.call(b'r', self.0.what(path))
    }

    /// Links to a file.
    fn hard_link(&self, _original: &str, link: &str) -> io::Result<()> {
        self.0.call(b'l', self.0.what(link))
    }

    /// Fails.
    fn open_dir(&self, _path: &str) -> io::Result<Empty> {
        Err(io::Error::from(ErrorKind::Unsupported))
    }

    /// Fails.
    fn copy(&self, _from: &str, _to: &str) -> io::Result<u64> {
        Err(io::Error::from(ErrorKind::Unsupported))
    }

    /// Fails.
    fn rename(&self, _from: &str, _to: &str) -> io::Result<()> {
        Err(io::Error::from(ErrorKind::Unsupported))
    }

    /// Fails.
    fn create_dir(&self, _path: &str) -> io::Result<()> {
        Err(io::Error::from(ErrorKind::Unsupported))
    }

    /// Fails.
    fn remove_dir(&self, _path: &str) -> io::Result<()> {
        Err(io::Error::from(ErrorKind::Unsupported))
    }

    /// Fails.
    fn remove_dir_all<B: Allocator>(&self, _alloc: B, _path: &str) -> io::Result<()> {
        Err(io::Error::from(ErrorKind::Unsupported))
    }
}

impl OpenFile for FakeFile {
    /// Looks at the file.
    fn metadata(&self) -> io::Result<Metadata> {
        self.record.look(self.what)
    }

    /// Fails.
    fn set_len(&self, _size: u64) -> io::Result<()> {
        Err(io::Error::from(ErrorKind::Unsupported))
    }

    /// Syncs all.
    fn sync_all(&self) -> io::Result<()> {
        self.record.call(b's', self.what)
    }

    /// Syncs data.
    fn sync_data(&self) -> io::Result<()> {
        self.record.call(b'd', self.what)
    }
}

impl Lockable for FakeFile {
    /// Locks the file.
    fn lock_alone(&self) -> io::Result<()> {
        self.record.call(b'k', self.what)
    }
}

impl Read for FakeFile {
    /// Reads on after what was read.
    fn read(&mut self, buf: &mut [u8]) -> io::Result<usize> {
        let got = self.read_at(buf, self.place)?;
        self.place = self.place.saturating_add(got as u64);
        Ok(got)
    }
}

impl Write for FakeFile {
    /// Writes a byte.
    fn write(&mut self, buf: &[u8]) -> io::Result<usize> {
        match buf.first() {
            Some(byte) => self.record.moves(b'w', self.what, *byte),
            None => Ok(0),
        }
    }

    /// Does nothing.
    fn flush(&mut self) -> io::Result<()> {
        Ok(())
    }
}

impl Seek for FakeFile {
    /// Fails.
    fn seek(&mut self, _to: SeekFrom) -> io::Result<u64> {
        Err(io::Error::from(ErrorKind::NotSeekable))
    }
}

impl FileExt for FakeFile {
    /// Reads a byte of `xyz`.
    fn read_at(&self, buf: &mut [u8], offset: u64) -> io::Result<usize> {
        let digit = self.record.digit(offset);
        match buf.first_mut() {
            Some(byte) => {
                *byte = b'x'.wrapping_add(digit.wrapping_sub(b'0'));
                self.record.moves(b'g', self.what, digit)
            }
            None => Ok(0),
        }
    }

    /// Writes a byte at a place, whose digit is the word's first byte.
    fn write_at(&self, buf: &[u8], offset: u64) -> io::Result<usize> {
        match buf.first() {
            Some(byte) => self
                .record
                .moves(self.record.digit(offset), self.what, *byte),
            None => Ok(0),
        }
    }
}
