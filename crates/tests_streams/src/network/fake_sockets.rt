//! Sockets that are no sockets: their calls get the answers that are listed.

ghost use Rattle.std.specs.Prelude.{◌≤◌, IfOk};

use std::alloc::{AllocError, Global};
use std::fmt::Display;
use std::io;
use std::io::{Eprint, ErrorKind, Read, Write};
use std::net::{Net, OpenListener, OpenStream, SocketAddr};
use std::os::fd::{AsRawFd, RawFd};
use std::sync::Arc;
use std::sync::atomic::{AtomicUsize, Ordering};
use std::time::{Clock, Duration};

/// A call of the system, and its answer: how many bytes a read gives, out of at least that much room, how many a write
/// takes, out of at least that many given, or that an accept gives a connection; or the number of its error. A pause
/// has that many milliseconds.
pub(crate) type Step = (u8, Result<usize, i32>);

/// The calls.
pub(crate) const READ: u8 = b'r';

pub(crate) const WRITE: u8 = b'w';

pub(crate) const ACCEPT: u8 = b'a';

pub(crate) const PAUSE: u8 = b'p';

/// A line on standard error.
pub(crate) const SAY: u8 = b's';

/// How far the count of calls moves on if a call is made that is not listed. No list is as long.
const ASTRAY: usize = 1_000_000;

/// The calls that fake sockets are to make, in their order, and how many they have made. The bytes of each direction
/// count up, from 0 to 250 and from 0 again.
#[derive(Drop)]
pub(crate) struct Wire {
    steps: Vec<Step>,
    made: AtomicUsize,
}

impl Wire {
    /// A wire on which nothing has been done.
    pub(crate) fn new(alloc: Global, steps: &[Step]) -> Result<Arc<Wire>, AllocError> {
        let steps = Vec::from_slice(alloc, steps)?;
        let made = AtomicUsize::new(0);
        Ok(Arc::new(alloc, Wire { steps, made })?)
    }

    /// Answers the next call, which has room for `size` bytes or gives that many.
    fn answer(&self, call: u8, size: usize) -> io::Result<usize>
        ensures { IfOk result (λ n. n ≤ size) }
    {
        match self.steps.get(self.made.fetch_add(1, Ordering::SeqCst)) {
            Some((made, Ok(count))) if *made == call && *count <= size => Ok(*count),
            Some((made, Err(number))) if *made == call => Err(io::Error::from_raw_os_error(
                *number,
            )),
            _ => Err(self.stray()),
        }
    }

    /// Notes a call whose answer is not looked at, which is as long as it has to be.
    fn note(&self, call: u8, size: usize) {
        match self.answer(call, size) {
            Ok(count) if count == size => {}
            _ => {
                let _ = self.stray();
            }
        }
    }

    /// Notes a call that was not among those to be made, and answers it.
    fn stray(&self) -> io::Error {
        self.made.fetch_add(ASTRAY, Ordering::SeqCst);
        io::Error::from(ErrorKind::Other)
    }

    /// Whether just these calls were made.
    fn is_done(&self) -> bool {
        self.made.load(Ordering::SeqCst) == self.steps.len()
    }

    /// What went wrong, if something did or if not just these calls were made.
    pub(crate) fn wrong(&self, wrong: &'static str) -> &'static str {
        if wrong.is_empty() && !self.is_done() {
            "the calls of the system"
        } else {
            wrong
        }
    }
}

/// The byte at a place of the sequence that counts up.
fn byte_at(place: u64) -> u8 {
    (place % 251) as u8
}

/// Fills the room with the bytes from a place on.
pub(crate) fn count_up(room: &mut [u8], place: u64) {
    for i in 0..room.len() {
        room[i] = byte_at(place.saturating_add(i as u64));
    }
}

/// Whether the first `count` of these bytes are those that count up from a place on.
pub(crate) fn are_counted(bytes: &[u8], count: usize, place: u64) -> bool {
    for i in 0..bytes.len().min(count) {
        if bytes[i] != byte_at(place.saturating_add(i as u64)) {
            return false;
        }
    }
    count <= bytes.len()
}

/// A net of fake sockets.
#[derive(Clone, Copy)]
pub(crate) struct FakeNet<'a>(pub(crate) &'a Arc<Wire>);

/// A connection of it.
#[derive(Drop)]
pub(crate) struct FakeStream {
    wire: Arc<Wire>,
    given: u64,
    taken: u64,
}

impl FakeStream {
    /// A connection over which nothing has gone.
    fn new(wire: &Arc<Wire>) -> io::Result<FakeStream> {
        Ok(FakeStream {
            wire: Arc::try_clone(wire)?,
            given: 0,
            taken: 0,
        })
    }
}

/// A place at which connections are accepted.
#[derive(Drop)]
pub(crate) struct FakeListener(Arc<Wire>);

impl Net for FakeNet<'_> {
    type Stream = FakeStream;

    type Listener = FakeListener;

    /// Listens at any place.
    fn bind(&self, _place: SocketAddr) -> io::Result<FakeListener> {
        Ok(FakeListener(Arc::try_clone(self.0)?))
    }

    /// Connects to any place.
    fn connect(&self, _place: SocketAddr) -> io::Result<FakeStream> {
        FakeStream::new(self.0)
    }
}

impl Clock for FakeNet<'_> {
    /// No time passes.
    fn monotonic(&self) -> io::Result<Duration> {
        Ok(Duration::ZERO)
    }

    /// No time passes.
    fn since_1970(&self) -> io::Result<Duration> {
        Ok(Duration::ZERO)
    }

    /// Notes a pause, which has no other unit than milliseconds.
    fn sleep(&self, duration: Duration) {
        let milliseconds = usize::try_from(duration.as_millis()).unwrap_or(usize::MAX);
        self.0.note(PAUSE, milliseconds);
    }
}

impl Eprint for FakeNet<'_> {
    /// Notes a call that is never made.
    fn eprint<D: Display + Drop>(&self, _value: D) -> io::Result<()> {
        Err(self.0.stray())
    }

    /// Notes a line.
    fn eprintln<D: Display + Drop>(&self, _value: D) -> io::Result<()> {
        self.0.note(SAY, 0);
        Ok(())
    }
}

impl OpenListener for FakeListener {
    type Stream = FakeStream;

    /// Answers an accept.
    fn accept(&self) -> io::Result<(FakeStream, SocketAddr)> {
        self.0.answer(ACCEPT, 0)?;
        Ok((
            FakeStream::new(&self.0)?,
            SocketAddr::from(([127, 0, 0, 1], 1)),
        ))
    }
}

impl Read for FakeStream {
    /// Answers a read.
    fn read(&mut self, room: &mut [u8]) -> io::Result<usize> {
        let count = self.wire.answer(READ, room.len())?;
        count_up(&mut room[..count], self.given);
        self.given = self.given.saturating_add(count as u64);
        Ok(count)
    }
}

impl Write for FakeStream {
    /// Answers a write, unless other bytes than the next ones are given.
    fn write(&mut self, bytes: &[u8]) -> io::Result<usize> {
        let count = self.wire.answer(WRITE, bytes.len())?;
        if !are_counted(bytes, bytes.len(), self.taken) {
            return Err(self.wire.stray());
        }
        self.taken = self.taken.saturating_add(count as u64);
        Ok(count)
    }

    /// Does nothing.
    fn flush(&mut self) -> io::Result<()> {
        Ok(())
    }
}

impl OpenStream for FakeStream {}

impl AsRawFd for FakeStream {
    /// No descriptor.
    fn as_raw_fd(&self) -> RawFd {
        -1
    }
}

impl AsRawFd for FakeListener {
    /// No descriptor.
    fn as_raw_fd(&self) -> RawFd {
        -1
    }
}
