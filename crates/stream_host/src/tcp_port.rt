//! Ports over sockets.

ghost use Rattle.std.specs.Prelude.{◌≡◌, ◌≢◌, ◌↔◌, IsTrue, false, option_map, refl, string_bytes, ⊤};
ghost use Rattle.std.specs.Arc.{arc_value};
ghost use Rattle.stream_host.specs.TcpPort.{port_state};
ghost use Rattle.stream_host.specs.Untold.{untold_port, untold_talk};
ghost use Rattle.stream_io.specs.Net.{KeepsTalk, PortOnward};

use crate::fault_count::FaultCount;
use crate::raw_port::{News, RawPort, next_link};
use crate::refused::{Refused, refusal_of};
use crate::tcp_link::TcpLink;
use disk_trait::Faults;
use std::io::{Eprint, ErrorKind};
use std::marker::Model;
use std::net::{Net as Sockets, OpenListener, TcpStream};
use std::sync::Arc;
use std::time::{Clock, Duration};
use std::{io, thread};
use stream_io::{Accepted, Failed, Port};

/// A place at which all its ports listen by one socket. Contracts see its name, which is `host:port`.
#[derive(Drop)]
pub struct Place<L: Drop> {
    name: String,
    socket: L,
}

impl<L: Drop> Model for Place<L> {
    ghost use Rattle.std.specs.Prelude.{ℕ, List, string_bytes};

    ghost Value = { List ℕ };

    ghost view = { λ s. string_bytes s.name };
}

impl<L: Drop> Place<L> {
    /// The place of this name, at which this socket listens.
    pub fn new(name: String, socket: L) -> Place<L>
        ensures { result ≡ string_bytes name }
    {
        Place { name, socket }
    }
}

/// What links over sockets are accepted at, and dialled from. It tells nothing but its place and its counts of faults.
/// If it listens it never comes to an end: it waits if no link is there yet.
#[derive(Drop)]
pub struct TcpPort<R: Sockets + Clock + Eprint + Copy> {
    rt: R,
    place: Option<Arc<Place<R::Listener>>>,
    faults: FaultCount,
    accept_faults: FaultCount,
}

impl<R: Sockets + Clock + Eprint + Copy> TcpPort<R> {
    /// A port that listens at this place, or only dials.
    pub(crate) fn new(rt: R, place: Option<Arc<Place<R::Listener>>>) -> TcpPort<R>
        ensures { port_state result ≡ untold_port (option_map arc_value place) 0 0 }
    {
        TcpPort {
            rt,
            place,
            faults: FaultCount::new(),
            accept_faults: FaultCount::new(),
        }
    }

    /// Whether it failed to accept.
    pub(crate) fn has_not_accepted(&self) -> bool
        ensures { IsTrue result ↔ (port_state self.now).accept_count ≢ 0 }
    {
        self.accept_faults.get() != 0
    }

    /// Counts a fault if a link that is hung up has counted some.
    fn count_link(&mut self, faults: u64)
        ensures kept { KeepsTalk (port_state self.old) (untold_talk faults) (port_state self.new) }
        ensures onward { PortOnward (port_state self.old) (port_state self.new) }
    {
        self.faults.add_where(faults != 0);
    }
}

/// How long a pause is: nobody who connects notices a tenth of a second, and ten calls in each cost nothing. What was
/// short is there again once another connection has ended.
const PAUSE_MILLISECONDS: u64 = 100;

/// A socket that listens, and the last error that it met.
#[derive(Drop)]
struct Listening<'a, R: Sockets + Copy> {
    rt: R,
    place: &'a Place<R::Listener>,
    error: io::Error,
}

impl<'a, R: Sockets + Copy> Listening<'a, R> {
    /// The socket of a place, which has met no error yet.
    fn new(rt: R, place: &'a Place<R::Listener>) -> Listening<'a, R> {
        let error = io::Error::from(ErrorKind::Other);
        Listening { rt, place, error }
    }
}

/// It tells nothing of what its calls make of it.
impl<R: Sockets + Clock + Eprint + Copy> RawPort for Listening<'_, R> {
    type Link = R::Stream;

    ghost accepts = { λ _ _ _. ⊤ };

    ghost pauses = { λ _ _. ⊤ };

    ghost tells = { λ _ _ _. ⊤ };

    fn accept_once(&mut self) -> Result<R::Stream, Refused> {
        let place = self.place;
        match place.socket.accept() {
            Ok((stream, _)) => Ok(stream),
            Err(error) => {
                self.error = error;
                Err(refusal_of(error.raw_os_error().unwrap_or(0).unsigned_abs()))
            }
        }
    }

    fn pause(&mut self) {
        thread::sleep(&self.rt, Duration::from_millis(PAUSE_MILLISECONDS));
    }

    /// Says so on standard error. If it cannot be said, that is ignored.
    fn tell(&mut self, news: News) {
        let place = self.place;
        let _ = eprintln!(self.rt;
            "rikselbe: a worker at {} {}: {}",
            place.name,
            news.words(),
            self.error
        );
    }
}

impl<R: Sockets + Clock + Eprint + Copy> Faults for TcpPort<R> {
    ghost count = { λ s. s.faults };

    ghost steady = { λ _. false };

    fn faults(&self) -> u64 {
        self.faults.get()
    }
}

impl<R: Sockets + Clock + Eprint + Copy> Port for TcpPort<R>
where
    R::Stream: Send,
{
    type Link = TcpLink<R::Stream>;

    ghost state = { port_state };

    fn accept_faults(&self) -> u64 {
        self.accept_faults.get()
    }

    fn accept(&mut self) -> Accepted<Self::Link> {
        let Some(place) = &self.place else {
            return Accepted::End;
        };
        match next_link(&mut Listening::new(self.rt, place)) {
            Some(stream) => Accepted::Link(TcpLink::new(stream)),
            None => {
                self.faults.add(1);
                self.accept_faults.add(1);
                Accepted::Failed
            }
        }
    }

    /// Dials a place, given as `host:port`. All addresses of the host are tried in turn.
    fn dial(&mut self, place: &str) -> Result<Self::Link, Failed> {
        match TcpStream::connect(&self.rt, place) {
            Ok(stream) => Ok(TcpLink::new(stream)),
            Err(_) => Err(self.faults.fail()),
        }
    }

    /// Closes a link.
    fn hang_up(&mut self, link: Self::Link) {
        self.count_link(link.faults());
    }

    ghost counts = { λ _. refl };

    ghost steadies = { λ _. refl };
}
