//! Ports that accept by one call of the system at a time, and how the next link is taken from one.

ghost use Rattle.std.specs.Prelude.{◌≡◌, Result, None, IfSome, true};
ghost use Rattle.stream_host.specs.RawPorts.{GivesLink, GivesUp, Tried, Waits};
ghost use Rattle.stream_host.specs.declared.raw_port.News.{News};
ghost use Rattle.stream_host.specs.declared.refused.Refused.{Refused};

use crate::refused::Refused;
use std::ops::ControlFlow;

/// What is told of a port.
#[derive(Clone, Copy, Debug, PartialEq, Eq)]
pub enum News {
    /// It waits until something is no longer short.
    Waits,
    /// It accepts no more.
    Ended,
}

impl News {
    /// What a worker of the port does.
    pub fn words(self) -> &'static str {
        match self {
            News::Waits => "waits to accept",
            News::Ended => "has ended",
        }
    }
}

/// A port as a system has it: each call that accepts is one call of the system, which may be refused for many reasons.
pub trait RawPort {
    /// What is accepted.
    type Link;

    /// What it may be after a call that accepts, by what that call answered.
    ghost accepts: { Self → Result Self.Link Refused → Self → Type 0 };

    /// What it may be after a pause.
    ghost pauses: { Self → Self → Type 0 };

    /// What it may be after news of it were told.
    ghost tells: { Self → News → Self → Type 0 };

    /// Makes one call that accepts.
    fn accept_once(&mut self) -> Result<Self::Link, Refused>
        ensures { accepts self.old result self.new };

    /// Waits a little.
    fn pause(&mut self)
        ensures { pauses self.old self.new };

    /// Tells the news.
    fn tell(&mut self, news: News)
        ensures { tells self.old news self.new };
}

/// How many calls in a row are made for one link: an error that lasts ends the port, and does not spin.
const MOST_CALLS: u32 = 65_536;

/// The next link of a raw port. A connection that is gone is passed over, and after a shortage the next call is made
/// after a pause.
pub fn next_link<P: RawPort>(port: &mut P) -> Option<P::Link>
    ensures link { IfSome result (λ link. GivesLink P.accepts P.pauses P.tells port.old port.new link) }
    ensures none { result ≡ None → GivesUp P.accepts P.pauses P.tells port.old port.new }
{
    let mut is_short = false;
    for _ in 0..MOST_CALLS {
        match try_once(port, &mut is_short) {
            ControlFlow::Break(done) => return done,
            ControlFlow::Continue(()) => {}
        }
    }
    port.tell(News::Ended);
    None
}

/// Makes one call that accepts, and what comes after it if the next one is to be made. Without that, there is a link or
/// the port has ended, which is told.
fn try_once<P: RawPort>(port: &mut P, is_short: &mut bool) -> ControlFlow<Option<P::Link>, ()>
    ensures { Tried P.accepts P.pauses P.tells port.old is_short.old result port.new is_short.new }
{
    match port.accept_once() {
        Ok(link) => ControlFlow::Break(Some(link)),
        Err(Refused::Once) => ControlFlow::Continue(()),
        Err(Refused::Short) => {
            wait(port, is_short);
            ControlFlow::Continue(())
        }
        Err(Refused::Broken) => {
            port.tell(News::Ended);
            ControlFlow::Break(None)
        }
    }
}

/// Waits a little. Before the first time in a row this is told.
fn wait<P: RawPort>(port: &mut P, is_told: &mut bool)
    ensures waits { Waits P.accepts P.pauses P.tells is_told.old port.old port.new }
    ensures told { is_told.new ≡ true }
{
    if !*is_told {
        port.tell(News::Waits);
        *is_told = true;
    }
    port.pause();
}
