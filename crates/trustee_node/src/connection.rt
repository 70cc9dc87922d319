//! Connections.

ghost use Rattle.std.specs.Prelude.{◌≡◌, ◌≢◌, IsTrue, IfOk, Err};
ghost use Rattle.std.specs.Option.{option_map};
ghost use Rattle.round_frames.specs.Asks.{HasSizes, asks};
ghost use Rattle.round_frames.specs.Frames.{frame_of};
ghost use Rattle.round_frames.specs.Reads.{Reads};
ghost use Rattle.stream_io.specs.Store.{RisesWhere};
ghost use Rattle.stream_io.specs.Talk.{OnlyRead};
ghost use Rattle.trustee_core.specs.Approved.{ids_of};
ghost use Rattle.trustee_node.specs.Connections.{Conversation, clock_state};
ghost use Rattle.trustee_node.specs.Turns.{IsIdle};

use crate::reply::write_reply;
use crate::turn::decide_in_turn;
use disk_trait::{Disk, Faults};
use lms_bytes::Ask;
use node_workers::{MOST_FRAMES, Served, ServedEnd, end_by};
use round_frames::{FrameFault, next_ask};
use share_files::Share;
use std::sync::Wait;
use stream_io::{Failed, Sink, Source, Stream};
use trustee_core::{Approved, Clock, KeyKeeper, Trustee};
use turn_lock::{Pass, TurnLock, TurnsOnly};

/// Serves a connection: reads asks one after another, reads the clock once for each, decides on it in a turn of its
/// own, and writes a reply. The share is that of the lock's trustee. A trustee with a book grants round one only for
/// the messages that the book lists. The lock is held for the decision alone. It holds neither a message nor a list of
/// masks, and takes no memory.
pub fn serve_connection<D: Disk, C: Clock, L: Source + Sink>(
    rt: &impl Wait,
    lock: &TurnLock<Trustee<D>>,
    pass: &mut Pass<Trustee<D>>,
    share: &Share,
    book: Option<&Approved>,
    clock: &mut C,
    link: &mut L,
) -> Served
    requires { IsIdle lock.now share.now pass.old }
    ensures conversation { Conversation share.now (option_map (λ b. ids_of b.now) book.entry)
        (record { pass = pass.old; clock = clock_state C.told C.answers clock.old })
        (record { pass = pass.new; clock = clock_state C.told C.answers clock.new })
        (record { steady = L.steady link.old; talk = L.talk link.old }) (L.talk link.new) result }
    ensures pass { IsIdle lock.now share.now pass.new }
    ensures clock { C.told clock.new ≡ C.told clock.old }
    ensures answers { IsTrue (L.steady link.old) → result.ended ≢ ServedEnd.Frame FrameFault.ReadFault }
    ensures steady { L.steady link.new ≡ L.steady link.old }
{
    answer_asks(
        &TurnsOnly::of(rt),
        lock,
        pass,
        &KeyKeeper::of(share),
        book,
        clock,
        link,
    )
}

/// Serves a connection as `serve_connection` does. It may wait for turns of a lock, and for nothing else, and it does
/// not have the key.
pub(crate) fn answer_asks<D: Disk, C: Clock, L: Source + Sink>(
    turns: &TurnsOnly<impl Wait>,
    lock: &TurnLock<Trustee<D>>,
    pass: &mut Pass<Trustee<D>>,
    share: &KeyKeeper,
    book: Option<&Approved>,
    clock: &mut C,
    link: &mut L,
) -> Served
    requires { IsIdle lock.now share.now pass.old }
    ensures conversation { Conversation share.now (option_map (λ b. ids_of b.now) book.entry)
        (record { pass = pass.old; clock = clock_state C.told C.answers clock.old })
        (record { pass = pass.new; clock = clock_state C.told C.answers clock.new })
        (record { steady = L.steady link.old; talk = L.talk link.old }) (L.talk link.new) result }
    ensures pass { IsIdle lock.now share.now pass.new }
    ensures clock { C.told clock.new ≡ C.told clock.old }
    ensures answers { IsTrue (L.steady link.old) → result.ended ≢ ServedEnd.Frame FrameFault.ReadFault }
    ensures steady { L.steady link.new ≡ L.steady link.old }
{
    let mut frames = 0;
    for _ in 0..MOST_FRAMES {
        let ask = match next_own_ask(share, link) {
            Ok(ask) => ask,
            Err(fault) => {
                let ended = end_by(fault);
                return Served { frames, ended };
            }
        };
        let moment = clock.now();
        let answer = decide_in_turn(turns, lock, pass, share, book, &ask, moment);
        if let Err(Failed) = write_reply(share, &ask, &answer, link) {
            let ended = ServedEnd::WriteFailed;
            return Served { frames, ended };
        }
        frames += 1;
        if answer.is_worn() {
            let ended = ServedEnd::Worn;
            return Served { frames, ended };
        }
    }
    Served {
        frames,
        ended: ServedEnd::Full,
    }
}

/// Reads the next ask, of the share's parameter set.
fn next_own_ask<S: Source>(share: &KeyKeeper, source: &mut S) -> Result<Ask, FrameFault>
    ensures told { IsTrue (S.talk source.old).told → Reads (S.talk source.old) (S.talk source.new) result
        (frame_of (asks share.now.params) (S.talk source.old).left) }
    ensures only { OnlyRead (S.talk source.old) (S.talk source.new) }
    ensures cause { RisesWhere (result ≡ Err FrameFault.ReadFault) (S.talk source.old).count (S.talk source.new).count }
    ensures answers { IsTrue (S.steady source.old) → result ≢ Err FrameFault.ReadFault }
    ensures steady { S.steady source.new ≡ S.steady source.old }
    ensures no_memory { result ≢ Err FrameFault.NoMemory }
    ensures sizes { IfOk result (HasSizes share.now.params) }
{
    next_ask(share.params(), source)
}
