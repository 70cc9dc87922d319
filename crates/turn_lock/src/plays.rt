//! The rule of a lock's table, and what each step tells its seat.
#![tactic(auto)]

use crate::kept::Kept;
use crate::view::{Known, Start};
use atomic_table::{Join, Play, Split, TableRule};
use std::marker::PhantomData;

/// The rule of the table.
pub struct Turns<T> {
    of: PhantomData<T>,
}

impl<T: Kept> TableRule<Option<T>, Known<T::Entry, T::Name>, Start<T>> for Turns<T> {
    ghost use Rattle.turn_lock.specs.Known.{opening_of, starting};
    ghost use Rattle.turn_lock.specs.Turned.{Turned};

    ghost holds = { λ k. Turned T.entries T.number T.name
        (opening_of T.entries T.number T.name k.value.value k.first k.passes) };

    ghost first = { λ k. starting (opening_of T.entries T.number T.name k.value.value k.first k.passes) };
}

/// Drawing a ticket.
pub struct Draw;

impl<T: Kept> Play<Option<T>, Known<T::Entry, T::Name>> for Draw {
    ghost use Rattle.turn_lock.specs.Plays.{Drew};

    ghost then = { Drew };
}

/// Looking up which ticket is served, with a ticket in hand.
pub struct Look<T> {
    of: PhantomData<T>,
}

impl<T: Kept> Play<Option<T>, Known<T::Entry, T::Name>> for Look<T> {
    ghost use Rattle.turn_lock.specs.Plays.{Looked};

    ghost then = { Looked T.entries T.number T.name };
}

/// Passing the turn on.
pub struct PassOn<T> {
    of: PhantomData<T>,
}

impl<T: Kept> Play<Option<T>, Known<T::Entry, T::Name>> for PassOn<T> {
    ghost use Rattle.turn_lock.specs.Plays.{PassedOn};

    ghost then = { PassedOn T.entries T.number };
}

/// Calling those who wait for a turn.
pub struct Call;

impl<T: Kept> Play<Option<T>, Known<T::Entry, T::Name>> for Call {
    ghost use Rattle.turn_lock.specs.Plays.{Called};

    ghost then = { Called };
}

/// Comparing two logs after a meeting.
pub struct Compare;

impl<T: Kept> Play<Option<T>, Known<T::Entry, T::Name>> for Compare {
    ghost use Rattle.turn_lock.specs.Plays.{Compared};

    ghost then = { Compared };
}

/// One pass is split off.
pub struct SplitOff;

impl<E, N> Split<Known<E, N>> for SplitOff {
    ghost use Rattle.turn_lock.specs.Known.{rest_of, one_of};

    ghost left = { rest_of };

    ghost right = { one_of };
}

/// One pass takes in another.
pub struct TakeIn;

impl<E, N> Join<Known<E, N>> for TakeIn {
    ghost use Rattle.turn_lock.specs.Known.{both_of, spent};

    ghost both = { both_of };

    ghost spent = { spent };
}
