//! The lock and its passes.
#![tactic(auto)]

ghost use Rattle.std.specs.Prelude.{◌≡◌, ◌^◌, ◌<◌, ◌≤◌, true, false, [], Some, IfOk, IfErr, All, vec_len, vec_capacity};
ghost use mathlib.Core.List.{IsPrefix};
ghost use Rattle.turn_lock.specs.Known.{opening_of, starting, one_of, lock_of};
ghost use Rattle.turn_lock.specs.Pass.{first_pass, Takes, IsWornOut, DrawsOne, SameDone, Gives, SameDrawn, Joins};
ghost use Rattle.turn_lock.specs.Pass.{IsWhole};

use crate::kept::Kept;
use crate::patience::Patience;
use crate::steps;
use crate::steps::{Home, Place, WORN_FROM, Words};
use crate::turns_only::TurnsOnly;
use crate::view::Start;
use memory::NoMemory;
use std::alloc::Global;
use std::marker::Model;
use std::snapshot::Snapshot;
use std::sync::Wait;
use thiserror::Error;

/// The pass has drawn a ticket of 2^62 or more, and has no more turns.
#[derive(Clone, Copy, Debug, PartialEq, Eq, Error)]
#[error("the pass has no more turns: it has drawn a ticket of 2^62 or more")]
pub struct Worn;

/// A lock round a value. Contracts see it as a `Lock` of `specs/Lock.antt`: which lock it is, the value that it was
/// made with, its first ticket and how many passes it has.
#[derive(Drop)]
pub struct TurnLock<T: Kept> {
    table: Home<T>,
}

impl<T: Kept> Model for TurnLock<T> {
    ghost use Rattle.std.specs.Prelude.{◌≡◌};
    ghost use Rattle.turn_lock.specs.Lock.{Lock};
    ghost use Rattle.turn_lock.specs.Known.{lock_of, opening_of};

    ghost Value = { Lock T.Entry T.Name };

    ghost view = { λ l.
        let key = l.table.shared.key in
        lock_of l.table.shared.table_id
        (opening_of T.entries T.number T.name key.value.value key.first key.passes) };

    ghost invariant = { λ l. (l.table.shared.table_id.words ≡ 66) × (l.table.shared.table_id.slots ≡ 1) };
}

/// What takes turns of a lock. Contracts see it as a `Seen` of `specs/Pass.antt`: its lock, what it has seen of the
/// value, how many passes are joined in it, and whether it holds the turn.
#[derive(Drop)]
pub struct Pass<T: Kept> {
    seat: Place<T>,
    joined: u32,
    greatest: u64,
    patience: Patience,
}

impl<T: Kept> Model for Pass<T> {
    ghost use Rattle.turn_lock.specs.Pass.{Seen};
    ghost use Rattle.turn_lock.specs.Known.{seen_of, IsSettled};

    ghost Value = { Seen T.Entry T.Name };

    ghost view = { λ p. seen_of p.seat.table_id p.seat.me.0 };

    ghost invariant = { λ p. IsSettled p.seat.me p.joined p.greatest };
}

impl<T: Kept> TurnLock<T> {
    /// A lock round this value, whose tickets begin with `first`, and its passes. No pass is made later. If memory runs
    /// out, the value comes back. No later call of the lock takes memory.
    pub fn new(
        alloc: Global,
        value: T,
        passes: u32,
        first: u64,
    ) -> Result<(TurnLock<T>, Vec<Pass<T>>), (T, NoMemory)>
        requires passes { (1 ≤ passes) × (passes ≤ 4096) }
        requires first { first ≤ 2 ^ 62 }
        ensures opening { IfOk result (λ r. (r.0.opening_log ≡ T.entries value) × (r.0.opening_number ≡ T.number value)
            × (r.0.name ≡ Some (T.name value))) }
        ensures numbers { IfOk result (λ r. (r.0.first_ticket ≡ first) × (r.0.passes ≡ passes)) }
        ensures count { IfOk result (λ r. vec_len r.1 ≡ passes) }
        ensures passes { IfOk result (λ r. All (λ p. p ≡ first_pass r.0) r.1.items) }
        ensures refused { IfErr result (λ r. r.0 ≡ value) }
    {
        let Ok(room) = Vec::with_capacity(alloc, passes as usize) else {
            return Err((value, NoMemory));
        };
        let start = Start {
            value: Snapshot::of(&value),
            first,
            passes,
        };
        match steps::open(alloc, value, &start) {
            Ok((table, seat)) => {
                let made = deal(&table.shared, seat, passes, room);
                Ok((TurnLock { table }, made))
            }
            Err(value) => Err((value, NoMemory)),
        }
    }

    /// Draws a ticket, waits until it is served, and takes the value out of the lock, so that the pass holds the turn.
    /// `Worn`: the pass drew a ticket of 2^62 or more, now or earlier. It holds no turn then, and draws no more.
    pub fn take(&self, rt: &impl Wait, pass: &mut Pass<T>) -> Result<T, Worn>
        requires lock { pass.old.lock ≡ self.now }
        requires idle { pass.old.in_turn ≡ false }
        ensures taken { IfOk result (λ v. Takes (T.entries v) (T.number v) (T.name v) pass.old pass.new) }
        ensures worn { IfErr result (λ _. IsWornOut pass.old pass.new) }
        ensures draws { DrawsOne self.now pass.old pass.new }
        ensures stays { SameDone pass.old pass.new }
    {
        self.take_turn(&TurnsOnly::of(rt), pass)
    }

    /// Takes a turn as `take` does, by what may wait for turns alone.
    pub fn take_turn(&self, turns: &TurnsOnly<impl Wait>, pass: &mut Pass<T>) -> Result<T, Worn>
        requires lock { pass.old.lock ≡ self.now }
        requires idle { pass.old.in_turn ≡ false }
        ensures taken { IfOk result (λ v. Takes (T.entries v) (T.number v) (T.name v) pass.old pass.new) }
        ensures worn { IfErr result (λ _. IsWornOut pass.old pass.new) }
        ensures draws { DrawsOne self.now pass.old pass.new }
        ensures stays { SameDone pass.old pass.new }
    {
        if pass.greatest >= WORN_FROM {
            return Err(Worn);
        }
        steps::enter(turns.rt, &self.table.shared, &mut pass.seat);
        let ticket = steps::draw(&self.table.shared, &mut pass.seat);
        pass.greatest = ticket;
        if ticket >= WORN_FROM {
            // No turn of this pass will end any more and let in a sleeper at the gate.
            steps::let_in(&self.table.shared, &mut pass.seat);
            return Err(Worn);
        }
        Ok(steps::wait(
            turns.rt,
            &self.table.shared,
            &mut pass.seat,
            &mut pass.patience,
            ticket,
        ))
    }

    /// Puts the value back, and passes the turn on. Its entries are then part of the lock's log.
    pub fn give(&self, pass: &mut Pass<T>, value: T)
        requires lock { pass.old.lock ≡ self.now }
        requires turn { pass.old.in_turn ≡ true }
        requires begins { IsPrefix pass.old.log (T.entries value) }
        requires reaches { pass.old.floor ≤ T.number value }
        requires named { Some (T.name value) ≡ pass.old.name }
        ensures gives { Gives (T.entries value) (T.number value) pass.old pass.new }
        ensures stays { SameDrawn pass.old pass.new }
    {
        steps::pass_on(&self.table.shared, &mut pass.seat, value);
    }

    /// Joins another pass in this one. Of their two logs one begins the other, and the longer is kept.
    pub fn meet(&self, pass: &mut Pass<T>, other: Pass<T>)
        requires lock { (pass.old.lock ≡ self.now) × (other.lock ≡ self.now) }
        requires idle { (pass.old.in_turn ≡ false) × (other.in_turn ≡ false) }
        ensures joins { Joins pass.old other pass.new }
        ensures turn { pass.new.in_turn ≡ false }

        // Once all passes are joined, the sums are the lock's.
        ensures whole { pass.new.joined ≡ self.now.passes → IsWhole self.now pass.new }
    {
        let Pass {
            seat,
            joined,
            greatest,
            patience: _,
        } = other;
        steps::join(&self.table.shared, &mut pass.seat, seat);
        pass.joined += joined;
        pass.greatest = pass.greatest.max(greatest);
    }

    /// How many of the lock's original passes are joined in this one.
    pub fn joined(pass: &Pass<T>) -> u32
        ensures { result ≡ pass.now.joined }
    {
        pass.joined
    }

    /// The value, once all passes are joined in this one.
    pub fn close(self, pass: Pass<T>) -> T
        requires lock { pass.lock ≡ self }
        requires all { pass.joined ≡ self.passes }
        requires idle { pass.in_turn ≡ false }
        ensures log { T.entries result ≡ pass.log }
        ensures number { T.number result ≡ pass.floor }
        ensures named { Some (T.name result) ≡ pass.name }
        ensures whole { IsWhole self pass }
    {
        let TurnLock { table } = self;
        let Pass {
            seat,
            joined: _,
            greatest: _,
            patience: _,
        } = pass;
        steps::close(table, seat)
    }
}

impl<T: Kept> Pass<T> {
    // A pass that has seen no turn yet.
    fn first(seat: Place<T>) -> Pass<T>
        requires { seat.me ≡ (one_of (starting seat.me.0.opening), []) }
        ensures { result ≡ first_pass (lock_of seat.table_id seat.me.0.opening) }
    {
        Pass {
            seat,
            joined: 1,
            greatest: 0,
            patience: Patience::new(),
        }
    }
}

// Splits the first seat into `count` passes, for which there is room.
fn deal<T: Kept>(
    words: &Words<T>,
    mut seat: Place<T>,
    count: u32,
    mut passes: Vec<Pass<T>>,
) -> Vec<Pass<T>>
    requires table { (seat.table_id ≡ words.now.table_id) × (words.now.table_id.words ≡ 66) }
    requires seat { seat.me ≡ (starting seat.me.0.opening, []) }
    requires count { (0 < count) × (count ≡ seat.me.0.opening.passes) }
    requires room { (vec_len passes ≡ 0) × (count ≤ vec_capacity passes) }
    ensures count { vec_len result ≡ count }
    ensures passes { All (λ p. p ≡ first_pass (lock_of seat.table_id seat.me.0.opening)) result.items }
{
    for _ in 1..count {
        let one = steps::split(words, &mut seat);
        passes.push_reserved(Pass::first(one));
    }
    passes.push_reserved(Pass::first(seat));
    passes
}
