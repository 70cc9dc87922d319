//! What a lock was made with, and what a seat at its table knows, as plain data that only proofs read.
#![tactic(auto)]

use std::collections::LinkedList;
use std::snapshot::Snapshot;

/// What a lock is made with.
#[derive(Drop)]
pub struct Start<T> {
    pub value: Snapshot<T>,
    pub first: u64,
    pub passes: u32,
}

/// The same, in terms of what the value means. No value of this type is made.
pub struct Opening<E, N> {
    pub entries: LinkedList<E>,
    pub number: u64,
    /// It is there, except in a seat that was joined to another.
    pub name: Option<N>,
    pub first: u64,
    pub passes: u64,
}

/// Where a seat stands. No value of this type is made.
pub enum Stage {
    Idle,
    /// It drew this ticket.
    Waiting(u64),
    /// It has the turn of this ticket.
    Holding(u64),
}

/// What a seat knows. No value of this type is made.
pub struct Known<E, N> {
    /// The longest list of entries that it saw.
    pub log: LinkedList<E>,
    /// The other log at a meeting, until the two were compared.
    pub beside: LinkedList<E>,
    /// The greatest number that it saw.
    pub floor: u64,
    /// By how much the number rose in its turns.
    pub rises: u64,
    /// How many tickets it drew.
    pub draws: u64,
    /// What its turns added, in their order.
    pub own: LinkedList<E>,
    /// The greatest ticket that it drew, and 0 before the first.
    pub greatest: u64,
    /// How many passes are joined in it, and 0 once it was joined to another.
    pub parts: u64,
    pub stage: Stage,
    /// What the lock was made with.
    pub opening: Opening<E, N>,
}
