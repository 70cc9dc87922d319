//! Runs of leaves, each of which one thread builds.

ghost use Rattle.std.specs.Prelude.{◌≡◌, ◌+◌, ◌^◌, ◌<◌};

use lms_bytes::Params;
use std::thread;
use std::thread::Threads;

/// A number of leaves, from the first one on.
#[derive(Clone, Copy)]
pub(crate) struct Run {
    /// The number q of the first leaf.
    pub(crate) first: u32,
    /// How many leaves there are.
    pub(crate) count: u32,
}

impl Run {
    /// All leaves of a key.
    pub(crate) fn whole(params: &Params) -> Run
        ensures first { result.first ≡ 0 }
        ensures count { result.count ≡ 2 ^ params.now.h }
    {
        Run {
            first: 0,
            count: params.leaves(),
        }
    }

    /// Cuts a run in two: the leaves that `some` of `threads` threads build, and those of the other threads.
    pub(crate) fn cut(self, some: usize, threads: usize) -> (Run, Run)
        requires leaves { 1 < self.count }
        requires small { self.first + self.count < 2 ^ 32 }
        requires threads { 0 < threads }
        ensures first { result.0.first ≡ self.first }
        ensures next { result.1.first ≡ self.first + result.0.count }
        ensures all { result.0.count + result.1.count ≡ self.count }
        ensures fewer { (result.0.count < self.count) × (result.1.count < self.count) }
    {
        let even = (self.count as usize).saturating_mul(some) / threads;
        let count = even.clamp(1, self.count as usize - 1) as u32;
        let front = Run {
            first: self.first,
            count,
        };
        let back = Run {
            first: self.first + count,
            count: self.count - count,
        };
        (front, back)
    }
}

/// How many threads build leaves: four for each processor, since no two processors are equally fast and one that is
/// done takes over a thread of another; or one if there is one.
pub(crate) fn thread_count<R: Threads>(rt: &R) -> usize
    ensures { 0 < result }
{
    match thread::available_parallelism(rt) {
        Ok(count) if count.get() > 1 => count.get().saturating_mul(4),
        _ => 1,
    }
}
