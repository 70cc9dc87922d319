//! A dealing whose masks are committed to as they are made.

ghost use Rattle.std.specs.Prelude.{◌≡◌, ◌<◌, ◌≤◌, Err, IfErr, OnOk, false};
ghost use Rattle.share_files.specs.Commits.{commits_length};
ghost use Rattle.dealer.specs.Committed.{DealsCommitted, FailsCommitted};
ghost use Rattle.dealer.specs.Faults.{HasFault, IsDealable};
ghost use Rattle.dealer.specs.Told.{TellsLeaves};
ghost use Rattle.dealer.specs.declared.committed.CommittedFault.TheVariants.{Deal, TooLarge};
ghost use Rattle.dealer.specs.declared.faults.DealFault.{DealFault};

use crate::beside::build_beside;
use crate::building::build;
use crate::checks::test_dealing;
use crate::dealing::Dealt;
use crate::faults::DealFault;
use coalition_map::Plan;
use lms_bytes::Params;
use memory::NoMemory;
use share_files::length_of_commits;
use std::alloc::Global;
use std::fmt::{self, Formatter, Write};
use std::thread::Threads;
use stream_io::Progress;
use thiserror::Error;

/// The most bytes of a commitment file that is made.
const COMMITS_LIMIT: u64 = 67_108_864;

/// Why there is no dealing with commitments.
#[derive(Clone, Copy, PartialEq, Eq, Error)]
pub enum CommittedFault {
    /// There is no dealing.
    #[error("no dealing: {0}")]
    Deal(DealFault),
    /// The commitment file would have more than 67,108,864 bytes.
    #[error("a commitment file of {bytes} bytes, where at most 67108864 are made")]
    TooLarge { bytes: u64 },
}

impl fmt::Debug for CommittedFault {
    /// Writes the line that is displayed.
    fn fmt<W: Write>(&self, f: &mut Formatter<W>) -> fmt::Result {
        fmt::Display::fmt(self, f)
    }
}

/// Deals the key that the entropy stands for, as `deal` does, and commits to the masks of all trustees as they are
/// made. The commitment file comes beside the dealing. Entropy and length are tested before any memory is taken.
pub fn deal_committed(
    alloc: Global,
    params: &Params,
    plan: &Plan,
    entropy: &[u8],
) -> Result<(Dealt, Vec<u8>), CommittedFault>
    requires { plan.now.h ≡ params.now.h }
    ensures { DealsCommitted params.now plan.now entropy.now result }
{
    test_committed(params, plan, entropy)?;
    match build(alloc, params, plan, entropy, true) {
        Ok(both) => Ok(both),
        Err(NoMemory) => Err(CommittedFault::Deal(DealFault::NoMemory)),
    }
}

/// Deals the key that the entropy stands for, as `deal_committed` does, with its leaves and their commitments built by
/// several threads. If no thread can be made, this one builds them. After each part of 512 leaves, or after all if
/// there are fewer, `progress` is told how many are built.
pub fn deal_committed_beside<R: Threads + Sync, P: Progress>(
    rt: &R,
    progress: &mut P,
    alloc: Global,
    params: &Params,
    plan: &Plan,
    entropy: &[u8],
) -> Result<(Dealt, Vec<u8>), CommittedFault>
    requires { plan.now.h ≡ params.now.h }
    ensures deals { DealsCommitted params.now plan.now entropy.now result }
    ensures told { TellsLeaves P.told params.now.h (λ fault. fault ≡ Deal DealFault.NoMemory) result
        progress.old progress.new }
{
    test_committed(params, plan, entropy)?;
    match build_beside(rt, progress, alloc, params, plan, entropy, true) {
        Ok(both) => Ok(both),
        Err(NoMemory) => Err(CommittedFault::Deal(DealFault::NoMemory)),
    }
}

/// Tests whether the dealing that the entropy stands for is dealt with commitments. It takes no memory.
fn test_committed(params: &Params, plan: &Plan, entropy: &[u8]) -> Result<(), CommittedFault>
    requires { plan.now.h ≡ params.now.h }
    ensures dealable { OnOk result (IsDealable false params.now plan.now entropy.now) }
    ensures small { OnOk result (commits_length params.now plan.now ≤ 67108864) }
    ensures refused { (fault : DealFault) → HasFault false params.now plan.now entropy.now fault
        → result ≡ Err (Deal fault) }
    ensures too_large { IsDealable false params.now plan.now entropy.now → 67108864 < commits_length params.now plan.now
        → result ≡ Err (TooLarge (commits_length params.now plan.now)) }
    ensures cause { IfErr result (FailsCommitted params.now plan.now entropy.now) }
{
    if let Err(fault) = test_dealing(false, params, plan, entropy) {
        return Err(CommittedFault::Deal(fault));
    }
    let bytes = length_of_commits(params, plan.k());
    if bytes > COMMITS_LIMIT {
        return Err(CommittedFault::TooLarge { bytes });
    }
    Ok(())
}
