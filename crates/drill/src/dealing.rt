//! The dealing of a drill.

ghost use Rattle.std.specs.Prelude.{◌≡◌, ℕ, IfOk};
ghost use Rattle.dealer.specs.Dealt.{IsDealt};
ghost use Rattle.dealer.specs.Entropy.{dealing_of};
ghost use Rattle.drill_schedule.specs.Draws.{entropy_of};

use crate::desk::Desk;
use coalition_map::Plan;
use dealer::{DealFault, deal, rehearsal_params};
use memory::NoMemory;
use std::alloc::Global;

/// Deals the key that the entropy of a drill stands for.
pub(crate) fn deal_drill(alloc: Global, entropy: &[u8]) -> Result<Desk, NoMemory>
    requires { (number : ℕ) × (entropy.now ≡ entropy_of number) }
    ensures { IfOk result (λ desk.
        IsDealt (dealing_of desk.dealt.public.params desk.plan entropy.now) desk.dealt) }
{
    let plan = plan_of_three();
    match deal(alloc, &rehearsal_params(), &plan, entropy) {
        Ok(dealt) => Ok(Desk { dealt, plan }),
        Err(fault) => Err(memory_fault(fault)),
    }
}

/// The one fault that a dealing of a drill may have: its keys differ in their first bytes.
fn memory_fault(fault: DealFault) -> NoMemory
    requires { fault ≡ DealFault.NoMemory }
{
    match fault {
        DealFault::NoMemory => NoMemory,
        _ => unreachable!(),
    }
}

/// The plan of a drill: each leaf belongs to two of three trustees.
#[tactic(auto, unfolding(coalition_map::specs::Coalitions::subsets))]
fn plan_of_three() -> Plan
    ensures { result ≡ record { n = 3; k = 2; h = 5 } }
{
    Plan::new(3, 2, 5).unwrap()
}
