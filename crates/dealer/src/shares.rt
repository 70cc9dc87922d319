//! The shares of a dealing.

ghost use Rattle.std.specs.Prelude.{◌<◌, IfOk, length};
ghost use Rattle.dealer.specs.Dealt.{AreShares};
ghost use Rattle.dealer.specs.Material.{dealing_with};

use crate::material::KeyMaterial;
use memory::NoMemory;
use share_files::Share;
use std::alloc::Global;

/// The shares of all trustees, that of trustee 1 first.
pub(crate) fn build_shares(alloc: Global, material: &KeyMaterial) -> Result<Vec<Share>, NoMemory>
    ensures shares { IfOk result (λ shares. AreShares (dealing_with material.now) shares.items) }
    ensures some { IfOk result (λ shares. 0 < length shares.items) }
{
    let KeyMaterial {
        params,
        plan,
        id,
        ..
    } = material;
    let mut shares = Vec::with_capacity(alloc, plan.n() as usize)?;
    'trustees: for t in 1..plan.n() + 1 {
        let key = material.keys[t as usize - 1];
        shares.push(Share {
            member: t,
            plan: *plan,
            params: *params,
            id: *id,
            key,
        })?;
    }
    Ok(shares)
}
