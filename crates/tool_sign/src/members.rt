//! The trustees that an aggregator asks.

ghost use Rattle.std.specs.Prelude.{◌≡◌, map, option_map, IfOk, IfErr, OnOk};
ghost use Rattle.tool_base.specs.Ending as spec;
ghost use Rattle.tool_base.specs.Endings.{ending};
ghost use Rattle.tool_base.specs.declared.unsigned.Unsigned.TheVariants as unsigned;
ghost use Rattle.tool_sign.specs.Members.{IsCoalition, address, members_placed, placed};

use aggregator_session::Address;
use coalition_map::{Members, Plan};
use memory::NoMemory;
use std::alloc::Global;
use tool_base::{Ending, Unsigned};

/// The trustees that have a place. That of trustee `t` is at `t - 1`.
pub(crate) fn members_of(places: &[Option<&str>; 12]) -> Members
    ensures { result ≡ members_placed (map (option_map (λ place. place.now)) places.now) }
{
    let mut bits = 0;
    'places: for i in 0..places.len() {
        if places[i].is_some() {
            bits += 1 << i;
        }
    }
    Members::of_bits(bits)
}

/// Where the trustees that have a place are dialled, in ascending order. The place of trustee `t` is at `t - 1`.
pub fn addresses_of(alloc: Global, places: &[Option<&str>; 12]) -> Result<Vec<Address>, NoMemory>
    ensures { IfOk result (λ addresses.
        map address addresses.items ≡ placed (map (option_map (λ place. place.now)) places.now)) }
{
    let mut addresses = Vec::new(alloc);
    'places: for i in 0..places.len() {
        if let Some(place) = places[i] {
            addresses.push(Address {
                member: i as u8 + 1,
                place: String::from_str(alloc, place)?,
            })?;
        }
    }
    Ok(addresses)
}

/// Tests that members are one of the coalitions of a plan.
pub(crate) fn test_members(plan: &Plan, members: Members) -> Result<(), Ending>
    ensures coalition { OnOk result (IsCoalition plan.now members) }
    ensures refused { IfErr result (λ end. (ending end ≡ spec.NotSigned unsigned.NotACoalition)
        × (IsCoalition plan.now members → ⊥)) }
{
    match plan.number_of(members) {
        Some(_) => Ok(()),
        None => Err(Ending::NotSigned(Unsigned::NotACoalition)),
    }
}
