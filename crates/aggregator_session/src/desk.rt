//! What an aggregator signs with.

ghost use Rattle.std.specs.Prelude.{◌≡◌, None, Some, IfNone, IfSome};
ghost use Rattle.aggregator_session.specs.Addresses.{place_of};

use coalition_map::Plan;
use lms_bytes::PublicKey;
use merkle_path::Tree;

/// Where a member is dialled.
#[derive(Debug, Drop)]
pub struct Address {
    /// The number of the member.
    pub member: u8,
    /// Its place.
    pub place: String,
}

/// What an aggregator signs with: the key, its plan and tree, and where the members are dialled. Plan and tree are as
/// high as the key's tree, and the tree's nodes are as long as its hashes.
#[derive(Clone, Copy)]
pub struct Desk<'a> {
    /// The key that signatures are verified under.
    pub key: &'a PublicKey,
    /// The plan of the key's leaves.
    pub plan: &'a Plan,
    /// The key's tree.
    pub tree: &'a Tree,
    /// Where the members are dialled.
    pub addresses: &'a [Address],
    pub ghost plan_height: { plan.now.h ≡ key.now.params.h },
    pub ghost tree_length: { tree.now.n ≡ key.now.params.n },
    pub ghost tree_height: { tree.now.h ≡ key.now.params.h },
}

/// The place in the first address that names this member.
pub(crate) fn place_of(addresses: &[Address], member: u8) -> Option<&str>
    ensures some { IfSome result (λ place. place_of addresses.now member ≡ Some place.now) }
    ensures none { IfNone result (place_of addresses.now member ≡ None) }
{
    'addresses: for i in 0..addresses.len() {
        let address = &addresses[i];
        if address.member == member {
            return Some(address.place.as_str());
        }
    }
    None
}
