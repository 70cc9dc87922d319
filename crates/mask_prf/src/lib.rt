//! HMAC, and the masks, check tags and randomizers that are derived by it; and how long masked values are.
#![tactic(auto)]

mod calls;
mod mac_key;
mod pads;
mod sizes;

pub use calls::{chain_mask, check_tag, hmac, hmac_any, random_mask, randomizer};
pub use mac_key::MacKey;
pub use sizes::{
    COMMITMENT, HEAD, TAG, chain_bytes, chain_commits_bytes, leaf_bytes, leaf_commits_bytes,
};
