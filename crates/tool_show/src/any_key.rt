//! Keys of one level and of several.

ghost use Rattle.std.specs.Prelude.{◌≡◌, IfOk, IfSome, option_map, string_bytes};
ghost use Rattle.tool_show.specs.Keys.{any_key_bytes, any_key_line, kind_of_key};
ghost use Rattle.tool_show.specs.Kinds.{key_kind};

use crate::lines::{hss_key_line, key_line};
use hss_levels::{HssKey, read_hss_key};
use lms_bytes::{PublicKey, read_public};
use std::alloc::{AllocError, Global};

/// A key of one level or of several.
#[derive(Clone, Copy)]
pub(crate) enum AnyKey {
    /// An LMS key.
    Lms(PublicKey),
    /// An HSS key.
    Hss(HssKey),
}

impl AnyKey {
    /// The key that all of `bytes` are: an LMS key, or else an HSS key, or none.
    #[tactic(auto, unfolding(crate::specs::Kinds::key_kind))]
    pub(crate) fn of(bytes: &[u8]) -> Option<AnyKey>
        ensures kind { key_kind bytes.now ≡ option_map kind_of_key result }
        ensures bytes { IfSome result (λ key. bytes.now ≡ any_key_bytes key) }
    {
        if let Ok(key) = read_public(bytes) {
            return Some(AnyKey::Lms(key));
        }
        match read_hss_key(bytes) {
            Ok(key) => Some(AnyKey::Hss(key)),
            Err(_) => None,
        }
    }

    /// The line of the key.
    pub(crate) fn line(&self, alloc: Global) -> Result<String, AllocError>
        ensures { IfOk result (λ line. string_bytes line ≡ any_key_line self.now) }
    {
        match self {
            AnyKey::Lms(key) => key_line(alloc, key),
            AnyKey::Hss(key) => hss_key_line(alloc, key),
        }
    }
}
