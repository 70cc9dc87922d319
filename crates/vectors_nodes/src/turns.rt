//! Locks with one pass.

ghost use Rattle.std.specs.Prelude.{◌≡◌, All, IfSome};
ghost use Rattle.turn_lock.specs.Pass.{first_pass};

use turn_lock::{Kept, Pass, TurnLock};

/// The only pass of a lock.
pub(crate) fn only_pass<K: Kept>(lock: &TurnLock<K>, mut passes: Vec<Pass<K>>) -> Option<Pass<K>>
    requires { All (λ pass. pass ≡ first_pass lock.now) passes.items }
    ensures { IfSome result (λ pass. pass ≡ first_pass lock.now) }
{
    passes.pop()
}
