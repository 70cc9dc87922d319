//! What follows from the definitions, for proofs about sessions. No function here does anything.

ghost use Rattle.std.specs.Prelude.{◌≡◌, ℕ, List, None};
ghost use Rattle.session_core.specs.Deliveries.{Delivery, answered_seats, deliveries_fault, delivered, first_masks};
ghost use Rattle.session_core.specs.Judging.{round_fault};
ghost use Rattle.session_core.specs.State.{AreEmpty, IsSession, SameAsk, State, seats_of};
ghost use Rattle.session_core.specs.Verdicts.{bodies_of};

/// Whatever is delivered, in any order, with repeats and with replies that answer no ask: starting from a round in
/// which nothing is kept, each member's seat keeps the first reply that answers the ask to that member, and everything
/// else in the session stays. So what `turn` and `finish` find wrong with the round is what each member's first reply
/// says, and if nothing is wrong, what they join are each member's first masks.
pub fn any_deliveries()
    ensures seats { (s : State) (deliveries : List Delivery) → IsSession s → AreEmpty (seats_of s)
        → seats_of (delivered s deliveries) ≡ answered_seats s deliveries }
    ensures fault { (s : State) (digest : List ℕ) (deliveries : List Delivery) → IsSession s → AreEmpty (seats_of s)
        → round_fault (delivered s deliveries) digest ≡ deliveries_fault s digest deliveries }
    ensures masks { (s : State) (digest : List ℕ) (deliveries : List Delivery) → IsSession s → AreEmpty (seats_of s)
        → deliveries_fault s digest deliveries ≡ None
        → bodies_of (seats_of (delivered s deliveries)) ≡ first_masks s deliveries }
    ensures ask { (s : State) (deliveries : List Delivery) → SameAsk s (delivered s deliveries) }
{}
