//! Laws: what is written is read as the same value, whatever follows it.

ghost use Rattle.std.specs.Prelude.{◌≡◌, ◌≤◌, ◌<◌, ◌^◌, ◌++◌, List, ℕ, length};
ghost use Rattle.coalition_map.specs.Members.{member_numbers};
ghost use Rattle.lms_bytes.specs.Signature.{signature_length};
ghost use Rattle.lms_bytes.specs.declared.ask.Ask.{Ask};
ghost use Rattle.lms_bytes.specs.declared.ask.ReplyHead.{ReplyHead};
ghost use Rattle.lms_bytes.specs.declared.params.Params.{Params};
ghost use Rattle.round_frames.specs.Asks.{IsAsk, ask_frame, asks};
ghost use Rattle.round_frames.specs.Frames.{ReadsBack};
ghost use Rattle.round_frames.specs.Replies.{HasParts, IsHead, body_length, replies, reply_front};
ghost use Rattle.round_frames.specs.Requests.{request_frame, requests};
ghost use Rattle.round_frames.specs.Results.{Failed, Signature, failure_frame, results, signature_frame};
ghost use Rattle.round_frames.specs.declared.outcome.Failure.{Failure};

/// An ask of a message is read back.
pub fn asks_are_read()
    ensures { (params : Params) (ask : Ask) (message : List ℕ) → IsAsk params ask message
        → ReadsBack (asks params) (ask_frame ask message) ask }
{}

/// A reply is read back as its head and its body.
pub fn replies_are_read()
    ensures { (params : Params) (head : ReplyHead) (body : List ℕ) → HasParts head → IsHead params head
        → length body ≡ body_length params head
        → ReadsBack (replies params) (reply_front params head ++ body) (head, body) }
{}

/// A request is read back. The bits stand for its trustees.
pub fn requests_are_read()
    ensures { (bits : ℕ) (message : List ℕ) → bits < 2 ^ 16 → length message ≤ 16777216
        → ReadsBack requests (request_frame (member_numbers bits) message) (member_numbers bits, message) }
{}

/// A signature of the set's length is read back.
pub fn signatures_are_read()
    ensures { (params : Params) (bytes : List ℕ) → length bytes ≡ signature_length params
        → ReadsBack (results params) (signature_frame bytes) (Signature bytes) }
{}

/// A failure is read back.
pub fn failures_are_read()
    ensures { (params : Params) (failure : Failure) → failure.leaf < 2 ^ 32
        → ReadsBack (results params) (failure_frame failure) (Failed failure) }
{}
