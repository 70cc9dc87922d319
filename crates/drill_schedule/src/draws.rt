//! What is drawn from the number of a drill, in its order: the entropy, and three draws for each event.

ghost use Rattle.std.specs.Prelude.{◌≡◌, ◌+◌, ◌*◌, ℕ};
ghost use Rattle.drill_schedule.specs.Draws.{entropy_of, event_at, message_bytes, state_at};

use crate::event::Event;
use disk_trait::Generator;

/// How many bytes of entropy it takes to deal a key to three trustees.
pub const ENTROPY: usize = 176;

/// An event, and what is drawn with it.
#[derive(Clone, Copy, Debug, PartialEq, Eq)]
pub struct Schedule {
    /// What happens.
    pub event: Event,
    /// The session, before it is taken modulo their number.
    pub session: u32,
    /// The trustee of a restart, or where a disk stops and what it leaves.
    pub pick: u32,
}

impl Schedule {
    /// The next event.
    pub fn draw(generator: &mut Generator) -> Schedule
        ensures schedule { (number i : ℕ) → generator.old.state ≡ state_at number i → result ≡ event_at number i }
        ensures after { (number i : ℕ) → generator.old.state ≡ state_at number i
            → generator.new.state ≡ state_at number (i + 3) }
    {
        let event = Event::of(generator.draw());
        let session = generator.draw();
        let pick = generator.draw();
        Schedule {
            event,
            session,
            pick,
        }
    }
}

/// The entropy of a drill: the low byte of each draw, except for the first byte of each trustee's key, which is its
/// number.
pub fn draw_entropy(generator: &mut Generator) -> [u8; ENTROPY]
    ensures entropy { result ≡ entropy_of generator.old.state }
    ensures after { generator.new.state ≡ state_at generator.old.state 176 }
{
    let mut entropy = [0; ENTROPY];
    'bytes: for i in 0..ENTROPY {
        entropy[i] = (generator.draw() % 256) as u8;
    }
    entropy[80] = 1;
    entropy[112] = 2;
    entropy[144] = 3;
    entropy
}

/// The message of a session: `drill`, and the session's number in four bytes, highest byte first.
pub fn message_of(session: u32) -> [u8; 9]
    ensures { result ≡ message_bytes session }
{
    let mut message = *b"drill\0\0\0\0";
    message[5..].copy_from_slice(&session.to_be_bytes());
    message
}
