//! What a slot is.

ghost use Rattle.std.specs.Prelude.{◌≡◌, ◌≤◌, ◌<◌, ◌↔◌, ◌+◌, ◌*◌, ◌^◌, length, IsTrue};
ghost use Rattle.disk_trait.specs.Images.{written};
ghost use Rattle.slot_file.specs.Copies.{with_part};
ghost use Rattle.slot_file.specs.Layout.{slot_size, slot_start, file_size, moment_bytes};
ghost use Rattle.slot_file.specs.Runs.{IsInBlock};

use byteorder::{BigEndian, ByteOrder};

/// The byte of an open gate A.
pub(crate) const A_OPEN: u8 = 0xB1;

/// The byte of an open gate B.
pub(crate) const B_OPEN: u8 = 0xC2;

// Writes over part of a block.
fn put_at(block: &mut [u8], at: usize, bytes: &[u8])
    requires { at + length bytes.now ≤ length block.old }
    ensures after { block.new ≡ written block.old at bytes.now }
    ensures len { length block.new ≡ length block.old }
{
    block[at..at + bytes.len()].copy_from_slice(bytes);
}

// Writes an open gate and its body.
fn put_part(block: &mut [u8], at: usize, gate: u8, body: &[u8])
    requires { at + 4 + length body.now ≤ length block.old }
    ensures after { block.new ≡ with_part at gate body.now block.old }
    ensures len { length block.new ≡ length block.old }
{
    put_at(block, at, &[gate]);
    put_at(block, at + 4, body);
}

/// A slot, by its gates.
#[derive(Clone, Copy, PartialEq, Eq)]
pub enum Slot {
    /// Both gates are closed.
    Free,
    /// Gate A is open: body A.
    Half([u8; 36]),
    /// Both gates are open: body A, body B, and the moment, which is 0 in slots of 128 bytes.
    Full([u8; 36], [u8; 64], u64),
    /// Gate B is open and gate A is closed.
    Damaged {
        /// The byte of gate A.
        a: u8,
        /// The byte of gate B.
        b: u8,
    },
}

impl Slot {
    ghost use Rattle.slot_file.specs.Copies.{is_free, slot_block};
    ghost use Rattle.slot_file.specs.Files.{gates_of, with_b};
    ghost use Rattle.slot_file.specs.Layout.{slot_of};

    /// Whether both gates are closed.
    pub fn is_free(&self) -> bool
        ensures { result ≡ is_free self.now }
    {
        matches!(self, Slot::Free)
    }

    /// Whether the two are equal.
    pub fn is_same(&self, other: &Slot) -> bool
        ensures { IsTrue result ↔ (self.now ≡ other.now) }
    {
        self == other
    }

    /// A half slot with a second body. Every other slot stays as it is.
    pub fn with_b(&self, body: &[u8; 64], moment: u64) -> Slot
        ensures { result ≡ with_b self.now body.now moment }
    {
        match self {
            Slot::Half(a) => Slot::Full(*a, *body, moment),
            Slot::Free | Slot::Full(..) | Slot::Damaged { .. } => *self,
        }
    }

    /// The bytes of the two gates: an open one is known, and a closed one is 0 except in a damaged slot.
    pub fn gates(&self) -> (u8, u8)
        ensures { result ≡ gates_of self.now }
    {
        match *self {
            Slot::Free => (0, 0),
            Slot::Half(_) => (A_OPEN, 0),
            Slot::Full(..) => (A_OPEN, B_OPEN),
            Slot::Damaged { a, b } => (a, b),
        }
    }

    /// The bytes of a slot of 160 bytes, with moment 0.
    #[tactic(auto, unfolding(crate::specs::Copies::slot_block))]
    pub(crate) fn block(&self) -> [u8; 160]
        ensures { result ≡ slot_block self.now }
    {
        let mut block = [0; 160];
        match self {
            Slot::Half(a) => put_part(&mut block, 0, A_OPEN, a),
            Slot::Full(a, b, _) => {
                put_part(&mut block, 0, A_OPEN, a);
                put_part(&mut block, 40, B_OPEN, b);
            }
            Slot::Free | Slot::Damaged { .. } => {}
        }
        block
    }

    /// Reads the gates, and the bodies after those that are open.
    #[tactic(auto, unfolding(crate::specs::Layout::slot_of, crate::specs::Layout::moment_of))]
    pub(crate) fn of_bytes(version: u8, bytes: &[u8]) -> Slot
        requires { length bytes.now ≡ slot_size version }
        ensures { result ≡ slot_of version bytes.now }
    {
        let (a, b) = (bytes[0], bytes[40]);
        if a != A_OPEN {
            return if b == B_OPEN {
                Slot::Damaged { a, b }
            } else {
                Slot::Free
            };
        }
        let mut body_a = [0; 36];
        body_a.copy_from_slice(&bytes[4..40]);
        if b != B_OPEN {
            return Slot::Half(body_a);
        }
        let mut body_b = [0; 64];
        body_b.copy_from_slice(&bytes[44..108]);
        let moment = if version == 2 {
            BigEndian::read_u64(&bytes[108..116])
        } else {
            0
        };
        Slot::Full(body_a, body_b, moment)
    }
}

/// Reads the slots that stand one after another in a block.
pub(crate) fn read_block(version: u8, block: &[u8], out: &mut [Slot])
    requires { length block.now ≡ slot_size version * length out.old }
    ensures slots { IsInBlock version block.now out.new }
    ensures count { length out.new ≡ length out.old }
{
    let size = slot_len(version);
    for place in 0..out.len() {
        let start = size * place;
        out[place] = Slot::of_bytes(version, &block[start..start + size]);
    }
}

/// The length of a slot in bytes.
pub(crate) fn slot_len(version: u8) -> usize
    ensures { result ≡ slot_size version }
{
    if version == 2 { 160 } else { 128 }
}

/// Where a slot begins.
pub(crate) fn slot_start(version: u8, slot: u32) -> u64
    ensures value { result ≡ slot_start version slot }
    ensures small { result < 2 ^ 40 }
{
    128 + slot_len(version) as u64 * u64::from(slot)
}

/// The length of a file of `count` slots.
pub(crate) fn file_len(version: u8, count: u32) -> u64
    ensures value { result ≡ file_size version count }
    ensures small { result < 2 ^ 40 }
{
    slot_start(version, count)
}

/// The bytes of a moment.
#[tactic(auto, unfolding(crate::specs::Layout::moment_bytes))]
pub(crate) fn moment_bytes(moment: u64) -> [u8; 8]
    ensures { result ≡ moment_bytes moment }
{
    let mut bytes = [0; 8];
    BigEndian::write_u64(&mut bytes, moment);
    bytes
}
