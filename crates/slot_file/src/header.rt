//! The header of a slot file, and the faults of files.

ghost use Rattle.std.specs.Prelude.{◌≡◌, ◌≢◌, MatchResult, IfErr, None, Some};

use byteorder::{BigEndian, ByteOrder};
use disk_trait::DiskFault;
use std::fmt::{self, Formatter, Write};
use thiserror::Error;

/// The byte of an open gate.
pub(crate) const OPEN: u8 = 0xA7;

/// The length of the header block in bytes.
pub(crate) const BLOCK: usize = 128;

/// What a file's header block names.
#[derive(Clone, Copy, PartialEq, Eq)]
pub struct Header {
    /// 2 for a journal, whose slots have 160 bytes; otherwise slots have 128 bytes.
    pub version: u8,
    /// The trustee, or 0 for a leaf table.
    pub number: u8,
    /// The LMS code.
    pub lms: u32,
    /// The LM-OTS code.
    pub ots: u32,
    /// The key's identifier.
    pub id: [u8; 16],
}

/// Why a file could not be opened, in the order of the tests.
#[derive(Clone, Copy, PartialEq, Eq, Error)]
pub enum LoadFault {
    /// There are fewer bytes than the header has, or not as many as the header and the slots have.
    #[error("the file has {got} bytes, and the header and the slots have {want}")]
    Length {
        /// The length.
        got: u64,
        /// The length that the whole file has.
        want: u64,
    },
    /// The header's gate is closed.
    #[error("the file is not ready: its gate is {gate:#04x}, and an open one is 0xa7")]
    NotReady {
        /// The gate's byte.
        gate: u8,
    },
    /// The version differs.
    #[error("the file has version {got}, and another was wanted")]
    Version {
        /// The file's.
        got: u8,
    },
    /// The header differs.
    #[error("the file is of another key or trustee: its number is {}, its LMS code {}", kept.number, kept.lms)]
    Foreign {
        /// The file's.
        kept: Header,
    },
    /// The disk failed.
    #[error("a call of the disk failed")]
    Device,
}

impl fmt::Debug for LoadFault {
    /// Writes the line that is displayed.
    fn fmt<W: Write>(&self, f: &mut Formatter<W>) -> fmt::Result {
        fmt::Display::fmt(self, f)
    }
}

impl From<DiskFault> for LoadFault {
    ghost use Rattle.slot_file.specs.declared.header.LoadFault.TheVariants.{Device};

    ghost from_gives = { λ _ fault. fault ≡ Device };

    fn from(_: DiskFault) -> Self {
        LoadFault::Device
    }
}

impl Header {
    ghost use Rattle.slot_file.specs.Layout.{header_in, header_block, header_fault, same_header};
    ghost use Rattle.slot_file.specs.Fresh.{HasFields};

    /// Reads the header from a block's first bytes.
    #[tactic(auto, unfolding(crate::specs::Layout::header_in))]
    fn of_bytes(block: &[u8; 32]) -> Header
        ensures { result ≡ header_in block.now }
    {
        let mut id = [0; 16];
        id.copy_from_slice(&block[16..32]);
        Header {
            version: block[4],
            number: block[5],
            lms: BigEndian::read_u32(&block[8..12]),
            ots: BigEndian::read_u32(&block[12..16]),
            id,
        }
    }

    // Whether all fields are equal.
    #[tactic(auto, unfolding(crate::specs::Layout::same_header))]
    fn is_same(&self, other: &Header) -> bool
        ensures { result ≡ same_header self.now other.now }
    {
        *self == *other
    }

    /// Tests the header in a block's first bytes.
    #[tactic(auto, unfolding(crate::specs::Layout::header_fault))]
    pub(crate) fn check(&self, block: &[u8; 32]) -> Result<(), LoadFault>
        ensures fault { MatchResult result (λ _. header_fault self.now block.now ≡ None)
            (λ fault. header_fault self.now block.now ≡ Some fault) }
        ensures other { IfErr result (λ fault. fault ≢ LoadFault.Device) }
    {
        let (gate, version) = (block[0], block[4]);
        if gate != OPEN {
            return Err(LoadFault::NotReady { gate });
        }
        if version != self.version {
            return Err(LoadFault::Version { got: version });
        }
        let kept = Header::of_bytes(block);
        if !kept.is_same(self) {
            return Err(LoadFault::Foreign { kept });
        }
        Ok(())
    }

    /// The header's block.
    #[tactic(auto, unfolding(crate::specs::Layout::header_block))]
    pub(crate) fn block(&self, gate: u8) -> [u8; 128]
        ensures bytes { result ≡ header_block gate self.now }
        ensures names { HasFields self.now }
    {
        let (lms, ots) = (self.lms, self.ots);
        let mut block = [0; 128];
        block[0] = gate;
        block[4] = self.version;
        block[5] = self.number;
        BigEndian::write_u32(&mut block[8..12], lms);
        BigEndian::write_u32(&mut block[12..16], ots);
        block[16..32].copy_from_slice(&self.id);
        block
    }
}
