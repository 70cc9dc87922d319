//! What SHA-256 alone costs.

use sha2::{Digest, Sha256};

/// What is hashed at once: with its padding, 1024 blocks.
const PIECE: [u8; 65527] = [0x55; 65527];

/// Hashes `blocks` blocks, in pieces of 1024, and gives the exclusive or of the last bytes.
pub(crate) fn hash_blocks(blocks: u64) -> u8 {
    let mut all = 0;
    for _ in 0..blocks / 1024 {
        let digest: [u8; 32] = Sha256::digest(&PIECE);
        all ^= last_byte(&digest);
    }
    all
}

/// The first byte, or 0 if there is none.
pub(crate) fn first_byte(bytes: &[u8]) -> u8 {
    bytes.first().copied().unwrap_or(0)
}

/// The last byte, or 0 if there is none.
pub(crate) fn last_byte(bytes: &[u8]) -> u8 {
    bytes.last().copied().unwrap_or(0)
}
