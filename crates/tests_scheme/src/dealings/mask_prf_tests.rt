//! Tests of what no contract says: that the definitions are those of RFC 2104 and of this project's formulas, by values
//! of RFC 4231 and of another implementation.

use crate::values::holds;
use lms_bytes::{Params, Val};
use mask_prf::{MacKey, chain_mask, check_tag, hmac, hmac_any, random_mask, randomizer};

/// Keys, texts and their HMAC.
const MACS: [(&[u8], &[u8], &[u8]); 3] = [
    (
        &[0x0b; 20],
        b"Hi There",
        b"\xb0\x34\x4c\x61\xd8\xdb\x38\x53\x5c\xa8\xaf\xce\xaf\x0b\xf1\x2b\
            \x88\x1d\xc2\x00\xc9\x83\x3d\xa7\x26\xe9\x37\x6c\x2e\x32\xcf\xf7",
    ),
    (
        b"Jefe",
        b"what do ya want for nothing?",
        b"\x5b\xdc\xc1\x46\xbf\x60\x75\x4e\x6a\x04\x24\x26\x08\x95\x75\xc7\
            \x5a\x00\x3f\x08\x9d\x27\x39\x83\x9d\xec\x58\xb9\x64\xec\x38\x43",
    ),
    (
        &[0xaa; 131],
        b"Test Using Larger Than Block-Size Key - Hash Key First",
        b"\x60\xe4\x31\x59\x1e\xe0\xb6\x7f\x0d\x8a\x26\xaa\xcb\xf5\xb7\x7f\
            \x8e\x0b\xc6\x21\x37\x28\xc5\x14\x05\x46\x04\x0f\x0e\xe3\x7f\x54",
    ),
];

/// Whether the HMAC of a row's text is the row's.
fn has_mac(row: &(&[u8], &[u8], &[u8])) -> bool {
    hmac_any(row.0, row.1).as_slice() == row.2
}

/// Whether the HMAC of a text in two parts is that of the whole text.
fn joins_parts() -> bool {
    let key = [0x61; 32];
    hmac(&key, b"in two ", b"parts") == hmac_any(&key, b"in two parts")
}

#[test]
fn hmac_is_that_of_rfc_4231(rt: HostRuntime) {
    for row in &MACS {
        assert!(rt; has_mac(row));
    }
    assert!(rt; joins_parts());
}

/// The values that one key gives for one place.
#[derive(Clone, Copy)]
struct Vector {
    codes: (u32, u32),
    leaf: u32,
    chain: u16,
    steps: u8,
    c: &'static [u8],
    chain_mask: &'static [u8],
    random_mask: &'static [u8],
    check_tag: &'static [u8],
    randomizer: &'static [u8],
}

/// The key of a trustee.
const KEY: &[u8; 32] = b"\xbb\xe5\xe4\xbf\x70\x11\x46\x4d\x51\xd0\xab\xda\xb5\x88\xfd\x24\
    \xce\x7b\x97\x5b\xf1\xea\xf3\x29\x18\x6c\x06\xe7\x9d\xd0\x58\x5d";

/// The identifier of a key.
const ID: &[u8; 16] = b"\xd5\x88\x70\x7d\x82\x94\x16\xd3\x6c\x65\x9f\x55\x8a\xac\x82\x84";

/// Values by another implementation.
const VECTORS: [Vector; 2] = [
    Vector {
        codes: (5, 3),
        leaf: 31,
        chain: 66,
        steps: 15,
        c: b"\x06\x61\x96\x19\xc7\x1f\x3c\x68\x2e\x3d\x61\x9d\x7b\xf8\xb7\x34\
            \x49\xcd\x94\x0c\x67\x45\xdc\x00\x45\x62\x7a\x1f\xa9\x2a\x8c\xc4",
        chain_mask: b"\x0b\xb3\x72\xa4\x16\x62\xd6\x5b\xdc\x4c\x89\x6b\xcc\x91\x71\x9e\
            \xae\xdf\x01\x0c\x4f\x85\xc3\xed\x54\x92\xdf\xa1\xd9\xb9\x05\xc2",
        random_mask: b"\x88\xfc\xf5\x0e\xdc\x95\xa1\x8c\x7f\x75\x58\x22\x27\x4f\xc0\xec\
            \x55\xcc\x88\xd9\x87\x69\xc8\xf9\xe2\x98\x7e\xa9\x7e\x21\x0f\xed",
        check_tag: b"\x9b\xbc\x12\x21\x30\xa5\x43\xaf\xe7\xe9\xb2\x6c\x7d\x64\x73\x9f\
            \x6e\x80\xb2\x44\xe0\xbb\xbc\xef\x6d\x66\x42\x80\xe9\x92\xc4\x5d",
        randomizer: b"\xb8\x24\xd7\x7e\xf4\xf1\x4b\x33\x89\x80\x0a\x77\xcc\xd0\x01\x86\
            \x8e\x29\x51\x1f\x31\x6b\x42\x90\x8d\x8a\xe7\xf2\x4f\x26\x3e\xe0",
    },
    Vector {
        codes: (10, 7),
        leaf: 17,
        chain: 5,
        steps: 9,
        c: b"\x06\x61\x96\x19\xc7\x1f\x3c\x68\x2e\x3d\x61\x9d\x7b\xf8\xb7\x34\
            \x49\xcd\x94\x0c\x67\x45\xdc\x00",
        chain_mask: b"\x27\x4e\x31\x5b\x81\xad\x03\x26\x1a\x17\xb1\xc8\x14\x98\x3b\x67\
            \xf9\x46\xab\xa4\xdb\x34\x5c\x84",
        random_mask: b"\xe2\x37\x5f\x3a\x28\x9a\x25\x92\x7e\x27\xd9\x1a\x9e\x95\x90\x77\
            \xd1\xa0\xce\x6a\x17\xb6\x35\xa9",
        check_tag: b"\x23\x86\xb7\x16\x73\xec\x63\xf6\x51\x21\xe1\xe8\x6c\x11\x71\x24\
            \x45\x85\x2d\x1b\x23\x24\xb9\x11\xa4\xd7\xc5\x35\x89\xa2\xce\x96",
        randomizer: b"\x30\xa7\xf4\x41\x20\xca\xf5\x2b\x00\xe9\xdf\x84\xff\xd6\x91\x84\
            \x3b\xc0\xec\xb7\x8d\x14\x99\x97",
    },
];

/// Whether the masks are the vector's, both of the key and of what is kept of it.
fn has_masks(kept: &MacKey, params: &Params, vector: &Vector) -> bool {
    let (q, i, j) = (vector.leaf, vector.chain, vector.steps);
    let chains = chain_mask(KEY, params, ID, q, i, j);
    let random = random_mask(KEY, params, ID, q);
    chains.bytes() == vector.chain_mask
        && kept.chain_mask(params, ID, q, i, j) == chains
        && random.bytes() == vector.random_mask
        && kept.random_mask(params, ID, q) == random
}

/// Whether the tag of the vector's randomizer is the vector's, both of the key and of what is kept of it.
fn has_tag(kept: &MacKey, params: &Params, vector: &Vector) -> bool {
    if vector.c.len() != params.n as usize {
        return false;
    }
    let c = Val::of(vector.c);
    let tag = check_tag(KEY, ID, vector.leaf, &c);
    tag.as_slice() == vector.check_tag && kept.check_tag(ID, vector.leaf, &c) == tag
}

/// Whether the randomizer is the vector's, both of the key and of what is kept of it.
fn has_randomizer(kept: &MacKey, params: &Params, vector: &Vector) -> bool {
    let value = randomizer(KEY, params, ID, vector.leaf);
    value.bytes() == vector.randomizer && kept.randomizer(params, ID, vector.leaf) == value
}

/// Whether all values are the vector's.
fn has_values(kept: &MacKey, vector: &Vector) -> bool {
    match Params::of_codes(vector.codes.0, vector.codes.1) {
        Ok(params) => {
            has_masks(kept, &params, vector)
                && has_tag(kept, &params, vector)
                && has_randomizer(kept, &params, vector)
        }
        Err(_) => false,
    }
}

#[test]
fn masks_and_tags_are_those_of_the_formulas(rt: HostRuntime) {
    let kept = MacKey::new(KEY);
    for vector in &VECTORS {
        holds(&rt, vector.codes.1, has_values(&kept, vector));
    }
}
