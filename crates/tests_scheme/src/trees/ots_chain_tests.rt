//! Tests of what no contract says: that the definitions are the standard's, by another implementation's values.

ghost use Rattle.std.specs.Prelude.{◌≡◌, length};
ghost use Rattle.lms_bytes.specs.HashLength.{IsHashLength};

use crate::values::{ID, front, holds};
use lms_bytes::{Params, Val};
use ots_chain::{MessageHash, chain, leaf_key_from, leaf_key_of, secret};

/// The value of the `n` bytes `first`, `first + 1` and so on.
fn ramp(first: u8, n: u8) -> Val
    requires { IsHashLength n }
    ensures { length result ≡ n }
{
    let mut bytes = [0; 32];
    for i in 0..32 {
        bytes[i as usize] = first.wrapping_add(i);
    }
    Val::cut(&bytes, n)
}

/// A secret value, and the end of a chain.
fn chain_values(params: &Params) -> [u64; 2] {
    let seed = ramp(0x20, params.n);
    let last = params.p - 1;
    let greatest = params.greatest_digit();
    [
        front(&secret(params, &ID, 5, last, &seed)),
        front(&chain(params, &ID, 5, last, greatest / 2, greatest, &seed)),
    ]
}

/// A leaf's public value, and a candidate for it.
fn leaf_keys(params: &Params) -> [u64; 2] {
    let chains = [0x5a; 8480];
    let length = params.n as usize * params.p as usize;
    let digest = ramp(0x60, params.n);
    [
        front(&leaf_key_of(params, &ID, 5, &ramp(0x20, params.n))),
        front(&leaf_key_from(params, &ID, 5, &digest, &chains[..length])),
    ]
}

/// The digest of a message.
fn digest(params: &Params) -> u64 {
    front(&MessageHash::of(params, &ID, 5, &ramp(0x40, params.n), b"one and two"))
}

/// The digest of that message, taken in pieces.
fn digest_in_pieces(params: &Params) -> u64 {
    let mut hash = MessageHash::new(params, &ID, 5, &ramp(0x40, params.n));
    for piece in [b"one".as_slice(), b"", b" and", b" two"] {
        hash.update(piece);
    }
    front(&hash.finish())
}

/// The typecodes of a set with its chain values, its digest and its leaf keys, by another implementation.
const SETS: [(u32, u32, [u64; 2], u64, [u64; 2]); 8] = [
    (
        5,
        1,
        [0x0c61c863f5b7fdd3, 0x9dc35ab12fc49ff1],
        0x6e3b4a99bd0836ef,
        [0x32b173a9b1274aff, 0xb8a4e9b783d06536],
    ),
    (
        5,
        2,
        [0xcc156b78000e362e, 0xb1e298c6c8093e7d],
        0x6e3b4a99bd0836ef,
        [0x4191b3673be90148, 0xe44c341fde1b6d81],
    ),
    (
        5,
        3,
        [0xad90fe7d2ca4a496, 0x64702ae1358f8458],
        0x6e3b4a99bd0836ef,
        [0x2995a3d767172e7d, 0x42f29b4beb7d6c26],
    ),
    (
        5,
        4,
        [0x432c37bc19cef58f, 0x0d262341eb2c3929],
        0x6e3b4a99bd0836ef,
        [0x9ec12be6e76bbe42, 0x28f0ea1f03b95ab3],
    ),
    (
        10,
        5,
        [0xa6edceb26a64e3f6, 0xd08665bf9f5d0764],
        0xc8ca504e4d3ceaa6,
        [0x590425c0dfb75193, 0x1e433f2128ca2e8e],
    ),
    (
        10,
        6,
        [0x407fea2972f93f87, 0x3fb1d8b0c39a96da],
        0xc8ca504e4d3ceaa6,
        [0x2019b2b04b794191, 0x714e3d189509bef8],
    ),
    (
        10,
        7,
        [0x0641edbd27d80fe9, 0x3d3840bd71d93065],
        0xc8ca504e4d3ceaa6,
        [0xd4816a04dacf0cda, 0xb49141de4260e5ff],
    ),
    (
        10,
        8,
        [0x8e8e15803bc4a71a, 0xed857bc030646a41],
        0xc8ca504e4d3ceaa6,
        [0xc553cac3cd2f19e0, 0xa6968398664d70e0],
    ),
];

/// Whether the values of a row's set are the row's.
fn has_row(row: &(u32, u32, [u64; 2], u64, [u64; 2])) -> bool {
    match Params::of_codes(row.0, row.1) {
        Ok(params) => {
            chain_values(&params) == row.2
                && digest(&params) == row.3
                && digest_in_pieces(&params) == row.3
                && leaf_keys(&params) == row.4
        }
        Err(_) => false,
    }
}

#[test]
fn values_are_those_of_another_implementation(rt: HostRuntime) {
    for row in &SETS {
        holds(&rt, row.1, has_row(row));
    }
}
