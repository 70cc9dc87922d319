//! Tests of what no contract says: that the commitment file of a dealing is that of another implementation, and is made
//! if there is ample memory.

use crate::dealings::{count_up, digest_of, scheme_of};
use crate::values::holds;
use dealer::deal;
use share_blame::commitments;
use std::alloc::Global;
use std::process::Abort;

/// Typecodes of dealings to coalitions of three of five trustees, with SHA-256 of the commitment file.
const FILES: [((u32, u32), &[u8; 32]); 2] = [
    (
        (5, 3),
        b"\x39\xdc\xdf\x45\x87\xb5\xb6\x1b\x77\xf1\x89\x98\xd1\xb0\xc2\x2b\
            \x99\x12\x3f\x70\xe3\xf8\xa4\x68\xe1\x64\xd3\x78\x08\xae\x39\xfc",
    ),
    (
        (10, 7),
        b"\x61\xb8\x5d\xad\x49\x16\x8e\x23\x2e\x0f\x0a\x0b\xda\xbf\x62\x9e\
            \x1b\xe5\xf7\x2e\x87\x1a\xb3\xbe\x3d\x7b\x24\xdb\x2d\x90\x5e\xf6",
    ),
];

/// The SHA-256 of the commitment file, made from what a dealing to three of five trustees gave.
fn digest_of_file(rt: &impl Abort, alloc: Global, codes: (u32, u32)) -> [u8; 32] {
    let (params, plan) = scheme_of(rt, codes, (5, 3));
    let dealt = deal(alloc, &params, &plan, &count_up()).expect(rt, "a dealing");
    let file = commitments(alloc, &dealt, &plan).expect(rt, "commitments");
    digest_of(&file, &[])
}

#[test]
fn files_are_those_of_another_implementation(rt: HostRuntime) {
    for (codes, digest) in &FILES {
        holds(
            &rt,
            codes.1,
            digest_of_file(&rt, rt.alloc(), *codes) == **digest,
        );
    }
}
