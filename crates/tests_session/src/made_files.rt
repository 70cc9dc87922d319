//! Files that are made up.

use std::alloc::Global;
use std::process::Abort;

/// Writes these parts over a file, each at its place.
pub fn put(rt: &impl Abort, file: &mut Vec<u8>, parts: &[(usize, &[u8])]) {
    for (place, part) in parts {
        assert!(rt; *place <= file.len() && part.len() <= file.len() - *place);
        file[*place..*place + part.len()].copy_from_slice(*part);
    }
}

/// A file of `length` bytes, which are zeros except for these parts.
pub fn file_of(rt: &impl Abort, alloc: Global, length: usize, parts: &[(usize, &[u8])]) -> Vec<u8> {
    let mut bytes = vec![in alloc; 0; length].expect(rt, "memory");
    put(rt, &mut bytes, parts);
    bytes
}
