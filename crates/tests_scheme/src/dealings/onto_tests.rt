//! Tests of dealings onto a disk: the reference is the file of a dealing, and each call of the disk fails in turn.

ghost use Rattle.std.specs.Prelude.{◌≡◌, [], IsTrue};

use crate::dealings::{count_up, dealt, scheme_of};
use crate::values::holds;
use dealer::{DealFault, OntoFault, deal_onto, open_reference};
use disk_trait::{Disk, MemDisk};
use std::alloc::Global;
use std::process::Abort;
use std::thread::Threads;
use stream_io::Silent;

/// How long the reference of typecodes 5 and 3 is for coalitions of three: a head, and 32 leaves.
const LENGTH: usize = 32 + 32 * 34_432;

/// The answer of a dealing of these typecodes to coalitions of three of five trustees onto an empty disk.
fn answer_onto<R: Threads + Sync + Abort, D: Disk>(
    rt: &R,
    alloc: Global,
    codes: (u32, u32),
    disk: &mut D,
) -> Result<(), OntoFault>
    requires { IsTrue (D.told disk.old) → D.reads disk.old ≡ [] }
{
    let (params, plan) = scheme_of(rt, codes, (5, 3));
    match deal_onto(rt, &mut Silent, alloc, &params, &plan, &count_up(), disk) {
        Ok(_) => Ok(()),
        Err(fault) => Err(fault),
    }
}

/// Whether a reference that is dealt onto a disk of its length, and opened, is that of a dealing.
fn is_file_of_dealing<R: Threads + Sync + Abort>(rt: &R, alloc: Global, codes: (u32, u32)) -> bool {
    let dealt = dealt(rt, alloc, codes, (5, 3));
    assert!(rt; 0 < dealt.shares.len());
    let files = dealt.into_files(alloc).expect(rt, "memory");
    let mut disk = MemDisk::new(alloc, files.reference.len(), usize::MAX).expect(rt, "memory");
    let dealt = answer_onto(rt, alloc, codes, &mut disk).is_ok();
    let opened = open_reference(&mut disk).is_ok();
    dealt & opened & (disk.bytes() == &files.reference[..])
}

#[test]
fn a_reference_on_a_disk_is_the_file_of_a_dealing(rt: HostRuntime) {
    assert!(rt; is_file_of_dealing(&rt, rt.alloc(), (5, 3)));
    assert!(rt; is_file_of_dealing(&rt, rt.alloc(), (11, 5)));
}

/// Whether a dealing onto a disk with this room, whose calls fail from this one on, fails and leaves no reference.
fn fails_at<R: Threads + Sync + Abort>(rt: &R, alloc: Global, room: usize, call: u64) -> bool {
    let mut disk = MemDisk::new(alloc, room, usize::MAX).expect(rt, "memory");
    disk.stop_at(call);
    let answer = answer_onto(rt, alloc, (5, 3), &mut disk);
    (answer == Err(OntoFault::Device)) & (disk.bytes().first() != Some(&b'T'))
}

#[test]
fn a_call_of_the_disk_that_fails_is_named(rt: HostRuntime) {
    for call in 0..5 {
        holds(&rt, call as u32, fails_at(&rt, rt.alloc(), LENGTH, call));
    }
    assert!(rt; !fails_at(&rt, rt.alloc(), LENGTH, 5));
    assert!(rt; fails_at(&rt, rt.alloc(), LENGTH - 1, 5));
}

/// Whether typecodes that are not dealt to are refused before the disk is called.
fn refuses_height<R: Threads + Sync + Abort>(rt: &R, alloc: Global) -> bool {
    let mut disk = MemDisk::new(alloc, 32, usize::MAX).expect(rt, "memory");
    disk.stop_at(0);
    let answer = answer_onto(rt, alloc, (9, 3), &mut disk);
    answer == Err(OntoFault::Deal(DealFault::TooHigh { h: 25 }))
}

#[test]
fn a_refusal_comes_before_the_disk_is_called(rt: HostRuntime) {
    assert!(rt; refuses_height(&rt, rt.alloc()));
}
