//! Canonical copies, paths, and the marks of exclusive messages.

use crate::reading::{another_answer, refused};
use crate::same::same;
use cap_canon::{CanonFault, canonical, canonical_bytes, canonical_over};
use cap_frame::OneSegment;
use cap_run::{PathFault, Step, parse_path};
use cap_vet::{Demands, ExclusiveRefusal, Limits, vet, vet_exclusive};
use std::test::Fail;

// A list of two structs in three words, and its canonical copy.
const WORDS: [u64; 5] = [0x1f_0000_0001, 0x1_0000_0008, 5, 0, 0xff];

const COPY: [u64; 4] = [0x17_0000_0001, 0x1_0000_0008, 5, 0];

const COPY_BYTES: &[u8] =
    b"\x01\0\0\0\x17\0\0\0\x08\0\0\0\x01\0\0\0\x05\0\0\0\0\0\0\0\0\0\0\0\0\0\0\0";

#[test]
fn a_copy_in_words(rt: HostRuntime) -> Result<(), Fail> {
    let limits = Limits::new(100, 64).ok_or("limits")?;
    let message = OneSegment::new(&WORDS).ok_or("a message")?;
    let Ok(vetted) = vet(&message, limits) else {
        return another_answer();
    };
    match canonical(rt.alloc(), &vetted) {
        Ok(copy) => {
            same(&rt, copy.as_slice(), COPY.as_slice());
            Ok(())
        }
        Err(CanonFault::Memory) => refused(),
        _ => another_answer(),
    }
}

#[test]
fn a_copy_in_bytes(rt: HostRuntime) -> Result<(), Fail> {
    let limits = Limits::new(100, 64).ok_or("limits")?;
    let message = OneSegment::new(&WORDS).ok_or("a message")?;
    let Ok(vetted) = vet(&message, limits) else {
        return another_answer();
    };
    match canonical_bytes(rt.alloc(), &vetted) {
        Ok(copy) => {
            same(&rt, copy.as_slice(), COPY_BYTES);
            Ok(())
        }
        Err(CanonFault::Memory) => refused(),
        _ => another_answer(),
    }
}

#[test]
fn a_copy_over_a_buffer(rt: HostRuntime) -> Result<(), Fail> {
    let limits = Limits::new(100, 64).ok_or("limits")?;
    let message = OneSegment::new(&WORDS).ok_or("a message")?;
    let Ok(vetted) = vet(&message, limits) else {
        return another_answer();
    };
    let mut buffer = Vec::new(rt.alloc());
    match canonical_over(rt.alloc(), &vetted, &mut buffer) {
        Ok(count) => {
            same(&rt, buffer.get(..count), Some(COPY_BYTES));
            // The buffer is long enough for the same copy, so nothing is allocated.
            same(
                &rt,
                canonical_over(rt.alloc(), &vetted, &mut buffer),
                Ok(count),
            );
            same(&rt, buffer.as_slice(), COPY_BYTES);
            Ok(())
        }
        Err(CanonFault::Memory) => {
            assert!(rt; buffer.is_empty());
            refused()
        }
        _ => another_answer(),
    }
}

#[test]
fn marks_of_an_exclusive_message(rt: HostRuntime) -> Result<(), Fail> {
    let limits = Limits::new(100, 64).ok_or("limits")?;
    let message = OneSegment::new(&WORDS).ok_or("a message")?;
    match vet_exclusive(rt.alloc(), &message, limits, Demands::default()) {
        Ok(exclusive) => {
            same(&rt, exclusive.into_vetted().report().charge, 4);
            Ok(())
        }
        Err(ExclusiveRefusal::Memory) => refused(),
        _ => another_answer(),
    }
}

#[test]
fn a_path_of_five_steps(rt: HostRuntime) -> Result<(), Fail> {
    let steps = [
        Step::Ptr(1),
        Step::Item(2),
        Step::Ptr(3),
        Step::Item(4),
        Step::Ptr(65535),
    ];
    match parse_path(rt.alloc(), "/p1/i2/p3/i4/p65535") {
        Ok(path) => {
            assert!(rt; path.as_slice() == steps.as_slice());
            Ok(())
        }
        Err(PathFault::Memory) => refused(),
        _ => another_answer(),
    }
}
