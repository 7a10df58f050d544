//! The answers of the calls about canonical copies, which have to agree, for messages whose copies are known from
//! outside. `tests/shared/messages.py` has many more, by the built program, and `test_memory` has copies as bytes.

use super::held::{message, words};
use crate::same::{same, same_of};
use cap_canon::{
    CanonFault, canonical, canonical_bytes, canonical_len, canonical_over, check_with, is_canonical,
};
use cap_frame::{OneSegment, Segments};
use cap_vet::{Demands, Limits, Vetted, vet};
use std::alloc::Global;
use std::process::Abort;
use std::test::Fail;

// Whether a message is canonical, by the call that vets it too.
fn is_checked<M: Segments>(message: &M, limits: Limits) -> Result<bool, Fail> {
    match check_with(message, limits, Demands::default()) {
        Ok((_, canonical)) => Ok(canonical),
        Err(_) => Err("refused".into()),
    }
}

// The copy of a message has these words.
fn has_copy<M: Segments>(
    rt: &impl Abort,
    alloc: Global,
    message: &M,
    expected: &[u64],
    is_own: bool,
) -> Result<(), Fail> {
    let limits = Limits::new(100, 10).ok_or("no limits")?;
    let Ok(vetted) = vet(message, limits) else {
        return Err("refused".into());
    };
    let checked = (is_canonical(&vetted), is_checked(message, limits)?);
    same_of(rt, &expected, checked, (is_own, is_own));
    same(rt, canonical_len(&vetted), Ok(expected.len() as u64));
    match canonical(alloc, &vetted) {
        Ok(made) => same(rt, made.as_slice(), expected),
        Err(_) => return Err("no copy".into()),
    }
    Ok(())
}

// The words of each segment of a message, and its copy.
static COPIES: [(&[&[u64]], &[u64]); 3] = [
    // A struct of one word, through landing pads of two words.
    (
        &[
            &[0x0600000001000000],
            &[0x0200000002000000, 0x0000000001000000],
            &[42],
        ],
        &[0x0000000001000000, 42],
    ),
    // Two pointers to one struct.
    (
        &[&[
            0x0000000000000200,
            0x0400000001000000,
            0x0000000001000000,
            7,
        ]],
        &[
            0x0000000000000200,
            0x0400000001000000,
            0x0400000001000000,
            7,
            7,
        ],
    ),
    // Two structs of one word in three words.
    (
        &[&[0x010000001f000000, 0x0800000001000000, 5, 0, 255]],
        &[0x0100000017000000, 0x0800000001000000, 5, 0],
    ),
];

#[test]
fn copies_of_known_messages(rt: HostRuntime) -> Result<(), Fail> {
    for (encoded, copied) in &COPIES {
        let copy = words(rt.alloc(), *copied)?;
        has_copy(
            &rt,
            rt.alloc(),
            &message(rt.alloc(), *encoded)?,
            &copy,
            false,
        )?;
        let segment = OneSegment::new(&copy).ok_or("no message")?;
        has_copy(&rt, rt.alloc(), &segment, &copy, true)?;
    }
    Ok(())
}

// Each call names the first capability of a message, and leaves a buffer as it is.
fn has_none<M: Segments>(
    rt: &impl Abort,
    alloc: Global,
    vetted: &Vetted<'_, M>,
    fault: CanonFault,
) {
    same(rt, is_canonical(vetted), false);
    same(rt, canonical_len(vetted), Err(fault));
    assert!(rt; canonical(alloc, vetted).is_err_and(|found| found == fault));
    assert!(rt; canonical_bytes(alloc, vetted).is_err_and(|found| found == fault));
    let mut buffer = Vec::new(alloc);
    same(rt, canonical_over(alloc, vetted, &mut buffer), Err(fault));
    same(rt, buffer.len(), 0);
}

#[test]
fn a_message_without_a_copy(rt: HostRuntime) -> Result<(), Fail> {
    let segment = words(rt.alloc(), &[0x0000000000000200, 0, 0x0300000005000000])?;
    let alone = OneSegment::new(&segment).ok_or("no message")?;
    let limits = Limits::new(100, 10).ok_or("no limits")?;
    same(&rt, is_checked(&alone, limits)?, false);
    let Ok(vetted) = vet(&alone, limits) else {
        return Err("refused".into());
    };
    let fault = CanonFault::HasCapability {
        segment: 0,
        word: 2,
    };
    has_none(&rt, rt.alloc(), &vetted, fault);
    Ok(())
}
