//! Verdicts of messages that are known from outside. `tests/shared/messages.py` and `tests/shared/strict.py` have many
//! more, by the built program and from C.

mod charges;
mod earlier;
mod exclusives;
mod nodes;
mod paths;

use super::held::{cloned, message, words};
use crate::same::{same, same_of};
use cap_frame::{OneSegment, Segments};
use cap_vet::{
    Demands, Kind, Lax, Limits, Reason, Refusal, Report, StrictRefusal, Vetted, marks_for, vet,
    vet_exclusive, vet_strict, vet_with,
};
use std::process::Abort;
use std::test::Fail;

// The words of each segment of a message, and why `vet_strict` doesn't accept it. Else its report.
type Row = (&'static [&'static [u64]], Result<Report, StrictRefusal>);

static ROWS: [Row; 5] = [
    // Two capabilities, the deeper one before the later one.
    (
        &[&[
            0x0000000000000200,
            0x0400000000000100,
            0x0300000001000000,
            0x0300000002000000,
        ]],
        Ok(Report {
            charge: 3,
            depth: 2,
            pointers: 4,
            caps: 2,
            first_cap: Some((0, 3)),
        }),
    ),
    // A struct that is reached through a landing pad of two words.
    (
        &[
            &[0x0600000001000000],
            &[0x0200000002000000, 0x0000000001000000],
            &[42],
        ],
        Ok(Report {
            charge: 3,
            depth: 1,
            pointers: 1,
            caps: 0,
            first_cap: None,
        }),
    ),
    // A pad of zeros, and a message without a root.
    (
        &[&[0x0a00000000000000, 0]],
        Err(StrictRefusal::Pointer {
            what: Lax::NullPad,
            segment: 0,
            word: 0,
            pointers: 1,
        }),
    ),
    (
        &[&[], &[0]],
        Err(StrictRefusal::Refused(Refusal {
            segment: 0,
            word: 0,
            reason: Reason::NoRoot,
            pointers: 0,
        })),
    ),
    // Cycles: of one struct, which is past the limit of levels.
    (
        &[&[0xfcffffff00000100]],
        Err(StrictRefusal::Refused(Refusal {
            segment: 0,
            word: 0,
            reason: Reason::DepthLimit,
            pointers: 65,
        })),
    ),
];

// The report of a strict message, or why it is none. The other calls answer the same.
fn strict_report<M: Segments>(
    rt: &impl Abort,
    message: &M,
    limits: Limits,
) -> Result<Report, StrictRefusal> {
    let strict = Demands {
        strict: true,
        unamplified: false,
    };
    let demanded = vet_with(message, limits, strict).map(|vetted| vetted.report());
    let answer = vet_strict(message, limits).map(|strict| strict.into_vetted().report());
    same(rt, demanded, answer);
    match (vet(message, limits), answer) {
        (Ok(vetted), Ok(report)) => same(rt, vetted.report(), report),
        (Err(refusal), _) => same(rt, answer, Err(StrictRefusal::Refused(refusal))),
        _ => {}
    }
    answer
}

#[test]
fn verdicts_of_known_messages(rt: HostRuntime) -> Result<(), Fail> {
    let limits = Limits::new(8388608, 64).ok_or("no limits")?;
    for (encoded, expected) in &ROWS {
        let several = message(rt.alloc(), *encoded)?;
        same_of(
            &rt,
            encoded,
            strict_report(&rt, &several, limits),
            *expected,
        );
    }
    Ok(())
}

// A message over borrowed words.
#[test]
fn the_verdict_of_a_segment(rt: HostRuntime) -> Result<(), Fail> {
    let (encoded, expected) = &ROWS[0];
    let segment = words(rt.alloc(), encoded[0])?;
    let alone = OneSegment::new(&segment).ok_or("no message")?;
    let limits = Limits::new(8388608, 64).ok_or("no limits")?;
    same(&rt, strict_report(&rt, &alone, limits), *expected);
    Ok(())
}

static BOUNDS: [(u64, u32, Option<(u64, u32)>); 6] = [
    (0, 0, Some((0, 0))),
    (268435456, 256, Some((268435456, 256))),
    (268435457, 256, None),
    (268435456, 257, None),
    (18446744073709551615, 0, None),
    (0, 4294967295, None),
];

#[test]
fn the_bounds_of_limits(rt: HostRuntime) {
    for (most_words, most_depth, expected) in &BOUNDS {
        let limits = Limits::new(*most_words, *most_depth);
        same(
            &rt,
            limits.map(|limits| (limits.words(), limits.depth())),
            *expected,
        );
    }
}

// How many words a message has, and how many numbers its marks take.
static MARKS: [(u64, usize); 5] = [(0, 1), (63, 1), (64, 2), (127, 2), (268435456, 4194305)];

#[test]
fn numbers_that_marks_take(rt: HostRuntime) {
    for (words, numbers) in &MARKS {
        same_of(&rt, words, marks_for(*words), *numbers);
    }
}

// An accepted message.
fn accepted<M: Segments>(message: &M, limits: Limits) -> Result<Vetted<'_, M>, Fail> {
    match vet(message, limits) {
        Ok(vetted) => Ok(vetted),
        Err(_) => Err("refused".into()),
    }
}

static NULL: [u64; 1] = [0];

#[test]
fn a_verdict_is_copied(rt: HostRuntime) -> Result<(), Fail> {
    let message = OneSegment::new(&NULL).ok_or("no message")?;
    let vetted = accepted(&message, Limits::new(0, 0).ok_or("no limits")?)?;
    same(&rt, cloned(&vetted)?.report(), vetted.report());
    same(&rt, vetted.message().count(), 1);
    Ok(())
}

#[test]
fn a_node_is_copied(rt: HostRuntime) -> Result<(), Fail> {
    let message = OneSegment::new(&NULL).ok_or("no message")?;
    let vetted = accepted(&message, Limits::new(0, 0).ok_or("no limits")?)?;
    let view = cloned(&vetted.root())?.view();
    same(&rt, cloned(&view)?.kind(), Kind::Null);
    Ok(())
}

#[test]
fn a_strict_verdict_is_copied(rt: HostRuntime) -> Result<(), Fail> {
    let message = OneSegment::new(&NULL).ok_or("no message")?;
    let limits = Limits::new(0, 0).ok_or("no limits")?;
    match vet_strict(&message, limits) {
        Ok(strict) => same(&rt, cloned(&strict)?.into_vetted().report().pointers, 1),
        Err(_) => return Err("not strict".into()),
    }
    Ok(())
}

#[test]
fn an_exclusive_verdict_is_copied(rt: HostRuntime) -> Result<(), Fail> {
    let message = OneSegment::new(&NULL).ok_or("no message")?;
    let limits = Limits::new(0, 0).ok_or("no limits")?;
    match vet_exclusive(rt.alloc(), &message, limits, Demands::default()) {
        Ok(exclusive) => same(&rt, cloned(&exclusive)?.into_vetted().report().pointers, 1),
        Err(_) => return Err("not exclusive".into()),
    }
    Ok(())
}
