//! The paths of pointers, by the numbers that verdicts give them.

use crate::held::message;
use crate::same::{same, same_of};
use cap_frame::Segments;
use cap_trace::{last_cycle, path_of_pointer};
use cap_vet::{Limits, Step, StrictRefusal, vet_strict};
use std::process::Abort;
use std::test::Fail;

// The words of each segment of a message, and the path to the pointer that `vet_strict` names.
type Row = (&'static [&'static [u64]], &'static [Step]);

static ROWS: [Row; 5] = [
    // The root is past the end of its segment.
    (&[&[0x0000000001000000]], &[]),
    // The second pointer of a struct, after a null one.
    (
        &[&[0x0000000000000200, 0, 0x0000000001000000]],
        &[Step::Ptr(1)],
    ),
    // The third element of a list of pointers, after a struct without words.
    (
        &[&[
            0x010000001e000000,
            0,
            0xfcffffff00000000,
            0x0000000001000000,
        ]],
        &[Step::Item(2)],
    ),
    // The second pointer of the second of two structs, each of a word of data.
    (
        &[&[
            0x0100000037000000,
            0x0800000001000200,
            5,
            0,
            0,
            6,
            0xfcffffff00000000,
            0x0000000001000000,
        ]],
        &[Step::Item(1), Step::Ptr(1)],
    ),
    // A pad of zeros, below a list of structs.
    (
        &[&[
            0x010000000f000000,
            0x0400000000000100,
            0x1a00000000000000,
            0,
        ]],
        &[Step::Item(0), Step::Ptr(0)],
    ),
];

// How many pointers were looked at up to the one that is named.
fn pointers_of<M: Segments>(message: &M, limits: Limits) -> Result<u64, Fail> {
    match vet_strict(message, limits) {
        Err(StrictRefusal::Refused(refusal)) => Ok(refusal.pointers),
        Err(StrictRefusal::Pointer { pointers, .. }) => Ok(pointers),
        Err(StrictRefusal::ManySegments) | Ok(_) => Err("no pointer is named".into()),
    }
}

#[test]
fn paths_of_refusals(rt: HostRuntime) -> Result<(), Fail> {
    let limits = Limits::new(100, 10).ok_or("no limits")?;
    for (encoded, path) in &ROWS {
        let message = message(rt.alloc(), *encoded)?;
        let number = pointers_of(&message, limits)?;
        let mut steps = [Step::Item(9); 4];
        let count = path_of_pointer(&message, limits, number, &mut steps);
        same_of(&rt, encoded, count, Some(path.len()));
        assert!(&rt; steps.starts_with(*path));
        same(&rt, steps.get(path.len()).copied(), Some(Step::Item(9)));
    }
    Ok(())
}

// A struct whose pointer leads to the struct again: the path has one step for each level.
static CYCLE: [&[u64]; 1] = [&[0x0000000000000100, 0xfcffffff00000100]];

#[test]
fn the_longest_path(rt: HostRuntime) -> Result<(), Fail> {
    let limits = Limits::new(1000, 256).ok_or("no limits")?;
    let cycle = message(rt.alloc(), &CYCLE)?;
    let number = pointers_of(&cycle, limits)?;
    let mut steps = [Step::Item(9); 256];
    let count = path_of_pointer(&cycle, limits, number, &mut steps);
    same(&rt, count, Some(256));
    assert!(&rt; steps.iter().all(|step| *step == Step::Ptr(0)));
    let none = path_of_pointer(&cycle, limits, number.saturating_add(1), &mut steps);
    same(&rt, none, None);
    Ok(())
}

#[test]
fn a_path_that_does_not_fit(rt: HostRuntime) -> Result<(), Fail> {
    let limits = Limits::new(1000, 256).ok_or("no limits")?;
    let cycle = message(rt.alloc(), &CYCLE)?;
    let number = pointers_of(&cycle, limits)?;
    let mut steps = [Step::Item(9); 255];
    let count = path_of_pointer(&cycle, limits, number, &mut steps);
    same(&rt, count, Some(256));
    assert!(&rt; steps.iter().all(|step| *step == Step::Item(9)));
    Ok(())
}

// The words of each segment of a message, and the last cycle of the path to the refused pointer: its
// word in segment 0, and both levels.
type Round = (&'static [&'static [u64]], Option<(u32, u32, u32)>);

static ROUNDS: [Round; 4] = [
    // A struct whose pointer leads to the struct again. The level past the limit is 11.
    (
        &[&[0x0000000000000100, 0xfcffffff00000100]],
        Some((1, 10, 11)),
    ),
    // A struct and one below it, which leads to the first.
    (
        &[&[0x0000000000000100, 0x0000000000000100, 0xf8ffffff00000100]],
        Some((2, 9, 11)),
    ),
    // The same, but the last struct has another pointer first, which leads out of the path.
    (
        &[&[
            0x0000000000000100,
            0x0000000000000200,
            0x0400000001000000,
            0xf4ffffff00000100,
            0x0000000000000000,
        ]],
        Some((1, 8, 10)),
    ),
    // A struct with a pointer out of its segment.
    (&[&[0x0000000000000100, 0x0000000001000000]], None),
];

#[test]
fn cycles_of_refusals(rt: HostRuntime) -> Result<(), Fail> {
    let limits = Limits::new(100, 10).ok_or("no limits")?;
    for (encoded, expected) in &ROUNDS {
        let message = message(rt.alloc(), *encoded)?;
        let number = pointers_of(&message, limits)?;
        let found = last_cycle(&message, limits, number).map(|cycle| (
            cycle.word,
            cycle.from_level,
            cycle.to_level,
        ));
        same(&rt, found, *expected);
        same(&rt, last_cycle(&message, limits, 1), None);
        same(&rt, last_cycle(&message, limits, 1000), None);
    }
    Ok(())
}
