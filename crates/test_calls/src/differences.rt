//! The first difference of a message from its canonical copy, of messages that are known from outside.
//! `tests/calls/differences.py` compares the same reasons with copies, for many more.

use super::held::message;
use crate::same::same_of;
use cap_canon::is_canonical;
use cap_difference::{Difference, DifferenceReason, first_difference};
use cap_vet::{Limits, vet};
use std::test::Fail;

// The words of each segment of a message. The reason of its first difference, the word of segment 0, the
// number, and the words of a copy up to there, if it isn't canonical.
type Row = (
    &'static [&'static [u64]],
    Option<(DifferenceReason, u32, u64, u64)>,
);

static ROWS: [Row; 18] = [
    // Null, and a struct of a word.
    (&[&[0]], None),
    (&[&[0x0000000001000000, 0x2a00000000000000]], None),
    // Two segments.
    (&[&[0], &[0]], Some((DifferenceReason::Segments, 0, 0, 1))),
    // A landing pad of one word.
    (
        &[&[0x0a00000000000000, 0x0000000001000000, 0x0700000000000000]],
        Some((DifferenceReason::Far, 0, 1, 1)),
    ),
    // A capability, after a struct, and after one whose last data word is zero.
    (
        &[&[0x0000000001000100, 0x0700000000000000, 0x0300000007000000]],
        Some((DifferenceReason::Capability, 2, 2, 3)),
    ),
    (
        &[&[0x0000000001000100, 0, 0x0300000007000000]],
        Some((DifferenceReason::DataZero, 0, 1, 1)),
    ),
    // A struct without words, by another offset than -1.
    (
        &[&[0x0400000000000000, 0]],
        Some((DifferenceReason::EmptyStruct, 0, 1, 1)),
    ),
    // Two pointers to one struct, and a struct after a gap.
    (
        &[&[
            0x0000000000000200,
            0x0400000001000000,
            0x0000000001000000,
            0x0700000000000000,
        ]],
        Some((DifferenceReason::Place, 2, 3, 4)),
    ),
    (
        &[&[0x0400000001000000, 0, 0x0700000000000000]],
        Some((DifferenceReason::Place, 0, 1, 1)),
    ),
    // A list of one bit, with a second one.
    (
        &[&[0x0100000009000000, 0x0300000000000000]],
        Some((DifferenceReason::Bits, 0, 1, 1)),
    ),
    // Lists of structs: without elements, and with a word too many.
    (
        &[&[0x0100000007000000, 0x0000000001000000]],
        Some((DifferenceReason::EmptyList, 0, 1, 1)),
    ),
    (
        &[&[
            0x0100000017000000,
            0x0400000001000000,
            0x0500000000000000,
            0,
        ]],
        Some((DifferenceReason::Surplus, 0, 1, 1)),
    ),
    // Last data words that are zero, in a struct and in both structs of a list.
    (
        &[&[0x0000000002000000, 0x0700000000000000, 0]],
        Some((DifferenceReason::DataZero, 0, 1, 1)),
    ),
    (
        &[&[0x0100000017000000, 0x0800000001000000, 0, 0]],
        Some((DifferenceReason::DataZero, 0, 1, 1)),
    ),
    // Last pointers that are null: in a struct, in one by a landing pad of zero, and in both structs of a list.
    (
        &[&[0x0000000001000100, 0x0700000000000000, 0]],
        Some((DifferenceReason::PointerNull, 0, 1, 1)),
    ),
    (
        &[&[
            0x0000000000000200,
            0xfcffffff00000000,
            0x1a00000000000000,
            0,
        ]],
        Some((DifferenceReason::PointerNull, 0, 1, 1)),
    ),
    (
        &[&[0x0100000017000000, 0x0800000000000100, 0, 0]],
        Some((DifferenceReason::PointerNull, 0, 1, 1)),
    ),
    // One word after a null root.
    (&[&[0, 0]], Some((DifferenceReason::Trailing, 1, 1, 1))),
];

#[test]
fn differences_of_known_messages(rt: HostRuntime) -> Result<(), Fail> {
    let limits = Limits::new(100, 10).ok_or("no limits")?;
    for (encoded, expected) in &ROWS {
        let message = message(rt.alloc(), *encoded)?;
        let Ok(vetted) = vet(&message, limits) else {
            return Err("refused".into());
        };
        let expected = match *expected {
            Some((reason, word, pointers, end)) => Some(Difference {
                segment: 0,
                word,
                pointers,
                reason,
                end,
            }),
            None => None,
        };
        same_of(&rt, encoded, first_difference(&vetted), expected);
        same_of(&rt, encoded, is_canonical(&vetted), expected.is_none());
    }
    Ok(())
}
