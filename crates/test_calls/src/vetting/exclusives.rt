//! Whether a message uses a word twice, of messages that are known from outside. Each is in vectors, and in one
//! buffer. `tests/shared/tables.py` has more, by the built program.

use crate::held::{in_bytes, message};
use crate::same::same_of;
use cap_frame::Segments;
use cap_vet::{
    Demands, ExclusiveRefusal, Limits, Reason, Refusal, Report, StrictRefusal, vet, vet_exclusive,
};
use std::alloc::Global;
use std::test::Fail;

// The words of each segment of a message. Its charge, its depth and how many pointers it has, or why `vet` refuses
// it. The word of segment 0 whose pointer overlaps, if one does, and its number.
type Row = (
    &'static [&'static [u64]],
    Result<(u64, u32, u64), Refusal>,
    Option<(u32, u64)>,
);

static ROWS: [Row; 14] = [
    // Two pointers to one struct, of which the second overlaps.
    (
        &[&[
            0x0000000000000200,
            0x0400000001000000,
            0x0000000001000000,
            0x0700000000000000,
        ]],
        Ok((4, 2, 3)),
        Some((2, 3)),
    ),
    // A struct on the root word, and one on its own landing pad.
    (&[&[0xfcffffff01000000]], Ok((1, 1, 1)), Some((0, 1))),
    (
        &[&[0x0a00000000000000, 0xfcffffff01000000]],
        Ok((2, 1, 1)),
        Some((0, 1)),
    ),
    // A struct without words, inside another.
    (
        &[&[0x0000000001000100, 0x2a00000000000000, 0xf8ffffff00000000]],
        Ok((2, 2, 2)),
        None,
    ),
    // Null, a struct without words, and one of a word.
    (&[&[0]], Ok((0, 0, 1)), None),
    (&[&[0xfcffffff00000000]], Ok((0, 1, 1)), None),
    (
        &[&[0x0000000001000000, 0x2a00000000000000]],
        Ok((1, 1, 1)),
        None,
    ),
    // Two structs in three words, and two pointers.
    (
        &[&[
            0x010000001f000000,
            0x0800000001000000,
            0x0500000000000000,
            0,
            0xff00000000000000,
        ]],
        Ok((4, 2, 1)),
        None,
    ),
    (
        &[&[
            0x0100000016000000,
            0,
            0x0000000001000000,
            0x0900000000000000,
        ]],
        Ok((3, 2, 3)),
        None,
    ),
    // Landing pads of one word, and of two.
    (
        &[
            &[0x0200000001000000],
            &[0x0000000001000000, 0x2a00000000000000],
        ],
        Ok((2, 1, 1)),
        None,
    ),
    (
        &[&[0x0a00000000000000, 0x0000000001000000, 0x2a00000000000000]],
        Ok((2, 1, 1)),
        None,
    ),
    (
        &[&[0x0600000001000000], &[0x0200000002000000, 0], &[]],
        Ok((2, 1, 1)),
        None,
    ),
    (
        &[
            &[0x0600000001000000],
            &[0x0200000002000000, 0x0000000001000000],
            &[0x2a00000000000000],
        ],
        Ok((3, 1, 1)),
        None,
    ),
    // A struct that points at itself.
    (
        &[&[0xfcffffff00000100]],
        Err(Refusal {
            segment: 0,
            word: 0,
            reason: Reason::DepthLimit,
            pointers: 65,
        }),
        None,
    ),
];

// What `vet` answers, and what `vet_exclusive` answers.
type Answers = (Result<Report, Refusal>, Result<Report, ExclusiveRefusal>);

fn answers<M: Segments>(alloc: Global, message: &M, limits: Limits) -> Answers {
    let exclusive = vet_exclusive(alloc, message, limits, Demands::default());
    (
        vet(message, limits).map(|vetted| vetted.report()),
        exclusive.map(|exclusive| exclusive.into_vetted().report()),
    )
}

// The answers of a row.
fn expected(verdict: Result<(u64, u32, u64), Refusal>, overlap: Option<(u32, u64)>) -> Answers {
    let plain = verdict.map(|(charge, depth, pointers)| Report {
        charge,
        depth,
        pointers,
        caps: 0,
        first_cap: None,
    });
    let exclusive = match overlap {
        Some((word, pointers)) => Err(ExclusiveRefusal::Overlap {
            segment: 0,
            word,
            pointers,
        }),
        None => plain.map_err(|refusal| ExclusiveRefusal::Refused(StrictRefusal::Refused(refusal))),
    };
    (plain, exclusive)
}

#[test]
fn words_that_are_used_twice(rt: HostRuntime) -> Result<(), Fail> {
    let limits = Limits::new(8388608, 64).ok_or("no limits")?;
    for (encoded, verdict, overlap) in &ROWS {
        let several = message(rt.alloc(), *encoded)?;
        let given = (
            answers(rt.alloc(), &several, limits),
            answers(rt.alloc(), &in_bytes(rt.alloc(), &several)?.view(), limits),
        );
        let wanted = expected(*verdict, *overlap);
        same_of(&rt, encoded, given, (wanted, wanted));
    }
    Ok(())
}
