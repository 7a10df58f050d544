//! A message that is read at a path.

use super::held::message;
use crate::same::same_of;
use cap_frame::{ByteView, SegmentTables, Segments, SizeLimit, front_of};
use cap_read::{read, read_bytes};
use cap_vet::{Kind, Limits, Place, Reason, Step};
use std::alloc::{AllocError, Global};
use std::process::Abort;
use std::test::Fail;

// The charge and the depth of a message, and the kind and the place of what is at a path. Or the word of a
// refusal, and why.
type Read = Result<(u64, u32, Option<Kind>, Option<Place>), (u32, Reason)>;

fn read_at<M: Segments>(message: &M, limits: Limits, path: &[Step]) -> Read {
    match read(message, limits, path) {
        Ok(reading) => {
            let report = reading.report;
            let kind = reading.view.map(|view| view.kind());
            Ok((report.charge, report.depth, kind, reading.place))
        }
        Err(refusal) => Err((refusal.word, refusal.reason)),
    }
}

// A far pointer to a landing pad of one word, and a struct of one data word after it.
const APART: &[&[u64]] = &[&[0x0200000001000000], &[0x0000000001000000, 42]];

// A word limit, a path, and what is read there.
static READ: [(u64, &[Step], Read); 3] = [
    (
        2,
        &[],
        Ok((
            2,
            1,
            Some(Kind::Struct {
                data_words: 1,
                pointers: 0,
            }),
            Some(Place {
                segment: 1,
                start: 1,
                words: 1,
            }),
        )),
    ),
    (2, &[Step::Ptr(0)], Ok((2, 1, None, None))),
    (1, &[], Err((0, Reason::WordLimit))),
];

#[test]
fn a_struct_in_another_segment(rt: HostRuntime) -> Result<(), Fail> {
    let held = message(rt.alloc(), APART)?;
    for (most, path, expected) in &READ {
        let limits = Limits::new(*most, 1).ok_or("no limits")?;
        same_of(&rt, most, read_at(&held, limits, *path), *expected);
    }
    Ok(())
}

// The words at a path, or the word of a refusal, and why.
type Expected = Result<&'static [u64], (u32, Reason)>;

// The words of a framed message, a word limit, and paths with what is there. Each word is written from its
// first byte on.
type Row = (&'static [u64], u64, &'static [(&'static [Step], Expected)]);

// The bytes of words.
fn encoded(alloc: Global, words: &[u64]) -> Result<Vec<u8>, AllocError> {
    let mut bytes = Vec::new(alloc);
    for word in words {
        bytes.extend_from_slice(&word.to_be_bytes())?;
    }
    Ok(bytes)
}

// The bytes at a path, or the word of a refusal, and why.
fn bytes_at<'b>(
    message: &ByteView<'b>,
    limits: Limits,
    path: &[Step],
) -> Result<&'b [u8], (u32, Reason)> {
    match read_bytes(message, limits, path) {
        Ok(bytes) => Ok(bytes),
        Err(refusal) => Err((refusal.word, refusal.reason)),
    }
}

// A path of a message leads to the bytes of these words, or has this refusal.
fn has_bytes(
    rt: &impl Abort,
    alloc: Global,
    message: &ByteView<'_>,
    limits: Limits,
    path: &[Step],
    expected: Expected,
) -> Result<(), Fail> {
    let bytes = encoded(alloc, expected.unwrap_or(&[]))?;
    let expected = expected.map(|_| bytes.as_slice());
    same_of(rt, &path, bytes_at(message, limits, path), expected);
    Ok(())
}

static PLACES: [Row; 8] = [
    // Null, and a struct without words at its own place.
    (&[0x0000000001000000, 0], 0, &[(&[], Ok(&[]))]),
    (
        &[0x0000000001000000, 0xfcffffff00000000],
        0,
        &[(&[], Ok(&[]))],
    ),
    // Three bits: the other bits of their word are shown as they are.
    (
        &[0x0000000002000000, 0x0100000019000000, 0xffffffffffffffff],
        1,
        &[(&[], Ok(&[0xffffffffffffffff]))],
    ),
    // A struct of one data word and two pointers: to one word, and to three bits.
    (
        &[
            0x0000000006000000,
            0x0000000001000200,
            0x0102030405060708,
            0x0400000001000000,
            0x0500000019000000,
            0xfffefdfcfbfaf9f8,
            0x8899aabbccddeeff,
        ],
        9,
        &[
            (
                &[],
                Ok(&[0x0102030405060708, 0x0400000001000000, 0x0500000019000000]),
            ),
            (&[Step::Ptr(0)], Ok(&[0xfffefdfcfbfaf9f8])),
            (&[Step::Ptr(1)], Ok(&[0x8899aabbccddeeff])),
            (&[Step::Ptr(2)], Ok(&[])),
        ],
    ),
    // Two structs of one word in a list with a tag and a surplus word.
    (
        &[
            0x0000000005000000,
            0x010000001f000000,
            0x0800000001000000,
            0x0500000000000000,
            0x0000000000000000,
            0xff00000000000000,
        ],
        9,
        &[
            (
                &[],
                Ok(&[
                    0x0800000001000000,
                    0x0500000000000000,
                    0x0000000000000000,
                    0xff00000000000000,
                ]),
            ),
            (&[Step::Item(0)], Ok(&[0x0500000000000000])),
            (&[Step::Item(1)], Ok(&[0x0000000000000000])),
        ],
    ),
    // A struct in the last of four segments, reached through a landing pad of two words in the second.
    (
        &[
            0x0300000001000000,
            0x0200000000000000,
            0x0200000000000000,
            0x0600000001000000,
            0x0a00000003000000,
            0x0000000001000000,
            0x0700000000000000,
            0x2a00000000000000,
        ],
        9,
        &[(&[], Ok(&[0x2a00000000000000]))],
    ),
    // A charge past the limit, at the second pointer.
    (
        &[
            0x0000000004000000,
            0x0000000001000100,
            0x0102030405060708,
            0x0000000001000000,
            0x2a00000000000000,
        ],
        2,
        &[(&[Step::Ptr(0)], Err((2, Reason::WordLimit)))],
    ),
    // A fault beside the path: the second pointer leads past the end of the segment.
    (
        &[
            0x0000000005000000,
            0x0000000001000200,
            0x0700000000000000,
            0x0400000001000000,
            0x0400000001000000,
            0x2a00000000000000,
        ],
        100,
        &[
            (&[], Err((3, Reason::OutOfSegment))),
            (&[Step::Ptr(0)], Err((3, Reason::OutOfSegment))),
            (&[Step::Ptr(1)], Err((3, Reason::OutOfSegment))),
        ],
    ),
];

#[test]
fn the_bytes_at_paths(rt: HostRuntime) -> Result<(), Fail> {
    let size = SizeLimit::new(9).ok_or("no limit")?;
    for (frame, most, places) in &PLACES {
        let bytes = encoded(rt.alloc(), *frame)?;
        let Ok(Some(framed)) = front_of(&bytes, size) else {
            return Err("no message".into());
        };
        let mut tables = SegmentTables::new();
        let message = framed.view(&mut tables);
        let limits = Limits::new(*most, 10).ok_or("no limits")?;
        for (path, expected) in *places {
            has_bytes(&rt, rt.alloc(), &message, limits, *path, *expected)?;
        }
    }
    Ok(())
}
