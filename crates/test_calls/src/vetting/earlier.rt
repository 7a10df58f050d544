//! The first pointer that uses a word which an overlap's pointer uses too.

use crate::held::message;
use crate::same::same_of;
use cap_trace::{EarlierPointer, NamedPath, earlier_pointer};
use cap_vet::{Limits, Step};
use std::process::Abort;
use std::test::Fail;

// The words of each segment of a message, the number of a pointer, and the earlier pointer: its segment,
// its word, its number, and the path to it.
type Row = (
    &'static [&'static [u64]],
    u64,
    Option<(u32, u32, u64, &'static [Step])>,
);

static ROWS: [Row; 6] = [
    // Two pointers of a struct lead to one struct.
    (
        &[&[
            0x0000000000000200,
            0x0400000001000000,
            0x0000000001000000,
            7,
        ]],
        3,
        Some((0, 1, 2, &[Step::Ptr(0)])),
    ),
    // Nothing is before the first of them that uses the word.
    (
        &[&[
            0x0000000000000200,
            0x0400000001000000,
            0x0000000001000000,
            7,
        ]],
        2,
        None,
    ),
    // The last of three words, the second of which is null, leads to the object of the first.
    (
        &[&[
            0x010000001e000000,
            0x0800000002000000,
            0,
            0x0400000001000000,
            5,
            6,
        ]],
        4,
        Some((0, 1, 2, &[Step::Item(0)])),
    ),
    // A struct contains the root word, which no pointer uses.
    (&[&[0x0000000000000100, 0xf8ffffff01000000]], 2, None),
    // Two far pointers share a landing pad.
    (
        &[
            &[0x0000000000000200, 0x0200000001000000, 0x0200000001000000],
            &[0],
        ],
        3,
        Some((0, 1, 2, &[Step::Ptr(0)])),
    ),
    // The object of the root contains the landing pad of its pointer.
    (
        &[&[0x0000000001000100, 0xfcffffff00000000, 0x0a00000000000000]],
        2,
        Some((0, 0, 1, &[])),
    ),
];

#[test]
fn earlier_pointers(rt: HostRuntime) -> Result<(), Fail> {
    let limits = Limits::new(100, 10).ok_or("no limits")?;
    let mut path = NamedPath::new();
    for (encoded, number, expected) in &ROWS {
        let message = message(rt.alloc(), *encoded)?;
        let named = expected.map(|(segment, word, pointers, _)| EarlierPointer {
            segment,
            word,
            pointers,
        });
        same_of(
            &rt,
            encoded,
            earlier_pointer(&message, limits, *number),
            named,
        );
        same_of(
            &rt,
            encoded,
            path.find_earlier(&message, limits, *number),
            named,
        );
        same_of(
            &rt,
            encoded,
            path.steps(),
            expected.map(|(_, _, _, steps)| steps),
        );
    }
    Ok(())
}

// A struct whose pointer leads to the struct again. Each level uses the words of the level before.
static CYCLE: [&[u64]; 1] = [&[0x0000000000000100, 0xfcffffff00000100]];

#[test]
fn none_past_the_depth_limit(rt: HostRuntime) -> Result<(), Fail> {
    let limits = Limits::new(100, 256).ok_or("no limits")?;
    let cycle = message(rt.alloc(), &CYCLE)?;
    let named = EarlierPointer {
        segment: 0,
        word: 0,
        pointers: 1,
    };
    same_of(
        &rt,
        &CYCLE,
        earlier_pointer(&cycle, limits, 257),
        Some(named),
    );
    same_of(&rt, &CYCLE, earlier_pointer(&cycle, limits, 258), None);
    Ok(())
}
