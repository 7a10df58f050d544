//! Pointer words that are known from outside, and what they lead to. `tests/shared/messages.py` has many more, by
//! verdicts and nodes of the built program.

use super::held::message;
use crate::same::{same, same_of};
use cap_frame::Segments;
use cap_ptr::{Followed, Pointer, Reason, Shape, Target, follow};
use std::process::Abort;
use std::test::Fail;

static FORMS: [(u64, Pointer); 10] = [
    (0x0000000000000000, Pointer::Null),
    (
        0xfcffffff00000000,
        Pointer::Struct {
            offset: -1,
            data_words: 0,
            pointers: 0,
        },
    ),
    (
        0x00000080ffffffff,
        Pointer::Struct {
            offset: -536870912,
            data_words: 65535,
            pointers: 65535,
        },
    ),
    (
        0xfcffff7f01000200,
        Pointer::Struct {
            offset: 536870911,
            data_words: 1,
            pointers: 2,
        },
    ),
    (
        0x01000080f8ffffff,
        Pointer::List {
            offset: -536870912,
            code: 0,
            size: 536870911,
        },
    ),
    (
        0x0100000019000000,
        Pointer::List {
            offset: 0,
            code: 1,
            size: 3,
        },
    ),
    (
        0x0a00000003000000,
        Pointer::Far {
            two: false,
            pad: 1,
            segment: 3,
        },
    ),
    (
        0xfeffffffffffffff,
        Pointer::Far {
            two: true,
            pad: 536870911,
            segment: 4294967295,
        },
    ),
    (0x0300000005000000, Pointer::Cap { index: 5 }),
    (
        0x0700000005000000,
        Pointer::Reserved {
            word: 0x0000000500000007,
        },
    ),
];

#[test]
fn forms_of_words(rt: HostRuntime) {
    for (encoded, pointer) in &FORMS {
        let word = encoded.swap_bytes();
        let form = Pointer::of(word);
        same(&rt, form, *pointer);
        same(&rt, form.word(), word);
    }
}

const ONE_WORD: Shape = Shape::Struct {
    data_words: 1,
    pointers: 0,
};

// The words of each segment of a message, and what its first word leads to.
static FOLLOWED: [(&[&[u64]], Result<Followed, Reason>); 23] = [
    // Null, and a capability, in landing pads of one word.
    (
        &[&[0x0200000001000000], &[0]],
        Ok(Followed::Null { pads: 1 }),
    ),
    (
        &[&[0x0200000001000000], &[0x0300000005000000]],
        Ok(Followed::Cap { pads: 1, index: 5 }),
    ),
    // A struct on its own pointer word, one after a landing pad, and two through pads of two words.
    (
        &[&[0xfcffffff01000000], &[0]],
        Ok(Followed::Target(Target {
            segment: 0,
            start: 0,
            words: 1,
            pads: 0,
            charge: 1,
            shape: ONE_WORD,
        })),
    ),
    (
        &[&[0x0a00000000000000, 0x0000000001000000, 0x2a00000000000000]],
        Ok(Followed::Target(Target {
            segment: 0,
            start: 2,
            words: 1,
            pads: 1,
            charge: 2,
            shape: ONE_WORD,
        })),
    ),
    (
        &[
            &[0x0600000001000000],
            &[0x0200000001000000, 0x0000000001000000],
        ],
        Ok(Followed::Target(Target {
            segment: 1,
            start: 0,
            words: 1,
            pads: 2,
            charge: 3,
            shape: ONE_WORD,
        })),
    ),
    (
        &[
            &[0x0600000001000000],
            &[0x0200000002000000, 0x0000000001000000],
            &[0x2a00000000000000],
        ],
        Ok(Followed::Target(Target {
            segment: 2,
            start: 0,
            words: 1,
            pads: 2,
            charge: 3,
            shape: ONE_WORD,
        })),
    ),
    // A struct without words, in a segment without words.
    (
        &[&[0x0600000001000000], &[0x0200000002000000, 0], &[]],
        Ok(Followed::Target(Target {
            segment: 2,
            start: 0,
            words: 0,
            pads: 2,
            charge: 2,
            shape: Shape::Struct {
                data_words: 0,
                pointers: 0,
            },
        })),
    ),
    // Elements without bits: three, and the most that there can be.
    (
        &[&[0x0100000018000000]],
        Ok(Followed::Target(Target {
            segment: 0,
            start: 1,
            words: 0,
            pads: 0,
            charge: 3,
            shape: Shape::Scalars { code: 0, count: 3 },
        })),
    ),
    (
        &[&[0x01000000f8ffffff]],
        Ok(Followed::Target(Target {
            segment: 0,
            start: 1,
            words: 0,
            pads: 0,
            charge: 536870911,
            shape: Shape::Scalars {
                code: 0,
                count: 536870911,
            },
        })),
    ),
    // Two structs of one word: in three words, in one, and after a tag that is no struct's.
    (
        &[&[
            0x010000001f000000,
            0x0800000001000000,
            0x0500000000000000,
            0,
            0xff00000000000000,
        ]],
        Ok(Followed::Target(Target {
            segment: 0,
            start: 1,
            words: 4,
            pads: 0,
            charge: 4,
            shape: Shape::Structs {
                words: 3,
                count: 2,
                data_words: 1,
                pointers: 0,
            },
        })),
    ),
    (
        &[&[
            0x010000000f000000,
            0x0800000001000000,
            0x0500000000000000,
            0,
            0xff00000000000000,
        ]],
        Err(Reason::CompositeOverrun),
    ),
    (
        &[&[
            0x010000001f000000,
            0x0900000001000000,
            0x0500000000000000,
            0,
            0xff00000000000000,
        ]],
        Err(Reason::CompositeTag),
    ),
    // A struct before its segment, and one after it.
    (&[&[0xf8ffffff00000000], &[0]], Err(Reason::OutOfSegment)),
    (
        &[&[0x0200000001000000], &[0x0000000001000000]],
        Err(Reason::OutOfSegment),
    ),
    // Pads of one word: reserved, far, and in no segment.
    (
        &[&[0x0200000001000000], &[0x0700000005000000]],
        Err(Reason::Reserved),
    ),
    (
        &[&[0x0200000001000000], &[0x0200000000000000]],
        Err(Reason::PadIsFar),
    ),
    (&[&[0x0200000007000000], &[0]], Err(Reason::SegmentMissing)),
    // Pads of two words: one isn't all inside its segment, and one leads to no segment.
    (&[&[0x0600000001000000], &[0]], Err(Reason::PadOutside)),
    (
        &[
            &[0x0600000001000000],
            &[0x0200000007000000, 0x0000000001000000],
        ],
        Err(Reason::SegmentMissing),
    ),
    // The first word of a pad is null, or leads to two words. The second is a capability, or has an offset.
    (
        &[
            &[0x0600000001000000],
            &[0, 0x0000000001000000],
            &[0x2a00000000000000],
        ],
        Err(Reason::PadNotFar),
    ),
    (
        &[
            &[0x0600000001000000],
            &[0x0600000001000000, 0x0000000001000000],
        ],
        Err(Reason::PadNotFar),
    ),
    (
        &[
            &[0x0600000001000000],
            &[0x0200000002000000, 0x0300000000000000],
            &[0x2a00000000000000],
        ],
        Err(Reason::TagKind),
    ),
    (
        &[
            &[0x0600000001000000],
            &[0x0200000002000000, 0x0400000001000000],
            &[0x2a00000000000000],
        ],
        Err(Reason::TagOffset),
    ),
];

// What the first word of a message leads to.
fn at_root<M: Segments>(rt: &impl Abort, message: &M) -> Result<Followed, Reason> {
    assert!(rt; message.count() > 0);
    assert!(rt; message.len(0) > 0);
    follow(message, 0, 0)
}

#[test]
fn first_words_of_messages(rt: HostRuntime) -> Result<(), Fail> {
    for (encoded, expected) in &FOLLOWED {
        let held = message(rt.alloc(), *encoded)?;
        same_of(&rt, encoded, at_root(&rt, &held), *expected);
    }
    Ok(())
}
