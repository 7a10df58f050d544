//! Positions in packed texts, what is buffered of them, and the input that is left. `tests/program/program.py` unpacks
//! worked samples and texts that are cut, however few bytes come at once.

use crate::steps::{Reads, Takes, read_by, take_by};
use cap_pack::Unpacker;
use cap_words::{SliceIn, SourceFault};

// Groups of each kind, one of them with a zero byte that its tag marks.
const GROUPS: &[u8] = &[
    0x10, 1, 0, 2, 0xff, 0x8a, 0x8a, 0x8a, 0x8a, 0x8a, 0x8a, 0x8a, 0x8a, 1, 8, 7, 6, 5, 4, 3, 2, 1,
    1, 0,
];

// A text, calls of a source of its words, and calls of the input that the source gives back.
type Row = (&'static [u8], &'static [Takes], &'static [Reads]);

static ROWS: [Row; 5] = [
    // The position after each word.
    (
        GROUPS,
        &[
            Takes::Next(Ok(Some(0x1_0000_0000))),
            Takes::Position(2),
            Takes::Next(Ok(Some(0))),
            Takes::Position(4),
            Takes::Next(Ok(Some(0))),
            Takes::Position(4),
            Takes::Next(Ok(Some(0))),
            Takes::Position(4),
            Takes::Next(Ok(Some(0x8a8a_8a8a_8a8a_8a8a))),
            Takes::Position(14),
            Takes::Next(Ok(Some(0x0102_0304_0506_0708))),
            Takes::Position(22),
            Takes::Next(Ok(Some(0))),
            Takes::Position(24),
            Takes::Next(Ok(None)),
            Takes::Position(24),
            Takes::Next(Ok(None)),
        ],
        &[Reads::Read(32, Ok(0))],
    ),
    // The groups after the second word are left.
    (
        GROUPS,
        &[
            Takes::Next(Ok(Some(0x1_0000_0000))),
            Takes::Next(Ok(Some(0))),
        ],
        &[Reads::Read(32, Ok(20)), Reads::Gave(0, 4, 20)],
    ),
    // A word and a run of two, the last of which isn't whole.
    (
        &[
            0xff, 0x8a, 0x8a, 0x8a, 0x8a, 0x8a, 0x8a, 0x8a, 0x8a, 2, 0x8a, 0x8a, 0x8a, 0x8a, 0x8a,
            0x8a, 0x8a, 0x8a, 0x8a, 0x8a, 0x8a, 0x8a,
        ],
        &[
            Takes::Next(Ok(Some(0x8a8a_8a8a_8a8a_8a8a))),
            Takes::Next(Ok(Some(0x8a8a_8a8a_8a8a_8a8a))),
            Takes::Next(Err(SourceFault::Truncated { byte: 22 })),
            Takes::Position(22),
            Takes::Next(Err(SourceFault::Spent)),
            Takes::Next(Err(SourceFault::Spent)),
        ],
        &[],
    ),
    // Zero words that are still to be given are no buffered bytes.
    (
        &[0x10, 1, 0, 1, 0x10],
        &[
            Takes::Next(Ok(Some(0x1_0000_0000))),
            Takes::Buffered(true),
            Takes::Next(Ok(Some(0))),
            Takes::Buffered(true),
            Takes::Next(Ok(Some(0))),
            Takes::Buffered(true),
            Takes::Next(Err(SourceFault::Truncated { byte: 5 })),
            Takes::Buffered(false),
            Takes::Next(Err(SourceFault::Spent)),
        ],
        &[],
    ),
    (
        &[0, 1],
        &[
            Takes::Buffered(true),
            Takes::Next(Ok(Some(0))),
            Takes::Buffered(false),
            Takes::Next(Ok(Some(0))),
            Takes::Next(Ok(None)),
            Takes::Buffered(false),
        ],
        &[],
    ),
];

#[test]
fn positions_and_what_is_left(rt: HostRuntime) {
    let mut buffer = [0; 32];
    for (text, taken, left) in &ROWS {
        let mut source = Unpacker::new(SliceIn::new(*text));
        take_by(&rt, &mut source, *text, &mut [], *taken);
        let mut input = source.into_inner();
        read_by(&rt, &mut input, *text, &mut buffer, *left);
    }
}
