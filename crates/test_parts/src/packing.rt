//! The packed text of words that are put one by one, many at once, and as bytes. `tests/program/program.py` packs and
//! unpacks words of every tag, and long runs.

use crate::same::same;
use crate::steps::{Puts, put_by};
use cap_pack::Packer;
use cap_words::{SinkFault, VecOut};

const CLOSED: Result<(), SinkFault> = Err(SinkFault::Spent);

// A word without a zero byte and one with one, and a part of a third.
static BYTES: [u8; 19] = [1, 1, 1, 1, 1, 1, 1, 1, 1, 0, 1, 1, 1, 1, 1, 1, 9, 9, 9];

// Less than a word at the end of a piece is left out.
static PUTS: [Puts; 8] = [
    Puts::Word(0, Ok(())),
    Puts::Bytes(0, 0, Ok(())),
    Puts::Bytes(0, 19, Ok(())),
    Puts::Word(0x0101_0101_0101_0000, Ok(())),
    Puts::Finish(Ok(())),
    Puts::Word(0, CLOSED),
    Puts::Bytes(0, 0, CLOSED),
    Puts::Finish(CLOSED),
];

// The groups of all words.
static PACKED: [u8; 35] = [
    0x51, 8, 3, 2, 0x31, 0x19, 0xaa, 1, 0, 2, 0xff, 1, 1, 1, 1, 1, 1, 1, 1, 1, 1, 0, 1, 1, 1, 1, 1,
    1, 0xfc, 1, 1, 1, 1, 1, 1,
];

#[test]
fn packs_each_kind_of_group(rt: HostRuntime) {
    let mut sink = Packer::new(VecOut::new(rt.alloc()));
    let words = [0x0002_0003_0000_0008, 0x0000_01aa_0000_0019, 0, 0];
    same(&rt, sink.put_all(&words), Ok(()));
    put_by(&rt, &mut sink, &BYTES, &PUTS);
    same(&rt, sink.put_all(&[]), CLOSED);
    same(&rt, sink.into_inner().bytes(), &PACKED);
}
