//! Counts of the calls of a device, and faults of single calls. `test_jobs` runs every command over devices each
//! of whose calls fails in turn.

use crate::same::{same, same_of};
use cap_pack::Packer;
use cap_words::{
    ByteOut, FromRead, FromWrite, OutFault, PlainSink, PlainWords, SinkFault, SourceFault,
    WordSink, WordSource,
};
use std::io::ErrorKind;
use std::process::Abort;
use test_support::{Fault, READ_FAULTS, Reader, Writer};

// Two words, and half of one more.
static SEVENS: [u8; 20] = [7; 20];

// How many bytes a call of the reader gives at most, which call fails, the answer to a piece of three words,
// the bytes that were read for it, and how many calls that took.
static PIECES: [(usize, u32, SourceFault, u64, u32); 7] = [
    (1, 0, SourceFault::Truncated { byte: 20 }, 20, 21),
    (3, 0, SourceFault::Truncated { byte: 20 }, 20, 8),
    (7, 0, SourceFault::Truncated { byte: 20 }, 20, 4),
    (3, 1, SourceFault::Device, 0, 1),
    (3, 3, SourceFault::Device, 6, 3),
    (8, 3, SourceFault::Device, 16, 3),
    (20, 2, SourceFault::Device, 20, 2),
];

#[test]
fn a_fault_inside_a_piece_is_counted(rt: HostRuntime) {
    let mut buffer = [9; 27];
    for (most, at, expected, position, calls) in &PIECES {
        let fault = Fault {
            at: *at,
            kind: Some(ErrorKind::Interrupted),
        };
        let mut source = PlainWords::new(FromRead::new(Reader::new(&SEVENS, *most, fault)));
        same_of(&rt, most, source.fill(&mut buffer), Err(*expected));
        same_of(&rt, most, source.position(), *position);
        same_of(&rt, most, source.fill(&mut buffer), Err(SourceFault::Spent));
        same_of(&rt, most, source.next(), Err(SourceFault::Spent));
        same_of(&rt, most, source.into_inner().into_inner().calls, *calls);
    }
}

#[test]
fn a_flush_is_one_call_of_the_writer(rt: HostRuntime) {
    for kind in READ_FAULTS {
        let fault = Fault {
            at: 3,
            kind: Some(kind),
        };
        let mut output = FromWrite::new(Writer::new(rt.alloc(), 20, fault));
        same(&rt, output.write(&SEVENS), Ok(20));
        same(&rt, output.flush(), Ok(()));
        assert!(rt; !output.has_failed());
        same(&rt, output.flush(), Err(OutFault::Device));
        assert!(rt; output.has_failed());
        same(&rt, output.flush(), Err(OutFault::Spent));
        same(&rt, output.write(&SEVENS), Err(OutFault::Spent));
        let writer = output.into_inner();
        same(&rt, (writer.calls, writer.taken.len()), (3, 20));
    }
}

// Words of four groups.
static PIECE: [u8; 40] = [
    0x61, 0x61, 0x61, 0x61, 0x61, 0x61, 0x61, 0x61, 0x61, 0x62, 0x63, 0x64, 0x65, 0x66, 0x67, 0, 0,
    0, 0, 0, 0, 0, 0, 0, 0, 0, 0, 0, 0, 0, 0, 0, 0x19, 0, 0, 0, 0xaa, 1, 0, 0,
];

// A word, a piece of words, and flushes up to one that fails.
fn expect_flushes<K: WordSink>(rt: &impl Abort, sink: &mut K) {
    same(rt, sink.put(0), Ok(()));
    same(rt, sink.put_bytes(&PIECE), Ok(()));
    same(rt, sink.flush(), Ok(()));
    same(rt, sink.flush(), Err(SinkFault::Device));
    same(rt, sink.flush(), Err(SinkFault::Spent));
}

// The packer holds the word open, and writes it with the piece. A plain sink writes it by the first call of
// the writer.
#[test]
fn each_piece_and_each_flush_is_one_call_of_the_writer(rt: HostRuntime) {
    let kind = Some(ErrorKind::Other);
    let writer = Writer::new(rt.alloc(), 64, Fault { at: 3, kind });
    let mut sink = Packer::new(FromWrite::new(writer));
    expect_flushes(&rt, &mut sink);
    let writer = sink.into_inner().into_inner();
    same(&rt, (writer.calls, writer.taken.len()), (3, 26));
    let writer = Writer::new(rt.alloc(), 64, Fault { at: 4, kind });
    let mut sink = PlainSink::new(FromWrite::new(writer));
    expect_flushes(&rt, &mut sink);
    let writer = sink.into_inner().into_inner();
    same(&rt, (writer.calls, writer.taken.len()), (4, 48));
}

// Words that are packed by groups of each kind.
const KINDS: [u64; 8] = [
    2 << 32,
    0,
    0,
    0,
    0x8a8a_8a8a_8a8a_8a8a,
    0x0001_0101_0101_0101,
    0x0000_0101_0101_0101,
    0,
];

// How many bytes the groups have up to each that ends, and which call of the packer writes it.
static ENDS: [(usize, usize); 5] = [(2, 0), (4, 4), (22, 6), (29, 6), (31, 8)];

// The packer's answer to a call, where the call with this number fails.
fn answer(call: usize, fails: usize) -> Result<(), SinkFault> {
    if call < fails {
        Ok(())
    } else if call == fails {
        Err(SinkFault::Device)
    } else {
        Err(SinkFault::Spent)
    }
}

// A packer answers the fault in the call that wrote, and its output is called no more.
#[test]
fn a_packer_answers_a_fault_in_its_own_call(rt: HostRuntime) {
    for at in 0..31usize {
        let mut fails = 0;
        for (end, call) in ENDS.iter().rev() {
            if at < *end {
                fails = *call;
            }
        }
        let mut sink = Packer::new(FromWrite::new(Writer::full(rt.alloc(), at, true)));
        for (i, word) in KINDS.iter().enumerate() {
            same_of(&rt, &(at, i), sink.put(*word), answer(i, fails));
        }
        same_of(&rt, &at, sink.finish(), answer(KINDS.len(), fails));
        same(&rt, sink.put(0), Err(SinkFault::Spent));
        same(&rt, sink.into_inner().into_inner().taken.len(), at);
    }
}
