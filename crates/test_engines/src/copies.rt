//! Packing and unpacking up to a number of words, which no option sets.

use crate::same::same_of;
use cap_pack::{Packer, Unpacker};
use cap_run::{CopyFault, run_pack, run_unpack};
use cap_words::{FromRead, PlainSink, PlainWords, SliceIn, VecOut, WordSource};
use std::alloc::Global;
use std::process::Abort;
use test_support::Reader;

// The answer for a copy of `words` words, where it may take at most `most`.
fn answer(words: u64, most: u64) -> Result<u64, CopyFault> {
    if most < words {
        Err(CopyFault::TooManyWords)
    } else {
        Ok(words)
    }
}

// At most `most` of the 130 zero words of a source are packed: they are one group.
fn expect_packed<S: WordSource>(rt: &impl Abort, alloc: Global, source: &mut S, most: u64) {
    let mut sink = Packer::new(VecOut::new(alloc));
    assert!(rt; run_pack(source, &mut sink, most) == answer(130, most));
    let output = sink.into_inner();
    if most == 0 {
        same_of(rt, &most, output.bytes(), &[]);
    } else {
        let further = most.saturating_sub(1).min(129) as u8;
        same_of(rt, &most, output.bytes(), [0, further].as_slice());
    }
}

static ZEROS: [u8; 1040] = [0; 1040];

static MOST_PACKED: [u64; 10] = [0, 1, 63, 64, 65, 127, 128, 129, 130, 131];

// Buffered words are packed in pieces of 64, of which the last one ends where the most words do, and
// those of a reader one by one.
#[test]
fn packs_no_word_past_the_most(rt: HostRuntime) {
    for most in &MOST_PACKED {
        let mut source = PlainWords::new(SliceIn::new(&ZEROS));
        expect_packed(&rt, rt.alloc(), &mut source, *most);
        let mut source = PlainWords::new(FromRead::new(Reader::honest(&ZEROS, 1)));
        expect_packed(&rt, rt.alloc(), &mut source, *most);
    }
}

// 1154 zero words, and three others: more than one piece of 1024 takes.
static MANY: [u8; 25] = [
    0, 255, 0, 255, 0, 255, 0, 255, 0, 129, 15, 1, 2, 3, 4, 15, 1, 2, 3, 4, 15, 1, 2, 3, 4,
];

const MANY_WORDS: u64 = 1157;

fn expect_unpacked(rt: &impl Abort, alloc: Global, most: u64) {
    let mut source = Unpacker::new(SliceIn::new(&MANY));
    let mut sink = PlainSink::new(VecOut::new(alloc));
    let given = run_unpack(&mut source, &mut sink, most);
    assert!(rt; given == answer(MANY_WORDS, most));
    let written = sink.into_inner().bytes().len() as u64;
    same_of(rt, &most, written, 8 * most.min(MANY_WORDS));
}

static MOST_UNPACKED: [u64; 9] = [0, 1, 1023, 1024, 1025, 1153, 1156, 1157, 1158];

// The last piece ends where the most words do.
#[test]
fn unpacks_no_word_past_the_most(rt: HostRuntime) {
    for most in &MOST_UNPACKED {
        expect_unpacked(&rt, rt.alloc(), *most);
    }
}
