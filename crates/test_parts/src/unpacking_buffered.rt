//! Words of a packed text that are given many at once, in pieces of each size and by reads of each size.

use crate::same::{same, same_of};
use crate::steps::{Takes, front, part, take_by};
use cap_pack::Unpacker;
use cap_words::{BufferedIn, FromRead, SliceIn, SourceFault, WordSource};
use std::alloc::{AllocError, Global};
use std::process::Abort;
use std::test::Fail;
use test_support::Reader;

const FULL: u64 = 0x8a8a_8a8a_8a8a_8a8a;

// Groups of each kind: a byte, three zero words, three words as they are, and twice four bytes.
static TEXT: [u8; 40] = [
    0x10, 1, 0, 2, 0xff, 0x8a, 0x8a, 0x8a, 0x8a, 0x8a, 0x8a, 0x8a, 0x8a, 2, 0x8a, 0x8a, 0x8a, 0x8a,
    0, 0x8a, 0x8a, 0x8a, 9, 9, 9, 9, 9, 9, 9, 9, 0x0f, 1, 2, 3, 4, 0xf0, 5, 6, 7, 8,
];

static WORDS: [u8; 72] = [
    0, 0, 0, 0, 1, 0, 0, 0, 0, 0, 0, 0, 0, 0, 0, 0, 0, 0, 0, 0, 0, 0, 0, 0, 0, 0, 0, 0, 0, 0, 0, 0,
    0x8a, 0x8a, 0x8a, 0x8a, 0x8a, 0x8a, 0x8a, 0x8a, 0x8a, 0x8a, 0x8a, 0x8a, 0, 0x8a, 0x8a, 0x8a, 9,
    9, 9, 9, 9, 9, 9, 9, 1, 2, 3, 4, 0, 0, 0, 0, 0, 0, 0, 0, 5, 6, 7, 8,
];

// A length of the text, how many bytes of words it gives, and whether a group ends there.
static ENDS: [(usize, usize, bool); 8] = [
    (0, 0, true),
    (2, 8, true),
    (4, 32, true),
    (14, 40, false),
    (22, 48, false),
    (30, 56, true),
    (35, 64, true),
    (40, 72, true),
];

// How many bytes of words a prefix of the text gives, and how it ends.
fn end_of(len: usize) -> (usize, Result<bool, SourceFault>) {
    let mut given = 0;
    let mut end = Ok(false);
    for (from, bytes, is_whole) in &ENDS {
        if *from <= len {
            given = *bytes;
            end = if *from == len && *is_whole {
                Ok(false)
            } else {
                Err(SourceFault::Truncated { byte: len as u64 })
            };
        }
    }
    (given, end)
}

// The source fills pieces of `size` bytes with these bytes, and then answers `end`.
fn expect<S: WordSource>(
    rt: &impl Abort,
    source: &mut S,
    bytes: &[u8],
    size: usize,
    end: Result<bool, SourceFault>,
) {
    let mut buffer = [0; 72];
    for k in 0..9usize {
        let piece = part(bytes, k.saturating_mul(size), size);
        same(rt, source.fill(front(&mut buffer, piece.len())), Ok(true));
        same(rt, part(&buffer, 0, piece.len()), piece);
    }
    same(rt, source.fill(front(&mut buffer, 8)), end);
}

// A prefix of the text in a slice, and read through a buffer, at most `most` bytes a call.
fn expect_front(
    rt: &impl Abort,
    alloc: Global,
    len: usize,
    most: usize,
    size: usize,
) -> Result<(), AllocError> {
    let text = part(&TEXT, 0, len);
    let (given, end) = end_of(len);
    let bytes = part(&WORDS, 0, given);
    expect(rt, &mut Unpacker::new(SliceIn::new(text)), bytes, size, end);
    let input = BufferedIn::new(alloc, Reader::honest(text, most))?;
    expect(rt, &mut Unpacker::new(input), bytes, size, end);
    Ok(())
}

// A text that is cut at each byte in turn, reads that end after each, and pieces that end after each word.
#[test]
fn ends_of_texts_reads_and_pieces(rt: HostRuntime) -> Result<(), Fail> {
    for size in [8, 16, 24, 32, 40, 72] {
        for most in 1..=40 {
            expect_front(&rt, rt.alloc(), 40, most, size)?;
        }
        for len in 0..=40 {
            for most in [1, 9, 18] {
                expect_front(&rt, rt.alloc(), len, most, size)?;
            }
        }
    }
    Ok(())
}

// What comes where all words that are buffered were given.
static LAST: [Takes; 2] = [
    Takes::Next(Ok(Some(0x0807_0605_0000_0000))),
    Takes::Ready(72, 0, 0),
];

// Over a slice all words are buffered but those of groups that begin less than ten bytes before its end.
#[test]
fn gives_all_words_that_fit(rt: HostRuntime) {
    let mut buffer = [0; 72];
    for len in 0..=72 {
        let mut source = Unpacker::new(SliceIn::new(&TEXT));
        let count = len.min(64) / 8 * 8;
        same_of(&rt, &len, source.ready(front(&mut buffer, len)), count);
        same_of(&rt, &len, part(&buffer, 0, count), part(&WORDS, 0, count));
        if len == 72 {
            same(&rt, source.position(), 35);
            take_by(&rt, &mut source, &WORDS, &mut buffer, &LAST);
        }
    }
}

static NONE_READY: [Takes; 1] = [Takes::Ready(72, 0, 0)];

static READY_AFTER_ONE: [Takes; 2] = [
    Takes::Next(Ok(Some(0x1_0000_0000))),
    Takes::Ready(72, 8, 56),
];

// A reader is never called for buffered words.
#[test]
fn gives_no_words_that_are_to_be_read(rt: HostRuntime) -> Result<(), Fail> {
    let mut buffer = [0; 72];
    let mut source = Unpacker::new(FromRead::new(TEXT.as_slice()));
    take_by(&rt, &mut source, &WORDS, &mut buffer, &NONE_READY);
    let mut source = Unpacker::new(BufferedIn::new(rt.alloc(), TEXT.as_slice())?);
    take_by(&rt, &mut source, &WORDS, &mut buffer, &NONE_READY);
    take_by(&rt, &mut source, &WORDS, &mut buffer, &READY_AFTER_ONE);
    Ok(())
}

// No more is appended than is asked for, and than fits.
fn append_each<S: WordSource>(rt: &impl Abort, source: &mut S, out: &mut Vec<u8>) {
    let most_of_all = out.capacity();
    same(rt, source.append(out, 400), 0);
    same(rt, source.next(), Ok(Some(FULL)));
    for most in [0, 7, 8, 23, 64, 400, 400] {
        let left = most_of_all.min(8 * 40).saturating_sub(out.len());
        same_of(rt, &most, source.append(out, most), most.min(left) / 8 * 8);
        same_of(
            rt,
            &most,
            source.position(),
            (out.len() as u64).saturating_add(10),
        );
    }
    same(rt, out.capacity(), most_of_all);
}

// At a head, and where zero words are held, nothing is appended.
fn append_none<S: WordSource>(rt: &impl Abort, source: &mut S, out: &mut Vec<u8>) {
    same(rt, source.next(), Ok(Some(0)));
    same(rt, source.append(out, 400), 0);
    same(rt, source.next(), Ok(Some(0)));
}

// What is left of a run of words as they are is appended: 41 words, and three zero words.
#[test]
fn appends_the_rest_of_a_run(rt: HostRuntime) -> Result<(), Fail> {
    let mut text = [0x8a; 332];
    text[0] = 0xff;
    text[9] = 40;
    text[330..].copy_from_slice(&[0, 2]);
    for buffer in [0, 8, 100, 8 * 40, 8 * 50] {
        let mut out = Vec::with_capacity(rt.alloc(), buffer)?;
        let mut source = Unpacker::new(SliceIn::new(&text));
        append_each(&rt, &mut source, &mut out);
        same_of(
            &rt,
            &buffer,
            out.as_slice(),
            part(&[0x8a; 320], 0, out.len()),
        );
        if buffer >= 8 * 40 {
            append_none(&rt, &mut source, &mut out);
        }
    }
    Ok(())
}
