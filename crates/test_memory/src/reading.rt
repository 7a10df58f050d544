//! Reading messages.

use crate::same::same;
use cap_frame::{
    ByteMessage, FrameFault, Segments, SizeLimit, read_byte_message, read_into, read_message,
};
use cap_words::{PlainWords, SliceIn, WordSource};
use std::alloc::Global;
use std::process::Abort;
use std::test::Fail;

// Two segments, of one and two words, after a table of two words.
const MESSAGE: &[u8] =
    b"\x01\0\0\0\x01\0\0\0\x02\0\0\0\xde\xad\xbe\xef\x02\0\0\0\x01\0\0\0\0\0\0\0\x01\0\0\0\x2a\0\0\0\0\0\0\0";

const SEGMENTS: [&[u64]; 2] = [&[0x1_0000_0002], &[0x1_0000_0000, 42]];

// A call answered out of memory, and what it left is as promised.
pub(crate) fn refused() -> Result<(), Fail> {
    Err(Fail::from("refused"))
}

pub(crate) fn another_answer() -> Result<(), Fail> {
    Err(Fail::from("another answer"))
}

fn is_message<M: Segments>(message: &M, want: &[&[u64]]) -> bool {
    if message.count() as usize != want.len() {
        return false;
    }
    for s in 0..message.count() {
        let words = want[s as usize];
        if message.len(s) as usize != words.len() {
            return false;
        }
        for w in 0..message.len(s) {
            if message.word(s, w) != words[w as usize] {
                return false;
            }
        }
    }
    true
}

// The source is after the table, and can still be read.
fn expect_contents<S: WordSource>(rt: &impl Abort, source: &mut S) {
    same(rt, source.position(), 16);
    for word in [0x1_0000_0002, 0x1_0000_0000, 42] {
        same(rt, source.next(), Ok(Some(word)));
    }
    same(rt, source.next(), Ok(None));
}

// A message was read, or memory ran out after the table.
fn settle<S: WordSource>(
    rt: &impl Abort,
    answer: Result<bool, FrameFault>,
    source: &mut S,
) -> Result<(), Fail> {
    match answer {
        Ok(is_whole) => {
            assert!(rt; is_whole);
            Ok(())
        }
        Err(FrameFault::Memory) => {
            expect_contents(rt, source);
            refused()
        }
        _ => another_answer(),
    }
}

#[test]
fn a_message_in_words(rt: HostRuntime) -> Result<(), Fail> {
    let mut source = PlainWords::new(SliceIn::new(MESSAGE));
    let limit = SizeLimit::new(3).ok_or("a limit")?;
    let answer = match read_message(rt.alloc(), &mut source, limit) {
        Ok(message) => Ok(message.is_some_and(|message| is_message(&message, &SEGMENTS))),
        Err(fault) => Err(fault),
    };
    settle(&rt, answer, &mut source)
}

#[test]
fn a_message_in_one_buffer(rt: HostRuntime) -> Result<(), Fail> {
    let mut source = PlainWords::new(SliceIn::new(MESSAGE));
    let limit = SizeLimit::new(3).ok_or("a limit")?;
    let answer = match read_byte_message(rt.alloc(), &mut source, limit) {
        Ok(message) => Ok(message.is_some_and(|message| is_message(&message.view(), &SEGMENTS))),
        Err(fault) => Err(fault),
    };
    settle(&rt, answer, &mut source)
}

// Reads the message into one. After a refusal that is blank, and the next call succeeds.
fn read_again(rt: &impl Abort, alloc: Global, message: &mut ByteMessage, limit: SizeLimit) {
    assert!(rt; is_message(&message.view(), &[&[]]));
    let mut source = PlainWords::new(SliceIn::new(MESSAGE));
    same(rt, read_into(alloc, &mut source, limit, message), Ok(true));
    assert!(rt; is_message(&message.view(), &SEGMENTS));
}

#[test]
fn a_message_read_into_a_blank_one(rt: HostRuntime) -> Result<(), Fail> {
    let mut message = ByteMessage::blank(rt.alloc());
    let mut source = PlainWords::new(SliceIn::new(MESSAGE));
    let limit = SizeLimit::new(3).ok_or("a limit")?;
    let answer = read_into(rt.alloc(), &mut source, limit, &mut message);
    if answer.is_err() {
        read_again(&rt, rt.alloc(), &mut message, limit);
    }
    assert!(rt; is_message(&message.view(), &SEGMENTS));
    settle(&rt, answer, &mut source)
}

// Each way to read a message answers the same fault of a table.
fn expect_fault(rt: &impl Abort, alloc: Global, table: &[u8], limit: SizeLimit, fault: FrameFault) {
    let mut source = PlainWords::new(SliceIn::new(table));
    let read = read_byte_message(alloc, &mut source, limit);
    same(rt, read.err(), Some(fault));
    let mut source = PlainWords::new(SliceIn::new(table));
    let read = read_message(alloc, &mut source, limit);
    same(rt, read.err(), Some(fault));
    same(rt, source.position(), table.len() as u64);
}

fn expect_fault_into(
    rt: &impl Abort,
    alloc: Global,
    table: &[u8],
    limit: SizeLimit,
    fault: FrameFault,
) {
    let mut source = PlainWords::new(SliceIn::new(table));
    let mut message = ByteMessage::blank(alloc);
    let read = read_into(alloc, &mut source, limit, &mut message);
    same(rt, read, Err(fault));
}

// Tables past the limits: of one segment too many, and of one segment of the most words that there can be.
static PAST: [([u8; 8], FrameFault); 2] = [
    (
        [0, 2, 0, 0, 0, 0, 0, 0],
        FrameFault::TooManySegments { count: 513 },
    ),
    (
        [0, 0, 0, 0, 0xff, 0xff, 0xff, 0xff],
        FrameFault::TooLarge { words: 4294967295 },
    ),
];

// And of 512 such segments. The calls allocate nothing, so the first allocation is the test's own, at the end.
#[test]
fn a_table_past_the_limits(rt: HostRuntime) -> Result<(), Fail> {
    let limit = SizeLimit::new(268435456).ok_or("a limit")?;
    for (table, fault) in &PAST {
        expect_fault(&rt, rt.alloc(), table, limit, *fault);
        expect_fault_into(&rt, rt.alloc(), table, limit, *fault);
    }
    let mut many = [0xff; 2056];
    many[..4].copy_from_slice(&[0xff, 1, 0, 0]);
    many[2052..].copy_from_slice(&[0; 4]);
    let fault = FrameFault::TooLarge {
        words: 2199023255040,
    };
    expect_fault(&rt, rt.alloc(), &many, limit, fault);
    expect_fault_into(&rt, rt.alloc(), &many, limit, fault);
    match Vec::<u8>::with_capacity(rt.alloc(), 1) {
        Ok(_) => Ok(()),
        Err(_) => refused(),
    }
}
