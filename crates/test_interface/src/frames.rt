//! `cap_frame`.

use crate::same::same;
use cap_frame::{
    ByteMessage, ByteView, FrameFault, OneSegment, Segments, SizeLimit, WordMessage,
    read_byte_message, read_message, write_message,
};
use cap_words::{PlainSink, PlainWords, SinkFault, SliceIn, VecOut};
use std::test::Fail;

fn frame_fault(fault: FrameFault) -> u64 {
    match fault {
        FrameFault::TooManySegments { count } => count,
        FrameFault::TooLarge { words } => words,
        FrameFault::Truncated { byte } => byte,
        FrameFault::Device => 1,
        FrameFault::Memory => 2,
        FrameFault::Spent => 3,
    }
}

#[test]
fn faults_of_frames(rt: HostRuntime) {
    same(&rt, frame_fault(FrameFault::Truncated { byte: 12 }), 12);
}

// A message of one null pointer.
const NULL: &[u8] = b"\0\0\0\0\x01\0\0\0\0\0\0\0\0\0\0\0";

// How many segments a message has, and the size and the first word of its first one.
fn shown<M: Segments>(message: &M) -> (u32, u32, Option<u64>) {
    let length: u32 = message.len(0);
    let word = if length > 0 {
        Some(message.word(0, 0))
    } else {
        None
    };
    (message.count(), length, word)
}

#[test]
fn messages_are_read_and_written(rt: HostRuntime) -> Result<(), Fail> {
    let limit: Option<SizeLimit> = SizeLimit::new(8);
    let limit: SizeLimit = limit.ok_or("a limit")?;
    let mut source = PlainWords::new(SliceIn::new(NULL));
    let read: Result<Option<WordMessage>, FrameFault> = read_message(
        rt.alloc(),
        &mut source,
        limit,
    );
    let Ok(Some(message)) = read else {
        return Err(Fail::from("no message"));
    };
    same(&rt, shown(&message), (1, 1, Some(0)));
    let mut sink = PlainSink::new(VecOut::new(rt.alloc()));
    let written: Result<(), SinkFault> = write_message(&mut sink, &message);
    same(&rt, written, Ok(()));
    same(&rt, sink.into_inner().bytes(), NULL);
    Ok(())
}

#[test]
fn messages_in_one_buffer(rt: HostRuntime) -> Result<(), Fail> {
    let limit = SizeLimit::new(8).ok_or("a limit")?;
    let mut source = PlainWords::new(SliceIn::new(NULL));
    let read: Result<Option<ByteMessage>, FrameFault> = read_byte_message(
        rt.alloc(),
        &mut source,
        limit,
    );
    let Ok(Some(message)) = read else {
        return Err(Fail::from("no message"));
    };
    let view: ByteView<'_> = message.view();
    same(&rt, shown(&view), (1, 1, Some(0)));
    Ok(())
}

#[test]
fn messages_of_words(rt: HostRuntime) -> Result<(), Fail> {
    let words: Vec<u64> = Vec::from_array(rt.alloc(), [0, 1])?;
    let segments: Vec<Vec<u64>> = Vec::from_array(rt.alloc(), [words])?;
    let message: Option<WordMessage> = WordMessage::new(segments);
    same(&rt, shown(&message.ok_or("a message")?), (1, 2, Some(0)));
    let message: Option<OneSegment<'_>> = OneSegment::new(&[5]);
    same(&rt, shown(&message.ok_or("a message")?), (1, 1, Some(5)));
    Ok(())
}
