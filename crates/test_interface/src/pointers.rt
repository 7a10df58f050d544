//! `cap_ptr`.

use crate::same::same;
use cap_frame::OneSegment;
use cap_ptr::{Followed, Pointer, Reason, Shape, Target, follow};
use std::test::Fail;

fn pointer(pointer: Pointer) -> u8 {
    match pointer {
        Pointer::Null => 0,
        Pointer::Struct {
            offset: _offset,
            data_words: _data_words,
            pointers: _pointers,
        } => 1,
        Pointer::List {
            offset: _offset,
            code: _code,
            size: _size,
        } => 2,
        Pointer::Far {
            two: _two,
            pad: _pad,
            segment: _segment,
        } => 3,
        Pointer::Cap { index: _index } => 4,
        Pointer::Reserved { word: _word } => 5,
    }
}

fn shape(shape: Shape) -> u8 {
    match shape {
        Shape::Struct {
            data_words: _data_words,
            pointers: _pointers,
        } => 0,
        Shape::Scalars {
            code: _code,
            count: _count,
        } => 1,
        Shape::Pointers { count: _count } => 2,
        Shape::Structs {
            words: _words,
            count: _count,
            data_words: _data_words,
            pointers: _pointers,
        } => 3,
    }
}

fn followed(followed: Followed) -> u8 {
    match followed {
        Followed::Null { pads } => pads,
        Followed::Cap {
            pads: _pads,
            index: _index,
        } => 3,
        Followed::Target(target) => shape(target.shape),
    }
}

fn reason(reason: Reason) -> u8 {
    match reason {
        Reason::NoRoot => 1,
        Reason::Reserved => 2,
        Reason::SegmentMissing => 3,
        Reason::PadOutside => 4,
        Reason::PadIsFar => 5,
        Reason::PadNotFar => 6,
        Reason::TagKind => 7,
        Reason::TagOffset => 8,
        Reason::OutOfSegment => 9,
        Reason::CompositeTag => 10,
        Reason::CompositeOverrun => 11,
        Reason::DepthLimit => 12,
        Reason::WordLimit => 13,
    }
}

#[test]
fn pointers_by_their_words(rt: HostRuntime) {
    let given: Pointer = Pointer::of(0x0001_0002_0000_0004);
    let word: u64 = given.word();
    same(&rt, (pointer(given), word), (1, 0x0001_0002_0000_0004));
}

#[test]
fn pointers_are_followed(rt: HostRuntime) -> Result<(), Fail> {
    let message = OneSegment::new(&[1 << 32, 42]).ok_or("a message")?;
    let given: Result<Followed, Reason> = follow(&message, 0, 0);
    let target = Target {
        segment: 0,
        start: 1,
        words: 1,
        pads: 0,
        charge: 1,
        shape: Shape::Struct {
            data_words: 1,
            pointers: 0,
        },
    };
    same(&rt, given, Ok(Followed::Target(target)));
    same(
        &rt,
        (
            followed(Followed::Target(target)),
            reason(Reason::WordLimit),
        ),
        (0, 13),
    );
    Ok(())
}
