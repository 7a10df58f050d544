//! The nodes of `cap_vet`.

use crate::same::same;
use cap_frame::{OneSegment, SizeLimit, read_byte_message};
use cap_vet::{Budget, Kind, Limits, Node, Place, Refusal, Step, View, get_charged, vet};
use cap_words::{PlainWords, SliceIn};
use std::test::Fail;

fn step(step: Step) -> u32 {
    match step {
        Step::Ptr(number) => u32::from(number),
        Step::Item(number) => number,
    }
}

fn kind(kind: Kind) -> u32 {
    match kind {
        Kind::Null => 1,
        Kind::Cap { index } => index,
        Kind::Struct {
            data_words: _data_words,
            pointers: _pointers,
        } => 2,
        Kind::Scalars { code: _code, count } => count,
        Kind::Pointers { count } => count,
        Kind::Structs {
            count,
            data_words: _data_words,
            pointers: _pointers,
        } => count,
    }
}

// A struct of one word.
static STRUCT: [u64; 2] = [1 << 32, 42];

#[test]
fn views_of_nodes(rt: HostRuntime) -> Result<(), Fail> {
    let limits = Limits::new(8, 8).ok_or("limits")?;
    let message = OneSegment::new(&STRUCT).ok_or("a message")?;
    let Ok(vetted) = vet(&message, limits) else {
        return Err(Fail::from("a refusal"));
    };
    let root: Node<'_, OneSegment<'_>> = vetted.root();
    let child: Option<Node<'_, OneSegment<'_>>> = root.child(Step::Ptr(0));
    assert!(rt; child.is_none());
    let view: View<'_, OneSegment<'_>> = root.view();
    let place: Option<Place> = view.place();
    let expected = Place {
        segment: 0,
        start: 1,
        words: 1,
    };
    same(&rt, (kind(view.kind()), place), (2, Some(expected)));
    let word: Option<u64> = view.data_word(0);
    let byte: Option<u8> = view.byte(0);
    let bit: Option<bool> = view.bit(1);
    let scalar: Option<u64> = view.scalar(0);
    let count: Option<u32> = view.count();
    same(&rt, (word, byte, bit), (Some(42), Some(42), Some(true)));
    same(&rt, (scalar, count, step(Step::Item(3))), (None, None, 3));
    Ok(())
}

#[test]
fn getters_of_messages_that_were_not_vetted(rt: HostRuntime) -> Result<(), Fail> {
    let message = OneSegment::new(&STRUCT).ok_or("a message")?;
    let mut budget: Budget = Budget::new(8);
    let found: Result<Option<View<'_, OneSegment<'_>>>, Refusal> = get_charged(
        &message,
        &mut budget,
        8,
        &[],
    );
    assert!(rt; matches!(&found, Ok(Some(_))));
    let left: u64 = budget.left();
    same(&rt, left, 7);
    Ok(())
}

#[test]
fn bytes_of_views(rt: HostRuntime) -> Result<(), Fail> {
    let limit = SizeLimit::new(8).ok_or("a limit")?;
    let stream = b"\0\0\0\0\x02\0\0\0\0\0\0\0\x01\0\0\0\x2a\0\0\0\0\0\0\0";
    let mut source = PlainWords::new(SliceIn::new(stream));
    let Ok(Some(message)) = read_byte_message(rt.alloc(), &mut source, limit) else {
        return Err(Fail::from("no message"));
    };
    let view = message.view();
    let Ok(vetted) = vet(&view, Limits::new(8, 8).ok_or("limits")?) else {
        return Err(Fail::from("a refusal"));
    };
    let bytes: &[u8] = vetted.root().view().bytes();
    same(&rt, bytes, [42, 0, 0, 0, 0, 0, 0, 0].as_slice());
    Ok(())
}
