//! What paths arrive at, what views show there, and what it is charged, of messages that are known
//! from outside. `tests/calls/nodes.py` has many more paths, from C.

use crate::held::{in_bytes, message};
use crate::same::{same, same_of};
use cap_frame::{Segments, WordMessage};
use cap_vet::{Budget, Kind, Place, Reason, Step, View, get_charged};
use std::process::Abort;
use std::test::Fail;

// The kind, the place and the first data word of what a path arrives at, if it arrives at anything. Or the
// word of segment 0 that is refused, why, and after how many pointers.
type Seen = Result<Option<(Kind, Option<Place>, Option<u64>)>, (u32, Reason, u64)>;

// What a path arrives at, and what is left of a budget of `words` words.
fn charged<M: Segments>(message: &M, words: u64, depth: u32, path: &[Step]) -> (Seen, u64) {
    let mut budget = Budget::new(words);
    let answer = match get_charged(message, &mut budget, depth, path) {
        Ok(Some(view)) => Ok(Some((view.kind(), view.place(), view.data_word(0)))),
        Ok(None) => Ok(None),
        Err(refusal) => Err((refusal.word, refusal.reason, refusal.pointers)),
    };
    (answer, budget.left())
}

const ONE_POINTER: Kind = Kind::Struct {
    data_words: 0,
    pointers: 1,
};

const ONE_WORD: Kind = Kind::Struct {
    data_words: 1,
    pointers: 0,
};

// The words of each segment of a message, the words of the budget and the depth, a path, the
// expected answer, and the words that are left.
type Row = (
    &'static [&'static [u64]],
    u64,
    u32,
    &'static [Step],
    Seen,
    u64,
);

const P0: Step = Step::Ptr(0);

const ITSELF: &[&[u64]] = &[&[0xfcffffff00000100]];

const THE_SAME: Seen = Ok(Some((
    ONE_POINTER,
    Some(Place {
        segment: 0,
        start: 0,
        words: 1,
    }),
    None,
)));

const SHARED: &[&[u64]] = &[&[
    0x0000000000000200,
    0x0400000001000000,
    0x0000000001000000,
    0x0700000000000000,
]];

const ELEMENTS: &[&[u64]] = &[&[
    0x010000001f000000,
    0x0800000001000000,
    0x0500000000000000,
    0,
    0xff00000000000000,
]];

const SECOND: Seen = Ok(Some((
    ONE_WORD,
    Some(Place {
        segment: 0,
        start: 3,
        words: 1,
    }),
    Some(0),
)));

// A list of one struct, whose pointer leads to a struct of one word.
const BELOW: &[&[u64]] = &[&[
    0x010000000f000000,
    0x0400000000000100,
    0x0000000001000000,
    0x2a00000000000000,
]];

const ONLY: Seen = Ok(Some((
    ONE_POINTER,
    Some(Place {
        segment: 0,
        start: 2,
        words: 1,
    }),
    None,
)));

const BELOW_IT: Seen = Ok(Some((
    ONE_WORD,
    Some(Place {
        segment: 0,
        start: 3,
        words: 1,
    }),
    Some(42),
)));

const NONE: &[&[u64]] = &[&[0x0100000007000000, 0]];

const NO_ROOT: &[&[u64]] = &[&[], &[0x0000000001000000, 42]];

static CHARGES: [Row; 18] = [
    // A cycle is charged step by step.
    (ITSELF, 10, 64, &[P0, P0, P0], THE_SAME, 6),
    (ITSELF, 4, 4, &[P0, P0, P0], THE_SAME, 0),
    (
        ITSELF,
        3,
        64,
        &[P0, P0, P0],
        Err((0, Reason::WordLimit, 4)),
        3,
    ),
    (
        ITSELF,
        10,
        3,
        &[P0, P0, P0],
        Err((0, Reason::DepthLimit, 4)),
        10,
    ),
    // Both limits are passed at the fourth pointer.
    (
        ITSELF,
        3,
        3,
        &[P0, P0, P0],
        Err((0, Reason::DepthLimit, 4)),
        3,
    ),
    // Pointers up to a step that leads to no node are charged.
    (SHARED, 4, 64, &[Step::Ptr(5)], Ok(None), 2),
    (ELEMENTS, 4, 64, &[Step::Item(1)], SECOND, 0),
    (ELEMENTS, 4, 64, &[Step::Item(2)], Ok(None), 0),
    // A message without a root is refused on each path.
    (NO_ROOT, 9, 64, &[], Err((0, Reason::NoRoot, 0)), 9),
    (NO_ROOT, 9, 64, &[P0], Err((0, Reason::NoRoot, 0)), 9),
    // Structs of a list are a level below it.
    (BELOW, 9, 3, &[Step::Item(0), P0], BELOW_IT, 6),
    (
        BELOW,
        9,
        2,
        &[Step::Item(0), P0],
        Err((2, Reason::DepthLimit, 2)),
        9,
    ),
    (BELOW, 9, 2, &[Step::Item(0)], ONLY, 7),
    // The list alone is past the limit, since its struct is, whether or not a step leads to it.
    (BELOW, 9, 1, &[], Err((0, Reason::DepthLimit, 1)), 9),
    (
        BELOW,
        9,
        1,
        &[Step::Item(0)],
        Err((0, Reason::DepthLimit, 1)),
        9,
    ),
    (
        BELOW,
        9,
        1,
        &[Step::Item(1)],
        Err((0, Reason::DepthLimit, 1)),
        9,
    ),
    // A list without structs takes no level below its own.
    (NONE, 9, 1, &[Step::Item(0)], Ok(None), 8),
    (
        NONE,
        9,
        0,
        &[Step::Item(0)],
        Err((0, Reason::DepthLimit, 1)),
        9,
    ),
];

#[test]
fn pointers_are_charged_and_levels_counted(rt: HostRuntime) -> Result<(), Fail> {
    for (encoded, words, depth, path, expected, left) in &CHARGES {
        let several = message(rt.alloc(), *encoded)?;
        let given = (
            charged(&several, *words, *depth, *path),
            charged(
                &in_bytes(rt.alloc(), &several)?.view(),
                *words,
                *depth,
                *path,
            ),
        );
        same_of(
            &rt,
            &(encoded, words, depth, path),
            given,
            ((*expected, *left), (*expected, *left)),
        );
    }
    Ok(())
}

#[test]
fn a_long_path_is_charged(rt: HostRuntime) -> Result<(), Fail> {
    let path = Vec::from_elem(rt.alloc(), P0, 1000)?;
    let given = charged(&message(rt.alloc(), ITSELF)?, u64::MAX, u32::MAX, &path);
    same(&rt, given, (THE_SAME, u64::MAX - 1001));
    Ok(())
}

// What the root of a message leads to.
fn root_of(message: &WordMessage) -> Result<View<'_, WordMessage>, Fail> {
    match get_charged(message, &mut Budget::new(u64::MAX), 64, &[]) {
        Ok(Some(view)) => Ok(view),
        _ => Err("no view".into()),
    }
}

fn shows_elements(rt: &impl Abort, view: &View<'_, WordMessage>, elements: &[u64]) {
    let mut i: u32 = 0;
    for element in elements {
        same_of(rt, &(&i, &elements), view.scalar(i), Some(*element));
        i = i.saturating_add(1);
    }
    same_of(rt, &elements, view.scalar(i), None);
    same_of(rt, &elements, view.count(), Some(i));
}

fn shows_words(rt: &impl Abort, view: &View<'_, WordMessage>, words: &[u64]) {
    let mut i: u32 = 0;
    for word in words {
        same_of(rt, &(&i, &words), view.data_word(i), Some(*word));
        i = i.saturating_add(1);
    }
    same_of(rt, &words, view.data_word(i), None);
    same_of(rt, &words, (view.byte(0), view.bit(0)), (None, None));
}

// The words of lists, their elements and the words of their data, each up to the first that there
// isn't.
static VALUES: [(&[u64], &[u64], &[u64]); 9] = [
    // Elements without bits.
    (&[0x0100000018000000], &[0, 0, 0], &[]),
    (&[0x0100000019000000, 0xffffffffffffffff], &[1, 1, 1], &[7]),
    (
        &[0x010000004a000000, 0x0102030405060708, 0x090a0b0c0d0e0f10],
        &[1, 2, 3, 4, 5, 6, 7, 8, 9],
        &[0x0807060504030201, 9],
    ),
    (
        &[0x010000001b000000, 0x0102030405060708],
        &[0x0201, 0x0403, 0x0605],
        &[0x060504030201],
    ),
    (
        &[0x010000001c000000, 0x0102030405060708, 0x090a0b0c0d0e0f10],
        &[0x04030201, 0x08070605, 0x0c0b0a09],
        &[0x0807060504030201, 0x0c0b0a09],
    ),
    (
        &[0x010000000d000000, 0xffffffffffffffff],
        &[u64::MAX],
        &[u64::MAX],
    ),
    // Elements whose highest bit is set: they have no sign.
    (
        &[0x010000001a000000, 0xff807f0000000000],
        &[0xff, 0x80, 0x7f],
        &[0x7f80ff],
    ),
    (
        &[0x010000001b000000, 0xffff0080ff7f0000],
        &[0xffff, 0x8000, 0x7fff],
        &[0x7fff8000ffff],
    ),
    (
        &[0x0100000014000000, 0xffffffff00000080],
        &[0xffffffff, 0x80000000],
        &[0x80000000ffffffff],
    ),
];

#[test]
fn values_of_each_size(rt: HostRuntime) -> Result<(), Fail> {
    for (encoded, elements, list_words) in &VALUES {
        let held = message(rt.alloc(), &[*encoded])?;
        let view = root_of(&held)?;
        shows_elements(&rt, &view, *elements);
        shows_words(&rt, &view, *list_words);
    }
    Ok(())
}

// A number, and the word, the byte and the bit of that number in a struct's data of two words.
static DATA: [(u32, (Option<u64>, Option<u8>, Option<bool>)); 11] = [
    (0, (Some(0x0807060504030201), Some(1), Some(true))),
    (1, (Some(0x8000000000000000), Some(2), Some(false))),
    (2, (None, Some(3), Some(false))),
    (7, (None, Some(8), Some(false))),
    (8, (None, Some(0), Some(false))),
    (9, (None, Some(0), Some(true))),
    (15, (None, Some(128), Some(false))),
    (16, (None, None, Some(true))),
    (126, (None, None, Some(false))),
    (127, (None, None, Some(true))),
    (128, (None, None, None)),
];

#[test]
fn the_data_of_a_struct(rt: HostRuntime) -> Result<(), Fail> {
    let encoded = &[0x0000000002000000, 0x0102030405060708, 0x80];
    let held = message(rt.alloc(), &[encoded])?;
    let view = root_of(&held)?;
    for (i, expected) in &DATA {
        let given = (view.data_word(*i), view.byte(*i), view.bit(*i));
        same_of(&rt, i, given, *expected);
    }
    same(&rt, (view.scalar(0), view.count()), (None, None));
    Ok(())
}
