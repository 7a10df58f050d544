//! How much of structs, alone or in a list, a canonical copy has.

ghost use Rattle.cap_explain.specs.CopyWords.{are_empty, data_left, elements, is_empty, is_null_pointer, pointers_left, row_of, words_left};
ghost use Rattle.cap_explain.specs.Leading.{word_of};
ghost use Rattle.std.specs.Prelude.{◌+◌, ◌*◌, ◌^◌, ◌<◌, ◌≡◌, ◌≤◌, IfSome};

use crate::landing::{Landing, landing_of};
use crate::target::{Target, list_tag};
use crate::words::word_of;
use cap_frame::Segments;
use cap_ptr::{data_size, kind, middle, pointer_size};

/// Structs of one size in a row: a target, or the elements of a list.
#[derive(Clone, Copy, Drop)]
pub(crate) struct Row {
    /// Counted from 0.
    pub(crate) segment: u32,
    /// The first word of the first of them.
    pub(crate) first: u64,
    pub(crate) count: u32,
    pub(crate) data_words: u16,
    pub(crate) pointers: u16,
}

/// A pointer word denotes null: it is zero, or the landing pad that it leads to is (encoding:
/// Inter-Segment Pointers).
pub(crate) fn is_null_pointer<M: Segments>(message: &M, word: u64) -> bool
    ensures { result ≡ is_null_pointer (M.segments message.now) word }
{
    if word == 0 {
        return true;
    }
    match landing_of(message, word) {
        Landing::One { word: only } => only == 0,
        _ => false,
    }
}

/// A copy may leave out this word at the end of its section.
fn is_empty<M: Segments>(message: &M, as_pointer: bool, word: Option<u64>) -> bool
    ensures { result ≡ is_empty (M.segments message.now) as_pointer word }
{
    match word {
        Some(word) => {
            if as_pointer {
                is_null_pointer(message, word)
            } else {
                word == 0
            }
        }
        None => false,
    }
}

/// The word of struct `index` of a row is so that lies there as word `at` does in the first of them.
fn is_empty_in<M: Segments>(message: &M, row: Row, as_pointer: bool, at: u64, index: u32) -> bool
    requires { at < 2 ^ 36 }
    ensures { let m = M.segments message.now in result ≡ is_empty m as_pointer
        (word_of m row.segment (at + index * (row.data_words + row.pointers))) }
{
    let each = u64::from(row.data_words) + u64::from(row.pointers);
    let word = word_of(message, row.segment, at + u64::from(index) * each);
    is_empty(message, as_pointer, word)
}

/// The words of all structs of a row are so that lie as word `at` does in the first of them.
fn are_empty<M: Segments>(message: &M, row: Row, as_pointer: bool, at: u64) -> bool
    requires { at < 2 ^ 36 }
    ensures { result ≡ are_empty (M.segments message.now) as_pointer row.segment at
        (row.data_words + row.pointers) row.count }
{
    let mut left = row.count;
    while left > 0 {
        left -= 1;
        if !is_empty_in(message, row, as_pointer, at, left) {
            return false;
        }
    }
    true
}

/// How many of the first `count` words of each struct are left, from word `at` of the first of them on,
/// when those at the end are cut.
fn words_left<M: Segments>(message: &M, row: Row, as_pointer: bool, at: u64, count: u16) -> u16
    requires { at < 2 ^ 35 }
    ensures value { result ≡ words_left (M.segments message.now) row as_pointer at count }
    ensures few { result ≤ count }
{
    let mut left = count;
    while left > 0 {
        if !are_empty(message, row, as_pointer, at + u64::from(left - 1)) {
            return left;
        }
        left -= 1;
    }
    0
}

/// How many data words a copy has of each struct of a row.
pub(crate) fn data_left<M: Segments>(message: &M, row: Row) -> u16
    requires { row.first < 2 ^ 35 }
    ensures { result ≡ data_left (M.segments message.now) row }
{
    words_left(message, row, false, row.first, row.data_words)
}

/// How many pointers a copy has of each struct of a row.
pub(crate) fn pointers_left<M: Segments>(message: &M, row: Row) -> u16
    requires { row.first + 2 ^ 16 < 2 ^ 35 }
    ensures { result ≡ pointers_left (M.segments message.now) row }
{
    let first = row.first + u64::from(row.data_words);
    words_left(message, row, true, first, row.pointers)
}

/// The structs of a list, by its tag.
fn elements(target: &Target, tag: Option<u64>) -> Option<Row>
    requires { target.now.start < 2 ^ 34 }
    ensures row { result ≡ elements target.now tag }
    ensures near { IfSome result (λ row. row.first ≤ 2 ^ 34) }
{
    match tag {
        Some(tag) => Some(Row {
            segment: target.segment,
            first: target.start.saturating_sub(u64::from(target.excess)) + 1,
            count: middle(tag),
            data_words: data_size(tag),
            pointers: pointer_size(tag),
        }),
        None => None,
    }
}

/// The structs of a target: itself, or those of a list.
pub(crate) fn row_of<M: Segments>(message: &M, target: &Target) -> Option<Row>
    requires { target.now.start < 2 ^ 34 }
    ensures row { result ≡ row_of (M.segments message.now) target.now }
    ensures near { IfSome result (λ row. row.first ≤ 2 ^ 34) }
{
    if kind(target.word) != 0 {
        return elements(target, list_tag(message, target));
    }
    Some(Row {
        segment: target.segment,
        first: target.start.saturating_sub(u64::from(target.excess)),
        count: 1,
        data_words: data_size(target.word),
        pointers: pointer_size(target.word),
    })
}
