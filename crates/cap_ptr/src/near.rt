//! Objects that their pointer word describes, alone or with the tag of a list of structs.

ghost use Rattle.cap_ptr.specs.Reaching.{LeadsTo, ResolvesTo};
ghost use Rattle.cap_ptr.specs.Rows.{FindsRow, HasPointers};
ghost use Rattle.cap_ptr.specs.Shapes.{FindsTarget, HasListAt, IsPlain};
ghost use Rattle.cap_ptr.specs.declared.near.Row.{Row};
ghost use Rattle.cap_spec.specs.Following.{IsComposite, Wrong};
ghost use Rattle.cap_spec.specs.Messages.{HasWord, segment_of};
ghost use Rattle.cap_spec.specs.Pointers.{data_size, extent, kind, list_words, middle, pointer_size};
ghost use Rattle.cap_spec.specs.Words.{signed_offset_of};
ghost use Rattle.std.specs.Prelude.{◌+◌, ◌*◌, ◌≡◌, ◌≤◌, ◌==◌, ◌<◌, ◌^◌, ◌⊎◌, ◌+ℤ◌, IfErr, IfNone, IfOk, IfSome, List, if◌then◌else◌, length, pos, ℕ};

use crate::forms::{code, data_size, kind, list_size, middle, pointer_size};
use crate::shapes::{Shape, Target, is_structs, plain_shape, start_of};
use cap_frame::Segments;
use cap_spec::Reason;

/// The words of an object that its pointer word alone describes. Its pointers, if it has any, are
/// its last words.
#[derive(Clone, Copy, Debug, PartialEq, Eq, Drop)]
pub struct Row {
    /// How many words it takes: at most 2^29. It is charged just these.
    pub words: u32,
    /// Its first word, counted from 0.
    pub start: u32,
    /// Its first pointer, counted from 0, if it has any.
    pub pointers_start: u32,
    /// How many pointers it has, of one word each.
    pub pointer_count: u32,
}

/// The object that a pointer word leads to, if the word alone gives it: a struct, or a list without
/// a tag whose elements have bits (encoding: Structs, Lists). The word is word `at` of segment
/// `segment`, and that segment has `len` words. `follow` returns that object too. After `None` the
/// word leads to no such object, and `follow` says what it leads to.
#[inline(always)]
pub fn near_target(word: u64, segment: u32, at: u32, len: u32) -> Option<Target>
    ensures target { IfSome result (λ x. (m : List (List ℕ)) → HasWord m segment at word →
        length (segment_of m segment) ≡ len → FindsTarget m segment at x) }
    ensures here { IfSome result (λ x. (x.segment ≡ segment) × (x.pads ≡ 0)) }
    // The other direction: it leads to no such object.
    ensures none { IfNone result ((m : List (List ℕ)) (r : Row) → HasWord m segment at word →
        length (segment_of m segment) ≡ len → ¬ FindsRow m segment at word r) }
{
    let row = near_row(word, at, len)?;
    Some(Target {
        segment,
        start: row.start,
        words: row.words,
        pads: 0,
        charge: u64::from(row.words),
        shape: plain_shape(word),
    })
}

/// The words of the same object.
// A walk takes this: it needs no shape, and what it needs stays in registers.
#[inline(always)]
pub fn near_row(word: u64, at: u32, len: u32) -> Option<Row>
    ensures row { IfSome result (λ r. (m : List (List ℕ)) (s : ℕ) → HasWord m s at word →
        length (segment_of m s) ≡ len → FindsRow m s at word r) }
    ensures plain { IfSome result (λ r. IsPlain word) }
    // The other direction: it leads to no such object.
    ensures none { IfNone result ((m : List (List ℕ)) (s : ℕ) (r : Row) → HasWord m s at word →
        length (segment_of m s) ≡ len → ¬ FindsRow m s at word r) }
{
    if word == 0 {
        return None;
    }
    let (own, pointer_count) = parts_of(word)?;
    let start = start_of(at, word)?;
    let pointers_start = start + own;
    if pointers_start + pointer_count > u64::from(len) {
        return None;
    }
    Some(Row {
        words: (own + pointer_count) as u32,
        start: start as u32,
        pointers_start: pointers_start as u32,
        pointer_count: pointer_count as u32,
    })
}

/// Where the tag of a list of structs is, if a word describes such a list with all its words in a
/// segment (encoding: Lists). The word is word `at` of that segment, which has `len` words. With the
/// tag [`structs_target`](crate::structs_target) gives the list.
#[inline(always)]
pub fn tag_at(word: u64, at: u32, len: u32) -> Option<u32>
    ensures list { IfSome result (λ _. IsComposite word) }
    ensures start { IfSome result (λ start.
        pos start ≡ pos (at + 1) +ℤ signed_offset_of word) }
    ensures inside { IfSome result (λ start. start + extent word ≤ len) }
    // The other direction: no such list has all its words in the segment.
    ensures none { IfNone result (IsComposite word → (start : ℕ) →
        pos start ≡ pos (at + 1) +ℤ signed_offset_of word → len < start + extent word) }
{
    if !is_structs(word) {
        return None;
    }
    let start = start_of(at, word)?;
    if start + 1 + u64::from(list_size(word)) > u64::from(len) {
        return None;
    }
    Some(start as u32)
}

// How many words an object that a word alone describes has before its pointers, and how many
// pointers.
#[inline(always)]
fn parts_of(word: u64) -> Option<(u64, u64)>
    ensures words { IfSome result (λ parts. parts.0 + parts.1 ≡ extent word) }
    ensures few { IfSome result (λ parts. parts.0 + parts.1 ≤ 2 ^ 29) }
    ensures pointers { IfSome result (λ parts. HasPointers word parts.1) }
    ensures none { IfNone result ((n : ℕ) → ¬ HasPointers word n) }
{
    match kind(word) {
        0 => Some((u64::from(data_size(word)), u64::from(pointer_size(word)))),
        1 => list_parts(code(word), u64::from(list_size(word))),
        _ => None,
    }
}

// The same of a list, by its code and its size.
#[inline(always)]
fn list_parts(code: u8, size: u64) -> Option<(u64, u64)>
    requires { size < 2 ^ 29 }
    ensures words { IfSome result (λ parts. parts.0 + parts.1 ≡ list_words code size) }
    ensures few { IfSome result (λ parts. parts.0 + parts.1 ≤ size) }
    ensures pointers { IfSome result (λ parts. ((code ≡ 6) × (parts.1 ≡ size))
        ⊎ ((0 < code) × (code < 6) × (parts.1 ≡ 0))) }
    ensures none { IfNone result ((code ≡ 0) ⊎ (6 < code)) }
{
    // Bytes come first: most lists are texts or data.
    if code == 2 {
        return Some(((size + 7) / 8, 0));
    }
    let bits = match code {
        1 => 1,
        3 => 16,
        4 => 32,
        5 => 64,
        6 => return Some((0, size)),
        _ => return None,
    };
    Some(((bits * size + 63) / 64, 0))
}

/// The list of structs that a pointer word describes with this tag, where the list starts at this
/// place, over some pads (encoding: Lists). Its words have to lie inside their segment, the tag at
/// the start: [`tag_at`](crate::tag_at) says so of a word without pads.
///
/// # Errors
///
/// - [`Reason::CompositeTag`]: the tag isn't laid out as a struct pointer.
/// - [`Reason::CompositeOverrun`]: the elements take more words than the list has.
// It is inlined, so that in a walk's loop the result stays in registers.
#[inline(always)]
pub fn structs_target(
    word: u64,
    tag: u64,
    segment: u32,
    start: u32,
    pads: u8,
) -> Result<Target, Reason>
    ensures ok { (m : List (List ℕ)) (s w : ℕ) → HasListAt m segment start word tag → pads ≤ 2 →
        LeadsTo m s w pads segment start word → IfOk result (FindsTarget m s w) }
    ensures pads { IfOk result (λ x. x.pads ≡ pads) }
    ensures err { (m : List (List ℕ)) (s w : ℕ) → HasListAt m segment start word tag →
        LeadsTo m s w pads segment start word → IfErr result (Wrong m s w) }
{
    let words = list_size(word);
    if kind(tag) != 0 {
        return Err(Reason::CompositeTag);
    }
    if words_of_elements(tag) > u64::from(words) {
        return Err(Reason::CompositeOverrun);
    }
    Ok(Target {
        segment,
        start,
        words: 1 + words,
        pads,
        charge: u64::from(pads) + 1 + u64::from(words) + u64::from(empty_structs(tag)),
        shape: Shape::Structs {
            words,
            count: middle(tag),
            data_words: data_size(tag),
            pointers: pointer_size(tag),
        },
    })
}

/// The list of structs that this word and the list's tag describe (encoding: Lists). The word is the
/// pointer word or, after a landing pad, the word that gives its sizes. It is at this place. `pads` is
/// the number of words of the landing pad. `None` if the word or the tag describes none: [`crate::follow`] then says where the pointer leads.
#[inline(always)]
pub fn struct_list<M: Segments>(
    message: &M,
    pads: u8,
    segment: u32,
    at: u32,
    word: u64,
) -> Option<Target>
    requires exists { segment < length (M.segments message.now) }
    requires pads { pads ≤ 2 }
    ensures list { IfSome result (λ _. kind word ≡ 1) }
    ensures over { IfSome result (λ x. x.pads ≡ pads) }
    ensures found { let m = M.segments message.now in (s w : ℕ) →
        ResolvesTo m s w pads segment at word → IfSome result (FindsTarget m s w) }
{
    let start = tag_at(word, at, message.len(segment))?;
    match structs_target(word, message.word(segment, start), segment, start, pads) {
        Ok(list) => Some(list),
        Err(_) => None,
    }
}

/// How many words the elements take that a tag gives (encoding: Lists).
#[inline(always)]
pub fn words_of_elements(tag: u64) -> u64
    ensures { result ≡ middle tag * (data_size tag + pointer_size tag) }
{
    let each = u64::from(data_size(tag)) + u64::from(pointer_size(tag));
    u64::from(middle(tag)) * each
}

// How many elements a tag gives that have no words.
#[inline(always)]
fn empty_structs(tag: u64) -> u32
    ensures value { result ≡ (if data_size tag + pointer_size tag == 0 then middle tag else 0) }
    ensures within { result ≤ middle tag }
{
    if data_size(tag) == 0 && pointer_size(tag) == 0 {
        middle(tag)
    } else {
        0
    }
}
