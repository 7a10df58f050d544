//! The line of a node of a message's tree, and the lines of its own words.

ghost use Rattle.cap_spec.specs.Showing.{kind_of, words_of_own};
ghost use Rattle.cap_spec.specs.SpotTrees.{DenotesAt};
ghost use Rattle.cap_spec.specs.Texts.{hex, label, own_text, word_lines};
ghost use Rattle.cap_spec.specs.Tree.{Tree};
ghost use Rattle.cap_text.specs.Dumping.{head_of, word_letter_of};
ghost use Rattle.cap_text.specs.Paging.{Adds};
ghost use Rattle.cap_vet.specs.Views.{node_message, node_spot, shown};
ghost use Rattle.std.specs.Prelude.{◌*◌, ◌+◌, ◌++◌, ◌<◌, ◌≡◌, ◌≤◌, ◌∷◌, [], length, replicate};

use crate::page::{CAPACITY, LINE, Page, make_space};
use cap_frame::Segments;
use cap_vet::{Kind, Node, View};
use cap_words::{ByteOut, OutFault};

/// The deepest level of a line. A node has level 256 at most, the deepest that a message may have,
/// and the root has level 0. The words of a node have one level more than the node.
const DEEPEST: usize = 257;

/// The most spaces before a line, two for each level.
const INDENT: usize = 2 * DEEPEST;

/// The space for the head of a node: its kind and three numbers.
const HEAD: usize = 80;

/// The most bytes of a node's name.
const NAME: usize = 32;

static SPACES: [u8; INDENT] = [b' '; INDENT];

/// Appends the head of a node of a kind.
#[inline(always)]
fn push_head(page: &mut Page, kind: Kind)
    requires { length page.old + HEAD ≤ CAPACITY }
    ensures items { page.new ≡ page.old ++ head_of kind }
    ensures few { length page.new ≤ length page.old + HEAD }
{
    match kind {
        Kind::Null => page.push_text(b"null"),
        Kind::Cap { index } => page.push_named(b"cap ", u64::from(index)),
        Kind::Struct {
            data_words,
            pointers,
        } => {
            page.push_named(b"struct ", u64::from(data_words));
            page.push_named(b" ", u64::from(pointers));
        }
        Kind::Scalars { code, count } => {
            page.push_named(b"list ", u64::from(code));
            page.push_named(b" ", u64::from(count));
        }
        Kind::Pointers { count } => page.push_named(b"pointers ", u64::from(count)),
        Kind::Structs {
            count,
            data_words,
            pointers,
        } => {
            page.push_named(b"structs ", u64::from(count));
            page.push_named(b" ", u64::from(data_words));
            page.push_named(b" ", u64::from(pointers));
        }
    }
}

/// Appends the line of a node under a name.
#[inline(always)]
fn named_line(page: &mut Page, name: &[u8], kind: Kind)
    requires short { length name.now ≤ NAME }
    requires fits { length page.old + LINE ≤ CAPACITY }
    ensures { page.new ≡ page.old ++ (name.now ++ 32 ∷ head_of kind ++ 10 ∷ []) }
{
    page.push_text(name);
    page.push_text(b" ");
    push_head(page, kind);
    page.push_text(b"\n");
}

/// The spaces before a line at a level.
#[inline(always)]
fn spaces(level: u32) -> &'static [u8]
    requires { level ≤ DEEPEST }
    ensures { result.now ≡ replicate (2 * level) 32 }
{
    &SPACES[..2 * level as usize]
}

/// Begins a line at a level, with its spaces.
#[inline(always)]
fn begin_line(page: &mut Page, level: u32)
    requires low { level ≤ DEEPEST }
    requires fits { length page.old + LINE ≤ CAPACITY }
    ensures items { page.new ≡ page.old ++ replicate (2 * level) 32 }
    ensures few { length page.new ≤ length page.old + INDENT }
{
    page.push_text(spaces(level));
}

/// Appends at a level the line of a child, by its letter and number.
fn child_line(page: &mut Page, level: u32, letter: u8, i: u32, kind: Kind)
    requires low { level ≤ DEEPEST }
    requires fits { length page.old + LINE ≤ CAPACITY }
    ensures { page.new ≡ page.old
        ++ (replicate (2 * level) 32 ++ (label letter i ++ 32 ∷ head_of kind ++ 10 ∷ [])) }
{
    begin_line(page, level);
    page.push_named(&[letter], u64::from(i));
    page.push_text(b" ");
    push_head(page, kind);
    page.push_text(b"\n");
}

/// Appends at a level the line of a node's own word, by its letter and number.
#[inline(always)]
fn word_line(page: &mut Page, level: u32, letter: u8, i: u32, word: u64)
    requires low { level ≤ DEEPEST }
    requires fits { length page.old + LINE ≤ CAPACITY }
    ensures { page.new ≡ page.old
        ++ (replicate (2 * level) 32 ++ (label letter i ++ 32 ∷ hex word ++ 10 ∷ [])) }
{
    begin_line(page, level);
    page.push_named(&[letter], u64::from(i));
    page.push_text(b" ");
    page.push_hex(word);
    page.push_text(b"\n");
}

/// Puts on a page the lines of a node's own words at a level. If the page has no space for a line,
/// it is written and cleared first. After an error the output took a prefix of the page's old text
/// and these lines.
#[inline(always)]
fn put_words<M: Segments, O: ByteOut>(
    page: &mut Page,
    out: &mut O,
    level: u32,
    letter: u8,
    view: &View<'_, M>,
) -> Result<(), OutFault>
    requires { level ≤ DEEPEST }
    ensures { Adds O.ByteOut (out.old, page.old) (out.new, page.new) result
        (word_lines level letter 0 (words_of_own (shown view.now))) }
{
    let mut i = 0;
    while let Some(word) = view.data_word(i) {
        match make_space(page, out) {
            Ok(()) => {}
            Err(fault) => return Err(fault),
        }
        word_line(page, level, letter, i, word);
        i += 1;
    }
    Ok(())
}

/// Puts on a page, at a level, the lines of the own words of a node of this kind. Structs and lists
/// of values have some. If the page has no space for a line, it is written and cleared first. After
/// an error the output took a prefix of the page's old text and these lines.
// The kind is looked at here, and not at each word.
#[inline(always)]
fn put_own<M: Segments, O: ByteOut>(
    page: &mut Page,
    out: &mut O,
    level: u32,
    kind: Kind,
    view: &View<'_, M>,
) -> Result<(), OutFault>
    requires low { level ≤ DEEPEST }
    requires kind { kind ≡ kind_of (shown view.now) }
    ensures { Adds O.ByteOut (out.old, page.old) (out.new, page.new) result
        (word_lines level (word_letter_of kind) 0 (words_of_own (shown view.now))) }
{
    match kind {
        Kind::Struct { .. } => put_words(page, out, level, b'd', view),
        Kind::Scalars { .. } => put_words(page, out, level, b'w', view),
        _ => Ok(()),
    }
}

/// Puts on a page the line of a node under a name, and one level deeper the lines of its own words.
/// These are the data words of a struct, or the words of a list's values with zeros in unused bits.
/// If the page has no space for a line, it is written and cleared first. After an error the output
/// took a prefix of the page's old text and these lines. Allocates nothing.
// It is inlined, and so is what it calls: a stream may have millions of messages with a few lines
// each.
#[inline(always)]
pub(crate) fn put_node<M: Segments, O: ByteOut>(
    page: &mut Page,
    out: &mut O,
    name: &[u8],
    node: &Node<'_, M>,
) -> Result<(), OutFault>
    requires { length name.now ≤ NAME }
    ensures { (t : Tree) → DenotesAt (M.segments (node_message node.now)) (node_spot node.now) t →
        Adds O.ByteOut (out.old, page.old) (out.new, page.new) result (own_text 0 name.now t) }
{
    match make_space(page, out) {
        Ok(()) => {
            let view = node.view();
            let kind = view.kind();
            named_line(page, name, kind);
            put_own(page, out, 1, kind, &view)
        }
        Err(fault) => Err(fault),
    }
}

/// Puts on a page, at a level, the line of a child by its letter and number. The lines of its own
/// words follow one level deeper. If the page has no space for a line, it is written and cleared
/// first. After an error the output took a prefix of the page's old text and these lines.
///
/// It isn't inlined, so that its stack frame isn't part of each frame of a recursion that calls it.
#[inline(never)]
pub(crate) fn put_child<M: Segments, O: ByteOut>(
    page: &mut Page,
    out: &mut O,
    level: u32,
    letter: u8,
    i: u32,
    node: &Node<'_, M>,
) -> Result<(), OutFault>
    requires { level < DEEPEST }
    ensures { (t : Tree) → DenotesAt (M.segments (node_message node.now)) (node_spot node.now) t →
        Adds O.ByteOut (out.old, page.old) (out.new, page.new) result
        (own_text level (label letter i) t) }
{
    let view = node.view();
    let kind = view.kind();
    match make_space(page, out) {
        Ok(()) => {
            child_line(page, level, letter, i, kind);
            put_own(page, out, level + 1, kind, &view)
        }
        Err(fault) => Err(fault),
    }
}
