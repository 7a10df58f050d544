//! The text of a message's segments: their number and sizes, and the root word.

ghost use Rattle.cap_frame.specs.Outlines.{root_in, sizes_in};
ghost use Rattle.cap_spec.specs.Texts.{hex, line as plain_line, message_text, outline_text, root_text, segment_lines, then_number};
ghost use Rattle.cap_text.specs.Paging.{Adds};
ghost use Rattle.cap_text.specs.Writing.{Writes};
ghost use Rattle.std.specs.Prelude.{◌+◌, ◌++◌, ◌≡◌, ◌≤◌, ◌∷◌, codes, length};

use crate::page::{CAPACITY, LINE, Page, begin_message, make_space, write_page};
use cap_frame::Outline;
use cap_words::{ByteOut, OutFault};

/// Begins the page with the line on the message as a whole.
fn head_line(page: &mut Page, number: u32, count: u32, words: u64)
    ensures { page.new ≡ message_text number
        (codes "segments" ++ then_number count ++ codes " words" ++ then_number words) }
{
    begin_message(page, number);
    page.push_named(b"segments ", u64::from(count));
    page.push_named(b" words ", words);
    page.push_text(b"\n");
}

/// Appends the line of segment `s`, which has `words` words.
fn segment_line(page: &mut Page, s: u32, words: u32)
    requires { length page.old + LINE ≤ CAPACITY }
    ensures { page.new ≡ page.old
        ++ plain_line 0 (codes "segment" ++ then_number s ++ 58 ∷ then_number words) }
{
    page.push_named(b"segment ", u64::from(s));
    page.push_named(b": ", u64::from(words));
    page.push_text(b"\n");
}

/// Appends the line for a message without a root word.
fn rootless_line(page: &mut Page)
    requires { length page.old + LINE ≤ CAPACITY }
    ensures { page.new ≡ page.old ++ plain_line 0 (codes "root " ++ codes "none") }
{
    page.push_text(b"root none\n");
}

/// Appends the line of a root word.
fn word_line(page: &mut Page, word: u64)
    requires { length page.old + LINE ≤ CAPACITY }
    ensures { page.new ≡ page.old ++ plain_line 0 (codes "root " ++ hex word) }
{
    page.push_text(b"root ");
    page.push_hex(word);
    page.push_text(b"\n");
}

/// Appends the line of the root word, or of its absence.
fn root_line(page: &mut Page, root: Option<u64>)
    requires { length page.old + LINE ≤ CAPACITY }
    ensures { page.new ≡ page.old ++ plain_line 0 (codes "root " ++ root_text root) }
{
    match root {
        Some(word) => word_line(page, word),
        None => rootless_line(page),
    }
}

/// Puts on a page the line of each segment. If the page has no space for a line, it is written and
/// cleared first. After an error the output took a prefix of the page's old text and these lines.
fn put_segment_lines<O: ByteOut>(
    page: &mut Page,
    out: &mut O,
    outline: &Outline,
) -> Result<(), OutFault>
    ensures { Adds O.ByteOut (out.old, page.old) (out.new, page.new) result
        (segment_lines 0 (sizes_in outline.now)) }
{
    let sizes = outline.sizes();
    for s in 0..outline.count() {
        match make_space(page, out) {
            Ok(()) => segment_line(page, s, sizes[s as usize]),
            Err(fault) => return Err(fault),
        }
    }
    Ok(())
}

/// Puts on a page the line of the root word. If the page has no space for a line, it is written and
/// cleared first. After an error the output took a prefix of the page's old text and this line.
fn put_root_line<O: ByteOut>(
    page: &mut Page,
    out: &mut O,
    root: Option<u64>,
) -> Result<(), OutFault>
    ensures { Adds O.ByteOut (out.old, page.old) (out.new, page.new) result
        (plain_line 0 (codes "root " ++ root_text root)) }
{
    match make_space(page, out) {
        Ok(()) => {
            root_line(page, root);
            Ok(())
        }
        Err(fault) => Err(fault),
    }
}

/// Writes the segments of message `number`: their number and sizes, and the root word
/// (docs/output.md, segments). What the page held before isn't written.
///
/// # Errors
///
/// The error of the output, which took a prefix of the text.
pub fn write_segments<O: ByteOut>(
    page: &mut Page,
    out: &mut O,
    number: u32,
    outline: &Outline,
) -> Result<(), OutFault>
    ensures { Writes O.ByteOut out.old out.new result
        (outline_text number (sizes_in outline.now) (root_in outline.now)) }
{
    head_line(page, number, outline.count(), outline.words());
    match put_segment_lines(page, out, outline) {
        Ok(()) => {}
        Err(fault) => return Err(fault),
    }
    match put_root_line(page, out, outline.root()) {
        Ok(()) => write_page(page, out),
        Err(fault) => Err(fault),
    }
}
