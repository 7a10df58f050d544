//! The lines of a hash.

ghost use Rattle.cap_text.specs.HashLines.{digest_text, hash_text, no_form_text};
ghost use Rattle.cap_text.specs.Writing.{Writes};
ghost use Rattle.std.specs.Prelude.{◌≡◌};

use crate::page::{Page, begin_message, write_bytes};
use crate::verdict::push_place;
use cap_buffer::HASH;
use cap_words::{ByteOut, OutFault};

/// Begins the page with the line of an accepted message: the hash of its canonical words.
fn hash_line(page: &mut Page, number: u32, hash: &[u8; HASH])
    ensures { page.new ≡ hash_text number hash.now }
{
    begin_message(page, number);
    page.push_text(b"sha256 ");
    page.push_hash(hash);
    page.push_text(b"\n");
}

/// Begins the page with the hash of canonical words alone, as a line.
fn digest_line(page: &mut Page, hash: &[u8; HASH])
    ensures { page.new ≡ digest_text hash.now }
{
    page.clear();
    page.push_hash(hash);
    page.push_text(b"\n");
}

/// Begins the page with the line of an accepted message that has no canonical form.
fn no_form_line(page: &mut Page, number: u32, segment: u32, word: u32)
    ensures { page.new ≡ no_form_text number segment word }
{
    begin_message(page, number);
    page.push_text(b"no canonical form, capability");
    push_place(page, segment, word);
    page.push_text(b"\n");
}

/// Writes the line of message `number`, which is accepted: the SHA-256 of the bytes of its canonical
/// words (docs/output.md, hash). What the page held before isn't written.
///
/// # Errors
///
/// The error of the output, which took a prefix of the line.
pub fn write_hash<O: ByteOut>(
    page: &mut Page,
    out: &mut O,
    number: u32,
    hash: &[u8; 32],
) -> Result<(), OutFault>
    ensures { Writes O.ByteOut out.old out.new result (hash_text number hash.now) }
{
    hash_line(page, number, hash);
    write_bytes(out, page.text())
}

/// Writes a line with nothing but the SHA-256 of the bytes of a message's canonical words
/// (docs/output.md, hash). What the page held before isn't written.
///
/// # Errors
///
/// The error of the output, which took a prefix of the line.
pub fn write_digest<O: ByteOut>(
    page: &mut Page,
    out: &mut O,
    hash: &[u8; 32],
) -> Result<(), OutFault>
    ensures { Writes O.ByteOut out.old out.new result (digest_text hash.now) }
{
    digest_line(page, hash);
    write_bytes(out, page.text())
}

/// Writes the line of message `number`, which is accepted and has no canonical form, with the place of
/// its first capability (docs/output.md, hash). What the page held before isn't written.
///
/// # Errors
///
/// The error of the output, which took a prefix of the line.
pub fn write_no_form<O: ByteOut>(
    page: &mut Page,
    out: &mut O,
    number: u32,
    segment: u32,
    word: u32,
) -> Result<(), OutFault>
    ensures { Writes O.ByteOut out.old out.new result (no_form_text number segment word) }
{
    no_form_line(page, number, segment, word);
    write_bytes(out, page.text())
}
