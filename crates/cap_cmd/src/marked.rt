//! An output that puts a mark into each line.

ghost use Rattle.cap_cmd.specs.Marking.{IsPiece, next_column, shown_text};
ghost use Rattle.std.specs.Io.KnownBytes.{Appends, Keeps};
ghost use Rattle.std.specs.Prelude.{◌+◌, ◌<◌, ◌≡◌, ◌≢◌, ◌≤◌, [], IfOk, IsErrOf, List, OnErr, OnOk, Some, length, take, true, vec_len, ℕ};

use cap_words::{ByteOut, OutFault};

// The column of the byte after this one.
fn next_column(place: u8, column: u16, byte: u8) -> u16
    ensures { result ≡ next_column place column byte }
{
    if byte == b'\n' {
        0
    } else if u16::from(place) < column {
        column
    } else {
        column + 1
    }
}

// How many of the bytes are of the line that they begin with, its line feed too.
fn line_length(bytes: &[u8]) -> usize
    ensures within { result ≤ length bytes.now }
    ensures some { 0 < length bytes.now → 0 < result }
    ensures piece { (n : ℕ) → n < result → IsPiece (take n bytes.now) }
{
    let mut count = 0;
    while count < bytes.len() {
        if bytes[count] == b'\n' {
            return count + 1;
        }
        count += 1;
    }
    count
}

/// Passes lines on to an output, each with a mark in it. The mark comes in front of the byte of the
/// line at a place: at 0 it is in front of the line. A line without that byte has no mark.
#[derive(Drop)]
pub struct MarkedLines<O> {
    out: O,
    mark: Vec<u8>,
    place: u8,
    // the column of the next byte in its line, or one past `place` for all after the mark
    column: u16,
    // how many bytes of the next mark were written
    done: usize,
    ghost within: { done ≤ vec_len mark },
}

impl<O: ByteOut> MarkedLines<O> {
    ghost use Rattle.cap_cmd.specs.Marked.{Finishes, IsFresh, mark_part, marked_out, shown_by};
    ghost use Rattle.cap_cmd.specs.declared.marked.MarkedLines.{MarkedLines};

    /// Begins with a line. The mark comes in front of the byte of each line at `place`.
    pub fn new(out: O, mark: Vec<u8>, place: u8) -> MarkedLines<O>
        ensures out { marked_out result ≡ out }
        ensures fresh { IsFresh result mark.items place }
        ensures shows_written { (s : MarkedLines O) →
            ⟦<MarkedLines<O> as ByteOut>⟧.written s ≡ shown_by O.ByteOut s }
        ensures shows_failures { (s : MarkedLines O) →
            ⟦<MarkedLines<O> as ByteOut>⟧.failures s ≡ O.failures (marked_out s) }
        ensures shows_broken { (s : MarkedLines O) →
            ⟦<MarkedLines<O> as ByteOut>⟧.broken s ≡ O.broken (marked_out s) }
    {
        MarkedLines {
            out,
            mark,
            place,
            column: 0,
            done: 0,
        }
    }

    /// Whether no part of a mark was written without the byte that it comes in front of.
    pub fn is_whole(&self) -> bool
        ensures whole { result ≡ true → mark_part self.now ≡ 0 }
        ensures only { mark_part self.now ≡ 0 → result ≡ true }
    {
        self.done == 0
    }

    /// Gives the output back as it is.
    pub fn into_inner(self) -> O
        ensures { result ≡ marked_out self }
    {
        self.out
    }

    // Writes what is left of the next mark.
    fn finish_mark(&mut self) -> Result<(), OutFault>
        requires { self.old.column ≡ self.old.place }
        ensures { Finishes O.ByteOut self.old self.new result }
    {
        while self.done < self.mark.len() {
            match self.out.write(&self.mark.as_slice()[self.done..]) {
                Ok(count) => self.done += count,
                Err(fault) => return Err(fault),
            }
        }
        Ok(())
    }
}

impl<O: ByteOut> ByteOut for MarkedLines<O> {
    ghost written = { λ s. shown_text s.place s.mark.items s.column s.done (O.written s.out) };

    ghost failures = { λ s. O.failures s.out };

    ghost broken = { λ s. O.broken s.out };

    fn write(&mut self, buf: &[u8]) -> Result<usize, OutFault> {
        if buf.is_empty() {
            return Ok(0);
        }
        if self.column == u16::from(self.place) {
            if let Err(fault) = self.finish_mark() {
                return Err(fault);
            }
        }
        let most = if self.column < u16::from(self.place) {
            1
        } else {
            line_length(buf)
        };
        match self.out.write(&buf[..most]) {
            Ok(count) => {
                self.column = next_column(self.place, self.column, buf[count - 1]);
                self.done = 0;
                Ok(count)
            }
            Err(fault) => Err(fault),
        }
    }

    fn flush(&mut self) -> Result<(), OutFault> {
        self.out.flush()
    }
}
