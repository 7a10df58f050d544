//! Runs over devices that give and take few bytes a call, each of their calls failing in turn.

use crate::same::same_of;
use crate::whole::{Ran, job, run_in_pieces, run_over};
use cap_cmd::Job;
use std::io::ErrorKind;
use std::process::Abort;
use std::test::Fail;
use test_support::{Fault, HONEST, PIECES, READ_FAULTS, WRITE_FAULTS};

// A command with its options, its input, and the line of a read that fails, by how many bytes were
// given before it.
struct Row {
    command: &'static str,
    options: &'static [&'static str],
    stream: &'static str,
    lines: &'static [(usize, &'static str)],
}

// A list of three bits, a word that is no pointer, and two pointers to one struct.
const MESSAGES: &str = "\
    00000000020000000100000019000000ffffffffffffffff\
    00000000010000000700000005000000\
    00000000040000000000000000000200040000000100000000000000010000000700000000000000";

const LINES: &[(usize, &str)] = &[
    (0, "capvet: message 0: Device\n"),
    (24, "capvet: message 1: Device\n"),
    (40, "capvet: message 2: Device\n"),
    (80, "capvet: message 3: Device\n"),
];

// The second of them.
const RESERVED: &str = "00000000010000000700000005000000";

const LINES_RESERVED: &[(usize, &str)] = &[
    (0, "capvet: message 0: Device\n"),
    (16, "capvet: message 1: Device\n"),
];

const MESSAGES_PACKED: &str = "1002110119ffffffffffffffffff0010011107051004400211040110010107";

const LINES_PACKED: &[(usize, &str)] = &[
    (0, "capvet: message 0: Device\n"),
    (15, "capvet: message 1: Device\n"),
    (20, "capvet: message 2: Device\n"),
    (31, "capvet: message 3: Device\n"),
];

// The first and the last of them, which have canonical copies.
const COPIED: &str =
    "00000000020000000100000019000000ffffffffffffffff00000000040000000000000000000200040000000100000000000000010000000700000000000000";

const LINES_COPIED: &[(usize, &str)] = &[
    (0, "capvet: message 0: Device\n"),
    (24, "capvet: message 1: Device\n"),
    (64, "capvet: message 2: Device\n"),
];

const COPIED_PACKED: &str = "1002110119ffffffffffffffffff001004400211040110010107";

const LINES_COPIED_PACKED: &[(usize, &str)] = &[
    (0, "capvet: message 0: Device\n"),
    (15, "capvet: message 1: Device\n"),
    (26, "capvet: message 2: Device\n"),
];

// Words of each kind of group, and their packed text.
const WORDS: &str =
    "0800000003000200616161616161616161626364656667000000000000000000000000000000000019000000aa010000";

const GROUPS: &str = "51080302ff616161616161616101616263646566670000013119aa01";

const NO_MESSAGE: &[(usize, &str)] = &[(0, "capvet: Device\n")];

static ROWS: [Row; 20] = [
    Row {
        command: "segments",
        options: &[],
        stream: MESSAGES,
        lines: LINES,
    },
    Row {
        command: "segments",
        options: &["--packed"],
        stream: MESSAGES_PACKED,
        lines: LINES_PACKED,
    },
    Row {
        command: "vet",
        options: &[],
        stream: MESSAGES,
        lines: LINES,
    },
    Row {
        command: "vet",
        options: &["--packed"],
        stream: MESSAGES_PACKED,
        lines: LINES_PACKED,
    },
    Row {
        command: "vet",
        options: &["--exclusive"],
        stream: MESSAGES,
        lines: LINES,
    },
    Row {
        command: "vet",
        options: &["--exclusive", "--packed"],
        stream: MESSAGES_PACKED,
        lines: LINES_PACKED,
    },
    Row {
        command: "explain",
        options: &[],
        stream: RESERVED,
        lines: LINES_RESERVED,
    },
    Row {
        command: "dump",
        options: &[],
        stream: MESSAGES,
        lines: LINES,
    },
    Row {
        command: "dump",
        options: &["--packed"],
        stream: MESSAGES_PACKED,
        lines: LINES_PACKED,
    },
    Row {
        command: "get",
        options: &["/"],
        stream: MESSAGES,
        lines: LINES,
    },
    Row {
        command: "get",
        options: &["/", "--packed"],
        stream: MESSAGES_PACKED,
        lines: LINES_PACKED,
    },
    Row {
        command: "check",
        options: &[],
        stream: MESSAGES,
        lines: LINES,
    },
    Row {
        command: "check",
        options: &["--packed"],
        stream: MESSAGES_PACKED,
        lines: LINES_PACKED,
    },
    Row {
        command: "canon",
        options: &[],
        stream: MESSAGES,
        lines: LINES,
    },
    Row {
        command: "canon",
        options: &[],
        stream: COPIED,
        lines: LINES_COPIED,
    },
    Row {
        command: "canon",
        options: &["--packed"],
        stream: COPIED_PACKED,
        lines: LINES_COPIED_PACKED,
    },
    Row {
        command: "filter",
        options: &[],
        stream: COPIED,
        lines: LINES_COPIED,
    },
    Row {
        command: "filter",
        options: &["--packed"],
        stream: COPIED_PACKED,
        lines: LINES_COPIED_PACKED,
    },
    Row {
        command: "pack",
        options: &[],
        stream: WORDS,
        lines: NO_MESSAGE,
    },
    Row {
        command: "unpack",
        options: &[],
        stream: GROUPS,
        lines: NO_MESSAGE,
    },
];

// Reads that fail: the device isn't called again, the output is that of the bytes given before, and the
// line and the status are those of the fault.
fn expect_read_faults<R: AllocGlobal + Abort>(
    rt: &R,
    row: &Row,
    job: &Job,
    bytes: &[u8],
    buffered: bool,
    most: usize,
    kind: ErrorKind,
    reads: u32,
) -> Result<(), Fail> {
    for at in 1..=reads {
        let reading = Fault {
            at,
            kind: Some(kind),
        };
        let ran = run_in_pieces(rt.alloc(), job, bytes, buffered, most, reading, HONEST)?;
        same_of(rt, &row.command, ran.reads, at);
        let before = run_over(rt.alloc(), job, &bytes[..ran.given.min(bytes.len())])?;
        let line = line_of(row, ran.given).as_bytes();
        ran.expect(rt, row.command, before.taken.as_slice(), line, 3);
    }
    Ok(())
}

// The line of a read that fails after `given` bytes.
fn line_of(row: &Row, given: usize) -> &'static str {
    let mut line = "";
    for (from, text) in row.lines {
        if *from <= given {
            line = *text;
        }
    }
    line
}

// Writes and flushes that fail: the device isn't called again, and what it took is a beginning of the
// text, no shorter than where an earlier call failed.
fn expect_write_faults<R: AllocGlobal + Abort>(
    rt: &R,
    row: &Row,
    job: &Job,
    bytes: &[u8],
    most: usize,
    kind: Option<ErrorKind>,
    honest: &Ran,
) -> Result<(), Fail> {
    let mut least = 0;
    for at in 1..=honest.writes {
        let writing = Fault { at, kind };
        let ran = run_in_pieces(rt.alloc(), job, bytes, false, most, HONEST, writing)?;
        same_of(rt, &row.command, ran.writes, at);
        let len = ran.taken.len();
        assert!(rt;
            least <= len && len <= honest.taken.len(),
            "{}",
            row.command
        );
        least = len;
        let front = &honest.taken.as_slice()[..len.min(honest.taken.len())];
        ran.expect(rt, row.command, front, b"capvet: output failed\n", 3);
    }
    Ok(())
}

// A run over devices that never fail, which is as that over whole bytes.
fn expect_honest<R: AllocGlobal + Abort>(
    rt: &R,
    row: &Row,
    job: &Job,
    bytes: &[u8],
    buffered: bool,
    most: usize,
) -> Result<Ran, Fail> {
    let whole = run_over(rt.alloc(), job, bytes)?;
    let ran = run_in_pieces(rt.alloc(), job, bytes, buffered, most, HONEST, HONEST)?;
    assert!(rt; !ran.taken.is_empty(), "{}", row.command);
    ran.expect(
        rt,
        row.command,
        whole.taken.as_slice(),
        whole.err.bytes(),
        whole.status,
    );
    Ok(ran)
}

// A row over devices that never fail, and then over each that fails.
fn expect_faults<R: AllocGlobal + Abort>(
    rt: &R,
    row: &Row,
    job: &Job,
    bytes: &[u8],
    buffered: bool,
    most: usize,
) -> Result<(), Fail> {
    let ran = expect_honest(rt, row, job, bytes, buffered, most)?;
    for kind in &READ_FAULTS {
        expect_read_faults(rt, row, job, bytes, buffered, most, *kind, ran.reads)?;
    }
    if buffered {
        return Ok(());
    }
    for kind in &WRITE_FAULTS {
        expect_write_faults(rt, row, job, bytes, most, *kind, &ran)?;
    }
    Ok(())
}

fn expect_row<R: AllocGlobal + Abort>(
    rt: &R,
    row: &Row,
    most: usize,
    buffered: bool,
) -> Result<(), Fail> {
    let bytes = hex::decode(rt.alloc(), row.stream)?;
    let job = job(rt.alloc(), row.command, row.options)?;
    expect_faults(rt, row, &job, bytes.as_slice(), buffered, most)
}

#[test]
fn each_call_of_a_device_fails_in_turn(rt: HostRuntime) -> Result<(), Fail> {
    for row in &ROWS {
        for most in PIECES {
            expect_row(&rt, row, most, false)?;
        }
        expect_row(&rt, row, 3, true)?;
    }
    Ok(())
}
