//! What is said of each fault, those too that no run of the program meets.

use crate::same::same;
use cap_canon::CanonFault;
use cap_frame::FrameFault;
use cap_run::{Cause, CopyFault, RunFault, write_copy_fault, write_fault};
use cap_vet::{Reason, Refusal};
use cap_words::{OutFault, SourceFault, VecOut};

const REFUSAL: Refusal = Refusal {
    segment: 511,
    word: 4294967295,
    reason: Reason::CompositeOverrun,
    pointers: 9,
};

const FIRST_CAPABILITY: CanonFault = CanonFault::HasCapability {
    segment: 2,
    word: 30,
};

// Why an engine ends at message 7, and what is said of it.
static FAULTS: [(Cause, &str); 12] = [
    (
        Cause::TooManyMessages,
        "capvet: message 7: TooManyMessages\n",
    ),
    (
        Cause::Frame(FrameFault::TooManySegments { count: 4294967296 }),
        "capvet: message 7: TooManySegments 4294967296\n",
    ),
    (
        Cause::Frame(FrameFault::TooLarge {
            words: 18446744073709551615,
        }),
        "capvet: message 7: TooLarge 18446744073709551615\n",
    ),
    (
        Cause::Frame(FrameFault::Truncated { byte: 10 }),
        "capvet: message 7: Truncated at byte 10\n",
    ),
    (
        Cause::Frame(FrameFault::Device),
        "capvet: message 7: Device\n",
    ),
    (
        Cause::Frame(FrameFault::Memory),
        "capvet: message 7: Memory\n",
    ),
    (
        Cause::Frame(FrameFault::Spent),
        "capvet: message 7: Spent\n",
    ),
    (Cause::Output(OutFault::Device), "capvet: output failed\n"),
    (
        Cause::Refused(REFUSAL),
        "capvet: message 7: refused CompositeOverrun at 511:4294967295\n",
    ),
    (
        Cause::Canon(FIRST_CAPABILITY),
        "capvet: message 7: HasCapability at 2:30\n",
    ),
    (
        Cause::Canon(CanonFault::Memory),
        "capvet: message 7: Memory\n",
    ),
    (Cause::Memory, "capvet: message 7: Memory\n"),
];

// Why a copy of words ends, and what is said of it.
static COPY_FAULTS: [(CopyFault, &str); 6] = [
    (CopyFault::TooManyWords, "capvet: TooManyWords\n"),
    (
        CopyFault::Source(SourceFault::Truncated { byte: 22 }),
        "capvet: Truncated at byte 22\n",
    ),
    (CopyFault::Source(SourceFault::Device), "capvet: Device\n"),
    (CopyFault::Source(SourceFault::Spent), "capvet: Spent\n"),
    (
        CopyFault::Output(OutFault::Device),
        "capvet: output failed\n",
    ),
    (
        CopyFault::Output(OutFault::Memory),
        "capvet: output failed\n",
    ),
];

#[test]
fn the_line_of_each_fault(rt: HostRuntime) {
    for (cause, text) in &FAULTS {
        let fault = RunFault {
            message: 7,
            cause: *cause,
        };
        let mut err = VecOut::new(rt.alloc());
        same(&rt, write_fault(&mut err, &fault), Ok(()));
        same(&rt, err.bytes(), text.as_bytes());
    }
    for (fault, text) in &COPY_FAULTS {
        let mut err = VecOut::new(rt.alloc());
        same(&rt, write_copy_fault(&mut err, fault), Ok(()));
        same(&rt, err.bytes(), text.as_bytes());
    }
}
