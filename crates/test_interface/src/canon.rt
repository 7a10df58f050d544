//! `cap_canon`.

use crate::same::same;
use cap_canon::{CanonFault, canonical, canonical_bytes, canonical_len, is_canonical};
use cap_frame::OneSegment;
use cap_vet::{Limits, vet};
use std::test::Fail;

fn canon_fault(fault: CanonFault) -> u32 {
    match fault {
        CanonFault::HasCapability {
            segment: _segment,
            word,
        } => word,
        CanonFault::Memory => 1,
    }
}

#[test]
fn canonical_copies(rt: HostRuntime) -> Result<(), Fail> {
    let limits = Limits::new(8, 8).ok_or("limits")?;
    let message = OneSegment::new(&[1 << 32, 42]).ok_or("a message")?;
    let Ok(vetted) = vet(&message, limits) else {
        return Err(Fail::from("a refusal"));
    };
    let length: Result<u64, CanonFault> = canonical_len(&vetted);
    same(&rt, length, Ok(2));
    let words: Result<Vec<u64>, CanonFault> = canonical(rt.alloc(), &vetted);
    let Ok(words) = words else {
        return Err(Fail::from("no words"));
    };
    same(&rt, words.as_slice(), [1 << 32, 42].as_slice());
    let bytes: Result<Vec<u8>, CanonFault> = canonical_bytes(rt.alloc(), &vetted);
    let Ok(bytes) = bytes else {
        return Err(Fail::from("no bytes"));
    };
    same(&rt, bytes.len(), 16);
    let canonical: bool = is_canonical(&vetted);
    same(&rt, (canonical, canon_fault(CanonFault::Memory)), (true, 1));
    Ok(())
}
