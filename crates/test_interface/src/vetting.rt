//! The verdicts of `cap_vet`.

use crate::same::same;
use cap_frame::OneSegment;
use cap_vet::{
    Demands, Exclusive, ExclusiveRefusal, Limits, Node, Reason, Refusal, Report, Vetted, vet,
    vet_exclusive,
};
use std::test::Fail;

// A struct of one word.
static STRUCT: [u64; 2] = [1 << 32, 42];

#[test]
fn messages_are_vetted(rt: HostRuntime) -> Result<(), Fail> {
    let limits: Option<Limits> = Limits::new(8, 8);
    let limits: Limits = limits.ok_or("limits")?;
    let message = OneSegment::new(&STRUCT).ok_or("a message")?;
    let verdict: Result<Vetted<'_, OneSegment<'_>>, Refusal> = vet(&message, limits);
    let Ok(vetted) = verdict else {
        return Err(Fail::from("a refusal"));
    };
    let report: Report = vetted.report();
    let expected = Report {
        charge: 1,
        depth: 1,
        pointers: 1,
        caps: 0,
        first_cap: None,
    };
    same(&rt, report, expected);
    let _message: &OneSegment<'_> = vetted.message();
    let _root: Node<'_, OneSegment<'_>> = vetted.root();
    let node: Option<Node<'_, OneSegment<'_>>> = vetted.get(&[]);
    assert!(rt; node.is_some());
    Ok(())
}

#[test]
fn messages_are_refused(rt: HostRuntime) -> Result<(), Fail> {
    let limits = Limits::new(8, 8).ok_or("limits")?;
    let message = OneSegment::new(&[]).ok_or("a message")?;
    let expected = Refusal {
        segment: 0,
        word: 0,
        reason: Reason::NoRoot,
        pointers: 0,
    };
    match vet(&message, limits) {
        Ok(_) => Err(Fail::from("a verdict")),
        Err(refusal) => {
            same(&rt, refusal, expected);
            Ok(())
        }
    }
}

fn exclusive_refusal(refusal: ExclusiveRefusal) -> u64 {
    match refusal {
        ExclusiveRefusal::Refused(_refusal) => 1,
        ExclusiveRefusal::Overlap {
            segment: _segment,
            word: _word,
            pointers,
        } => pointers,
        ExclusiveRefusal::Memory => 2,
    }
}

#[test]
fn messages_are_vetted_exclusively(rt: HostRuntime) -> Result<(), Fail> {
    let limits = Limits::new(8, 8).ok_or("limits")?;
    let message = OneSegment::new(&STRUCT).ok_or("a message")?;
    let verdict: Result<Exclusive<'_, OneSegment<'_>>, ExclusiveRefusal> = vet_exclusive(
        rt.alloc(),
        &message,
        limits,
        Demands::default(),
    );
    let Ok(exclusive) = verdict else {
        return Err(Fail::from("a refusal"));
    };
    let vetted: Vetted<'_, OneSegment<'_>> = exclusive.into_vetted();
    same(&rt, vetted.report().charge, 1);
    same(&rt, exclusive_refusal(ExclusiveRefusal::Memory), 2);
    Ok(())
}
