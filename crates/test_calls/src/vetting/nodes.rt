//! Nodes and places of a message that is known from outside. `tests/shared/messages.py` has others, by the built
//! program.

use crate::held::message;
use crate::same::same_of;
use cap_frame::Segments;
use cap_vet::{Kind, Limits, Node, Place, Step, Vetted, vet};
use std::process::Abort;
use std::test::Fail;

// What is at a path: a kind and a place, or nothing.
type Seen = Option<(Kind, Option<Place>)>;

// What a node is.
fn seen<M: Segments>(node: Option<Node<'_, M>>) -> Seen {
    let view = node?.view();
    Some((view.kind(), view.place()))
}

// What is at a path, by `get` and by one child after the other, which have to agree.
fn at<M: Segments>(rt: &impl Abort, vetted: &Vetted<'_, M>, path: &[Step]) -> Seen {
    let mut node = Some(vetted.root());
    for step in path {
        node = match node {
            Some(node) => node.child(*step),
            None => None,
        };
    }
    let answer = seen(vetted.get(path));
    same_of(rt, &path, seen(node), answer);
    answer
}

// Two structs of a word and a null pointer.
const ELEMENTS: &[&[u64]] = &[&[0x0100000027000000, 0x0800000001000100, 1, 0, 0, 0]];

static NODES: [(&[Step], Seen); 4] = [
    (
        &[],
        Some((
            Kind::Structs {
                count: 2,
                data_words: 1,
                pointers: 1,
            },
            Some(Place {
                segment: 0,
                start: 1,
                words: 5,
            }),
        )),
    ),
    (
        &[Step::Item(1)],
        Some((
            Kind::Struct {
                data_words: 1,
                pointers: 1,
            },
            Some(Place {
                segment: 0,
                start: 4,
                words: 2,
            }),
        )),
    ),
    (&[Step::Item(1), Step::Ptr(0)], Some((Kind::Null, None))),
    (&[Step::Item(1), Step::Ptr(1)], None),
];

#[test]
fn nodes_of_a_known_message(rt: HostRuntime) -> Result<(), Fail> {
    let limits = Limits::new(100, 10).ok_or("no limits")?;
    let elements = message(rt.alloc(), ELEMENTS)?;
    let Ok(vetted) = vet(&elements, limits) else {
        return Err("refused".into());
    };
    for (path, expected) in &NODES {
        same_of(&rt, path, at(&rt, &vetted, *path), *expected);
    }
    Ok(())
}
