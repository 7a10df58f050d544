//! The text for the node at a path.

ghost use Rattle.cap_spec.specs.SpotTrees.{DenotesAt};
ghost use Rattle.cap_spec.specs.Texts.{get_text};
ghost use Rattle.cap_spec.specs.Tree.{Tree};
ghost use Rattle.cap_text.specs.Writing.{Writes};
ghost use Rattle.cap_vet.specs.Views.{node_message, node_spot};
ghost use Rattle.std.specs.Prelude.{IfNone, IfSome, None, Some};

use crate::node::put_node;
use crate::page::{Page, message_line, write_bytes, write_page};
use cap_frame::Segments;
use cap_vet::Node;
use cap_words::{ByteOut, OutFault};

/// Writes about message `number` its node at a path, without the node's children, or that there is
/// none (docs/output.md, get). What the page held before isn't written.
///
/// # Errors
///
/// The error of the output, which took a prefix of the text.
pub fn write_node<M: Segments, O: ByteOut>(
    page: &mut Page,
    out: &mut O,
    number: u32,
    node: Option<Node<'_, M>>,
) -> Result<(), OutFault>
    ensures found { IfSome node.entry (λ n. (t : Tree) →
        DenotesAt (M.segments (node_message n)) (node_spot n) t →
        Writes O.ByteOut out.old out.new result (get_text number (Some t))) }
    ensures none { IfNone node.entry
        (Writes O.ByteOut out.old out.new result (get_text number None)) }
{
    let Some(node) = node else {
        message_line(page, number, b"none");
        return write_bytes(out, page.text());
    };
    message_line(page, number, b"found");
    match put_node(page, out, b"node", &node) {
        Ok(()) => write_page(page, out),
        Err(fault) => Err(fault),
    }
}
