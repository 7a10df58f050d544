//! The text of a message's tree.

ghost use Rattle.cap_spec.specs.Denoting.{Denotes};
ghost use Rattle.cap_spec.specs.SpotTrees.{DenotesAt};
ghost use Rattle.cap_spec.specs.Texts.{child_lines, dump_text};
ghost use Rattle.cap_spec.specs.Tree.{Tree};
ghost use Rattle.cap_text.specs.Dumping.{child_letter_of, child_step_of, height, shown_count_of};
ghost use Rattle.cap_text.specs.Lines.{accepted_text};
ghost use Rattle.cap_text.specs.Paging.{Adds};
ghost use Rattle.cap_text.specs.Writing.{Writes};
ghost use Rattle.cap_vet.specs.Vettings.{message_of, report_of};
ghost use Rattle.cap_vet.specs.Views.{node_message, node_spot};
ghost use Rattle.std.specs.Prelude.{◌+◌, ◌++◌, ◌<◌, ◌≡◌, ◌≤◌, ℕ};

use crate::node::{put_child, put_node};
use crate::page::{Page, write_page};
use crate::verdict::accepted_line;
use cap_frame::Segments;
use cap_vet::{Kind, Node, Step, Vetted};
use cap_words::{ByteOut, OutFault};

/// How many children of a node are written. The elements of a list of structs without words aren't.
fn shown_count(kind: Kind) -> u32
    ensures { result ≡ shown_count_of kind }
{
    match kind {
        Kind::Struct { pointers, .. } => u32::from(pointers),
        Kind::Pointers { count } => count,
        Kind::Structs {
            count,
            data_words,
            pointers,
        } => {
            if data_words == 0 && pointers == 0 {
                0
            } else {
                count
            }
        }
        _ => 0,
    }
}

/// The letter before a child's number.
fn child_letter(kind: Kind) -> u8
    ensures { result ≡ child_letter_of kind }
{
    match kind {
        Kind::Struct { .. } => b'p',
        _ => b'i',
    }
}

/// The step to a child by its number.
fn child_step(kind: Kind, i: u32) -> Step
    requires { i < shown_count_of kind }
    ensures { result ≡ child_step_of kind i }
{
    match kind {
        Kind::Struct { .. } => Step::Ptr(i as u16),
        _ => Step::Item(i),
    }
}

/// Puts on a page the lines below a node: at this level each child, with its own words and the
/// lines below it. There are at most `left` levels of lines below the node.
///
/// It calls itself with one level less, so at most 257 calls are active at once. If the page has no
/// space for a line, it is written and cleared first. After an error the output took a prefix of
/// the page's old text and these lines.
fn put_children<M: Segments, O: ByteOut>(
    page: &mut Page,
    out: &mut O,
    node: &Node<'_, M>,
    level: u32,
    left: u32,
) -> Result<(), OutFault>
    requires low { (t : Tree)
        × DenotesAt (M.segments (node_message node.now)) (node_spot node.now) t
        × (height t ≤ left) }
    requires few { level + left ≤ 257 }
    ensures { (t : Tree) → DenotesAt (M.segments (node_message node.now)) (node_spot node.now) t →
        Adds O.ByteOut (out.old, page.old) (out.new, page.new) result (child_lines level t) }
{
    let kind = node.view().kind();
    for i in 0..shown_count(kind) {
        let Some(child) = node.child(child_step(kind, i)) else {
            unreachable!()
        };
        match put_child(page, out, level, child_letter(kind), i, &child) {
            Ok(()) => {}
            Err(fault) => return Err(fault),
        }
        match put_children(page, out, &child, level + 1, left - 1) {
            Ok(()) => {}
            Err(fault) => return Err(fault),
        }
    }
    Ok(())
}

/// Puts on a page the tree of an accepted message. If the page has no space for a line, it is
/// written and cleared first. After an error the output took a prefix of the page's old text and
/// the text of the tree.
fn put_dump<M: Segments, O: ByteOut>(
    page: &mut Page,
    out: &mut O,
    vetted: &Vetted<'_, M>,
) -> Result<(), OutFault>
    ensures { (t : Tree) (c d : ℕ) → Denotes (M.segments (message_of vetted.now)) 0 0 t c d →
        Adds O.ByteOut (out.old, page.old) (out.new, page.new) result (dump_text t) }
{
    let root = vetted.root();
    // The children of an object at level n have lines at level n, and a struct of a list has a
    // level too.
    let levels = vetted.report().depth;
    match put_node(page, out, b"root", &root) {
        Ok(()) => put_children(page, out, &root, 1, levels),
        Err(fault) => Err(fault),
    }
}

/// Writes the tree of an accepted message (docs/output.md, dump). Each node has a line, then the
/// lines of its own words, and then its children. Words and children are indented by two spaces
/// more than the node's line. The elements of a list of structs without words aren't written.
///
/// Allocates nothing. Its calls nest at most 257 deep, and each takes about 150 bytes of stack.
///
/// # Errors
///
/// The error of the output, which took a prefix of the text.
///
/// - [`OutFault::Device`]: the device failed. After it every write with bytes returns `Spent`.
/// - [`OutFault::Memory`]: an allocation of the output failed. A later write may succeed.
/// - [`OutFault::Spent`]: an earlier error had closed the output. It took nothing.
pub fn dump<M: Segments, O: ByteOut>(vetted: &Vetted<'_, M>, out: &mut O) -> Result<(), OutFault>
    ensures { (t : Tree) (c d : ℕ) → Denotes (M.segments (message_of vetted.now)) 0 0 t c d →
        Writes O.ByteOut out.old out.new result (dump_text t) }
{
    let mut page = Page::new();
    match put_dump(&mut page, out, vetted) {
        Ok(()) => write_page(&page, out),
        Err(fault) => Err(fault),
    }
}

/// Writes the line of message `number`, which is accepted, with the numbers of its tree, and then
/// the tree as [`dump`] does. What the page held before isn't written. Allocates nothing.
///
/// # Errors
///
/// The error of the output, which took a prefix of the text.
pub fn write_tree<M: Segments, O: ByteOut>(
    page: &mut Page,
    out: &mut O,
    number: u32,
    vetted: &Vetted<'_, M>,
) -> Result<(), OutFault>
    ensures { (t : Tree) (c d : ℕ) → Denotes (M.segments (message_of vetted.now)) 0 0 t c d →
        Writes O.ByteOut out.old out.new result
        (accepted_text number (report_of vetted.now) ++ dump_text t) }
{
    accepted_line(page, number, &vetted.report());
    match put_dump(page, out, vetted) {
        Ok(()) => write_page(page, out),
        Err(fault) => Err(fault),
    }
}
