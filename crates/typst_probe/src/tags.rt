//! The word `tags`.

use std::alloc::{AllocError, Global};
use typst_edited::cli::{LinkedNode, UnicodeClasses, highlight, parse};

/// Prints the tags of the nodes of the text's tree, each node's before those below it: a line for each node
/// that has one, with its range in bytes and the tag. A tree with more nodes than can be counted is
/// refused.
pub fn print(alloc: Global, printed: &mut String, text: &str) -> Result<(), AllocError> {
    let root = parse(alloc, text, &UnicodeClasses)?;
    if root.descendants() == usize::MAX {
        return Err(AllocError);
    }
    let mut left = Vec::new(alloc);
    left.push(LinkedNode::new(&root))?;
    for _ in 0..root.descendants() {
        if let Some(node) = left.pop() {
            print_tag(printed, node)?;
            leave_children(&mut left, node)?;
        }
    }
    Ok(())
}

/// Prints the line of a node, if it has a tag.
fn print_tag(printed: &mut String, node: LinkedNode) -> Result<(), AllocError> {
    let Some(tag) = highlight(&node) else {
        return Ok(());
    };
    let (start, end) = (node.range().start, node.range().end);
    writeln!(printed, "{start}..{end} {tag:?}")
}

/// Puts the children of a node on a list of nodes that are left, the first one last.
fn leave_children<'a>(
    left: &mut Vec<LinkedNode<'a>>,
    node: LinkedNode<'a>,
) -> Result<(), AllocError> {
    let before = left.len();
    for child in node.children() {
        left.push(child)?;
    }
    if let Some(children) = left.as_mut_slice().get_mut(before..) {
        children.reverse();
    }
    Ok(())
}
