//! What is reported of trees and texts.

ghost use Rattle.std.specs.Prelude.{◌≡◌, ◌-◌, ◌^◌, ◌<◌, IfErr, IfOk, OnOk, length};
ghost use Rattle.typst_parser.specs.Boundaries.{IsBoundary};
ghost use Rattle.typst_parser.specs.Tree.{nodes, saturated, text_of};
ghost use Rattle.typst_flat.specs.Records.{filled, records, records_in};
ghost use Rattle.typst_flat.specs.Said.{all_said, messages, remarks};
ghost use Rattle.typst_c.specs.Refusals.{RefusesRecords};

use crate::refusal::{Refusal, no_memory};
use std::alloc::Global;
use typst_flat::{Node, Remark, Said, Stretch, fill_nodes, fill_nodes_in, fill_remarks};
use typst_parser::{Boundary, SyntaxNode};

/// How much room a tree takes, in bytes of its text, records, and bytes of messages.
#[repr(C)]
#[derive(Debug, Clone, Copy, PartialEq, Eq)]
pub struct Sizes {
    pub text: usize,
    pub nodes: usize,
    pub remarks: usize,
    pub messages: usize,
}

/// Whether the nodes of a tree can be counted.
fn counted(root: &SyntaxNode) -> Result<(), Refusal>
    ensures few { OnOk result (nodes root.now < 2 ^ 64 - 1) }
    ensures refused { IfErr result (λ refusal. RefusesRecords root.now refusal) }
{
    if root.descendants() == usize::MAX {
        return Err(Refusal::TooLarge);
    }
    Ok(())
}

/// Puts the records of all nodes into an array, and answers how many there are.
pub fn put_nodes(alloc: Global, root: &SyntaxNode, room: &mut [Node]) -> Result<usize, Refusal>
    ensures count { IfOk result (λ count. count ≡ nodes root.now) }
    ensures room { OnOk result (room.new ≡ filled (records root.now) room.old) }
    ensures refused { IfErr result (λ refusal. RefusesRecords root.now refusal) }
{
    counted(root)?;
    let count = fill_nodes(alloc, root, room).map_err(no_memory)?;
    Ok(count)
}

/// Puts the records of the nodes that meet a stretch into an array, and answers how many there are. The stretch is
/// sought from a boundary among the root's children.
pub fn put_nodes_in(
    alloc: Global,
    root: &SyntaxNode,
    stretch: Stretch,
    near: Boundary,
    room: &mut [Node],
) -> Result<usize, Refusal>
    requires { IsBoundary root.now near }
    ensures count { IfOk result (λ count. count ≡ length (records_in stretch root.now)) }
    ensures room { OnOk result (room.new ≡ filled (records_in stretch root.now) room.old) }
    ensures refused { IfErr result (λ refusal. RefusesRecords root.now refusal) }
{
    counted(root)?;
    let count = fill_nodes_in(alloc, root, stretch, near, room).map_err(no_memory)?;
    Ok(count)
}

/// Puts the remarks and their messages into arrays, and answers how many there are.
pub fn put_remarks(
    alloc: Global,
    root: &SyntaxNode,
    room: &mut [Remark],
    text: &mut [u8],
) -> Result<Said, Refusal>
    ensures counted { OnOk result (nodes root.now < 2 ^ 64 - 1) }
    ensures count { IfOk result (λ said. said.remarks ≡ saturated (length (all_said root.now))) }
    ensures bytes { IfOk result (λ said. said.messages ≡ saturated (length (messages root.now))) }
    ensures remarks { OnOk result (room.new ≡ filled (remarks root.now) room.old) }
    ensures messages { OnOk result (text.new ≡ filled (messages root.now) text.old) }
    ensures refused { IfErr result (λ refusal. RefusesRecords root.now refusal) }
{
    counted(root)?;
    let said = fill_remarks(alloc, root, room, text).map_err(no_memory)?;
    Ok(said)
}

/// Puts the records of all nodes, the remarks and their messages into arrays, as many as fit, and answers how much
/// room a tree takes.
pub fn put_all(
    alloc: Global,
    root: &SyntaxNode,
    room: &mut [Node],
    remark_room: &mut [Remark],
    text: &mut [u8],
) -> Result<Sizes, Refusal>
    ensures text { IfOk result (λ sizes. sizes.text ≡ saturated (length (text_of root.now))) }
    ensures nodes { IfOk result (λ sizes. sizes.nodes ≡ nodes root.now) }
    ensures count { IfOk result (λ sizes. sizes.remarks ≡ saturated (length (all_said root.now))) }
    ensures bytes { IfOk result (λ sizes. sizes.messages ≡ saturated (length (messages root.now))) }
    ensures room { OnOk result (room.new ≡ filled (records root.now) room.old) }
    ensures remarks { OnOk result (remark_room.new ≡ filled (remarks root.now) remark_room.old) }
    ensures messages { OnOk result (text.new ≡ filled (messages root.now) text.old) }
    ensures refused { IfErr result (λ refusal. RefusesRecords root.now refusal) }
{
    let count = put_nodes(alloc, root, room)?;
    let said = put_remarks(alloc, root, remark_room, text)?;
    Ok(Sizes {
        text: root.len(),
        nodes: count,
        remarks: said.remarks,
        messages: said.messages,
    })
}

/// How much room a tree takes.
pub fn sizes_of(alloc: Global, root: &SyntaxNode) -> Result<Sizes, Refusal>
    ensures text { IfOk result (λ sizes. sizes.text ≡ saturated (length (text_of root.now))) }
    ensures nodes { IfOk result (λ sizes. sizes.nodes ≡ nodes root.now) }
    ensures remarks { IfOk result (λ sizes. sizes.remarks ≡ saturated (length (all_said root.now))) }
    ensures messages { IfOk result (λ sizes. sizes.messages ≡ saturated (length (messages root.now))) }
    ensures refused { IfErr result (λ refusal. RefusesRecords root.now refusal) }
{
    let said = put_remarks(alloc, root, &mut [], &mut [])?;
    Ok(Sizes {
        text: root.len(),
        nodes: root.descendants(),
        remarks: said.remarks,
        messages: said.messages,
    })
}
