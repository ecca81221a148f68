//! Arrays of records of nodes.

ghost use Rattle.std.specs.Prelude.{◌≡◌, ◌+◌, ◌-◌, ◌^◌, ◌<◌, ◌≤◌, IfOk, IsTrue, List, OnOk, length, true, ℕ};
ghost use Rattle.typst_tree.specs.Boundaries.{IsBoundary};
ghost use Rattle.typst_tree.specs.Steps.{at};
ghost use Rattle.typst_tree.specs.Tree.{Tree, nodes};
ghost use Rattle.typst_flat.specs.Placed.{IsFilled, IsPlaced, IsSmall};
ghost use Rattle.typst_flat.specs.Records.{filled, node_record, records, records_in};
ghost use Rattle.typst_flat.specs.declared.records.Node.{Node};

use crate::nodes::{Here, Search};
use crate::placed::{PlacedNode, is_plain, plain_record, record};
use crate::{Node, Stretch};
use std::alloc::{AllocError, Global};
use typst_highlight::Progress;
use typst_tree::{Boundary, SyntaxNode};

/// Bytes and nodes of a tree that has fewer are counted in 32 bits.
const LARGE: usize = 0x1_0000_0000;

/// Puts the records of all nodes of a tree into an array, in preorder, as many as fit, and tells how many
/// nodes there are. Where memory is refused, the array may hold some of them.
pub fn fill_nodes(alloc: Global, root: &SyntaxNode, room: &mut [Node]) -> Result<usize, AllocError>
    requires { nodes root.now < 2 ^ 64 - 1 }
    ensures count { IfOk result (λ count. count ≡ nodes root.now) }
    ensures room { OnOk result (room.new ≡ filled (records root.now) room.old) }
{
    if room.is_empty() {
        return Ok(root.descendants());
    }
    let front = Boundary::front_of(root);
    let count = fill_nodes_in(alloc, root, Stretch::ALL, front, room)?;
    Ok(count)
}

/// Puts the records of the nodes that meet a stretch of bytes into an array: all that have a byte of it, and those
/// that end where it begins or begin where it ends.
///
/// It visits these, the nodes above them and some before them. Of the other nodes before the stretch it passes only
/// those side by side with one of these, in a few steps each: of the root's children those between the stretch and
/// the boundary `near`, or an end that is nearer, and all where tags depend on more than is near the stretch.
// In place, so that no node is compared with the stretch of all bytes.
#[inline(always)]
pub fn fill_nodes_in(
    alloc: Global,
    root: &SyntaxNode,
    stretch: Stretch,
    near: Boundary,
    room: &mut [Node],
) -> Result<usize, AllocError>
    requires counted { nodes root.now < 2 ^ 64 - 1 }
    requires near { IsBoundary root.now near }
    ensures count { IfOk result (λ count. count ≡ length (records_in stretch root.now)) }
    ensures room { OnOk result (room.new ≡ filled (records_in stretch root.now) room.old) }
{
    if is_small(root) {
        let count = fill_met(alloc, root, stretch, near, room, true)?;
        return Ok(count);
    }
    let count = fill_large(alloc, root, stretch, near, room)?;
    Ok(count)
}

/// Whether the bytes and the nodes of a tree are so few that records count them in 32 bits.
fn is_small(root: &SyntaxNode) -> bool
    ensures { IsTrue result → IsSmall root.now }
{
    root.len() < LARGE && root.descendants() < LARGE
}

/// Does what `fill_nodes_in` does, whatever the size of the tree.
#[inline(never)]
fn fill_large(
    alloc: Global,
    root: &SyntaxNode,
    stretch: Stretch,
    near: Boundary,
    room: &mut [Node],
) -> Result<usize, AllocError>
    requires counted { nodes root.now < 2 ^ 64 - 1 }
    requires near { IsBoundary root.now near }
    ensures count { IfOk result (λ count. count ≡ length (records_in stretch root.now)) }
    ensures room { OnOk result (room.new ≡ filled (records_in stretch root.now) room.old) }
{
    let count = fill_met(alloc, root, stretch, near, room, false)?;
    Ok(count)
}

/// Does what `fill_nodes_in` does. Of a small tree it doesn't ask whether each number fits.
#[inline(always)]
fn fill_met(
    alloc: Global,
    root: &SyntaxNode,
    stretch: Stretch,
    near: Boundary,
    room: &mut [Node],
    is_small: bool,
) -> Result<usize, AllocError>
    requires counted { nodes root.now < 2 ^ 64 - 1 }
    requires near { IsBoundary root.now near }
    requires small { is_small ≡ true → IsSmall root.now }
    ensures count { IfOk result (λ count. count ≡ length (records_in stretch root.now)) }
    ensures room { OnOk result (room.new ≡ filled (records_in stretch root.now) room.old) }
{
    let search = Search {
        root,
        stretch,
        near,
    };
    let mut progress = Progress::start(alloc);
    let mut here = Here::front(root);
    let mut count = 0;
    'nodes: while let Some(next) = search.come(here, &mut progress) {
        let placed = search.locate(next, &progress)?;
        if placed.start > stretch.end {
            return Ok(count);
        }
        if is_plain(next.node) {
            count = put_met(
                &placed,
                plain_record(&placed, is_small),
                stretch,
                count,
                room,
            );
            here = search.pass(next, placed.end, placed.name, &mut progress);
            continue 'nodes;
        }
        count = put_met(&placed, record(&placed, is_small), stretch, count, room);
        here = search.go_on(next, placed.end, placed.name, &mut progress)?;
    }
    Ok(count)
}

/// Puts the record of a node into an array after those of `count` nodes, as far as there is room, if the node meets
/// the stretch, and tells how many there are then.
// Records are put before the walk goes on: less has to be kept over the step.
#[inline(always)]
fn put_met(
    placed: &PlacedNode,
    written: Node,
    stretch: Stretch,
    count: usize,
    room: &mut [Node],
) -> usize
    requires { count < 2 ^ 64 - 1 }
    ensures { (root : Tree) → (n : ℕ) → (old : List Node) → n < nodes root → IsPlaced (at root n) placed.now → written ≡ node_record (at root n) → placed.now.start ≤ stretch.end → IsFilled stretch root n count room.old old → IsFilled stretch root (n + 1) result room.new old }
{
    if stretch.start > placed.end {
        return count;
    }
    if count < room.len() {
        room[count] = written;
    }
    count + 1
}
