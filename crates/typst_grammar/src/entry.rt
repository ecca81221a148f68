//! The entry points: whole texts.

ghost use Rattle.std.specs.Prelude.{◌≡◌, IfOk, Some, false, true};
ghost use Rattle.std.specs.Str.{chars};
ghost use Rattle.typst_kinds.specs.Kinds.{is_error};
ghost use Rattle.typst_tree.specs.Tree.{forest, inner_of, text_of};
ghost use Rattle.typst_grammar.specs.Binding.{binds, has_errors};
ghost use Rattle.typst_grammar.specs.Grammar as spec;

use crate::read_whole;
use std::alloc::{AllocError, Global};
use typst_kinds::{SyntaxKind, SyntaxMode};
use typst_language::Note;
use typst_lines::Classes;
use typst_tokens::Hull;
use typst_tree::SyntaxNode;

/// From how many nodes on they are not moved out of the room in which they were read.
const MANY: usize = 25_000;

/// The root over the nodes of a text, without room for more of them: few nodes are moved, and many
/// stay where they are.
pub fn root_over(kind: SyntaxKind, mut nodes: Vec<SyntaxNode>) -> Result<SyntaxNode, AllocError>
    requires { is_error kind ≡ false }
    ensures { IfOk result (λ t. t ≡ inner_of kind (forest nodes.items)) }
{
    if nodes.len() < MANY {
        nodes = nodes.split_off(0)?;
    } else {
        nodes.shrink_to_fit();
    }
    Ok(SyntaxNode::inner(kind, nodes))
}

/// The syntax tree of a text of markup, with detached spans. Any text has one; its leaves joined are the text, and
/// in one without errors the operands of each binary operator bind as tightly as the operator asks for. It fails
/// only for lack of memory.
pub fn parse<C: Classes>(alloc: Global, text: &str, classes: &C) -> Result<SyntaxNode, AllocError>
    ensures tree { IfOk result (λ t. t ≡ spec.tree (C.classes classes.now) (chars text.now)) }
    ensures leaves { IfOk result (λ t. text_of t ≡ text.now) }
    ensures binding { IfOk result (λ t. has_errors t ≡ false → binds t ≡ true) }
{
    let read = read_whole(alloc, text, SyntaxMode::Markup, false, classes)?;
    let (nodes, _notes, _hull) = read.finish();
    let root = root_over(SyntaxKind::Markup, nodes)?;
    Ok(root)
}

/// The syntax tree of a text of code, with detached spans. Any text has one; its leaves joined are the text, and
/// its operands bind as those of [`parse`] do. It fails only for lack of memory.
pub fn parse_code<C: Classes>(
    alloc: Global,
    text: &str,
    classes: &C,
) -> Result<SyntaxNode, AllocError>
    ensures tree { IfOk result (λ t. t ≡ spec.tree_code (C.classes classes.now) (chars text.now)) }
    ensures leaves { IfOk result (λ t. text_of t ≡ text.now) }
    ensures binding { IfOk result (λ t. has_errors t ≡ false → binds t ≡ true) }
{
    let read = read_whole(alloc, text, SyntaxMode::Code, false, classes)?;
    let (nodes, _notes, _hull) = read.finish();
    let root = root_over(SyntaxKind::Code, nodes)?;
    Ok(root)
}

/// The syntax tree of the text of a formula, with detached spans. Any text has one; its leaves joined are the
/// text, and its operands bind as those of [`parse`] do. It fails only for lack of memory.
pub fn parse_math<C: Classes>(
    alloc: Global,
    text: &str,
    classes: &C,
) -> Result<SyntaxNode, AllocError>
    ensures tree { IfOk result (λ t. t ≡ spec.tree_math (C.classes classes.now) (chars text.now)) }
    ensures leaves { IfOk result (λ t. text_of t ≡ text.now) }
    ensures binding { IfOk result (λ t. has_errors t ≡ false → binds t ≡ true) }
{
    let read = read_whole(alloc, text, SyntaxMode::Math, false, classes)?;
    let (nodes, _notes, _hull) = read.finish();
    let root = root_over(SyntaxKind::Math, nodes)?;
    Ok(root)
}

/// A syntax tree with what was looked at and noted in parsing it.
#[derive(Drop)]
pub struct Noted {
    pub tree: SyntaxNode,
    pub notes: Vec<Note>,
    /// Where the looks since the last note end, and where they begin.
    pub hull: Hull,
}

/// The syntax tree of a text of markup, and what was looked at and noted for it, in order: a piece
/// at the text's start and after each expression of the text's own, where a content block opens
/// and closes, and between them a piece after its bracket and after each of its expressions. What
/// lies at the limit of depth isn't a run and has no pieces. Of each note, where the looks since the note
/// before it end and where they begin, in bytes.
pub fn parse_noted<C: Classes>(alloc: Global, text: &str, classes: &C) -> Result<Noted, AllocError>
    ensures tree { IfOk result (λ r. r.tree ≡ spec.tree (C.classes classes.now) (chars text.now)) }
    ensures leaves { IfOk result (λ r. text_of r.tree ≡ text.now) }
    ensures binding { IfOk result (λ r. has_errors r.tree ≡ false → binds r.tree ≡ true) }
    ensures log { IfOk result (λ r. record { reach = r.hull.reach; least = r.hull.least; notes = Some r.notes.items } ≡ spec.log (C.classes classes.now) (chars text.now)) }
{
    let read = read_whole(alloc, text, SyntaxMode::Markup, true, classes)?;
    let (nodes, notes, hull) = read.finish();
    let tree = root_over(SyntaxKind::Markup, nodes)?;
    Ok(Noted { tree, notes, hull })
}
