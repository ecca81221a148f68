//! The numbers of the tags of nodes.

ghost use Rattle.std.specs.Prelude.{◌≡◌, ◌<◌, IfOk, None, if◌then◌else◌};
ghost use Rattle.typst_kinds.specs.Members.{place_of};
ghost use Rattle.typst_tree.specs.Tree.{forest};
ghost use Rattle.typst_highlight.specs.Rules.{is_name, rule_of};
ghost use Rattle.typst_highlight.specs.Walk as walk;
ghost use Rattle.typst_flat.specs.Codes as spec;

use crate::codes::tag_code;
use std::alloc::AllocError;
use typst_highlight::{Progress, Tag, tag_next};
use typst_kinds::SyntaxKind;
use typst_tree::SyntaxNode;

/// No tag's number: the tag depends on more than the kind.
const ASKS: u8 = 255;

/// For each kind, in the order of the kinds, the number of the tag of its nodes, or `ASKS`.
const FIXED_CODES: &[u8] = &[
    0, 22, 1, 1, 1, 255, 0, 0, 3, 0, 3, 3, 0, 4, 5, 7, 0, 0, 0, 6, 8, 9, 0, 10, 0, 0, 11, 0, 11, 0,
    11, 0, 0, 0, 255, 0, 3, 14, 0, 0, 0, 0, 14, 0, 0, 255, 2, 2, 2, 2, 255, 255, 2, 2, 2, 255, 255,
    13, 17, 17, 255, 14, 2, 0, 255, 17, 17, 17, 17, 17, 17, 17, 17, 17, 17, 17, 17, 14, 16, 16, 16,
    16, 16, 16, 16, 16, 16, 16, 16, 16, 16, 16, 16, 16, 16, 16, 16, 16, 0, 255, 16, 18, 18, 18, 19,
    0, 0, 0, 0, 0, 0, 0, 0, 0, 0, 0, 0, 0, 0, 0, 0, 0, 0, 0, 0, 0, 0, 0, 0, 0, 0, 0, 0, 0, 0, 0, 0,
];

/// The number of the tag of a node, and the tag itself if the node is a name.
#[derive(Clone, Copy)]
pub struct NextCode {
    pub code: u8,
    pub name: Option<Tag>,
}

/// Where a kind stands among all kinds.
#[inline(always)]
fn place(kind: SyntaxKind) -> usize
    ensures place { result ≡ place_of kind }
    ensures small { result < 137 }
{
    kind as usize
}

/// The number of the tag of the nodes of a kind, or `ASKS`.
#[inline(always)]
fn fixed_code(kind: SyntaxKind) -> u8
    ensures { result ≡ spec.fixed_code (rule_of kind) }
{
    FIXED_CODES[place(kind)]
}

/// The number of the tag of the next node of a walk. Most are read from a table, which takes one step in place of the
/// tests of a rule and of a tag.
#[inline(always)]
pub fn code_next(
    node: &SyntaxNode,
    later: &[SyntaxNode],
    progress: &Progress,
) -> Result<NextCode, AllocError>
    ensures code { IfOk result (λ next. next.code ≡ spec.tag_code (walk.tag (walk.joined progress.now) node.now (forest later.now))) }
    ensures name { IfOk result (λ next. next.name ≡ (if is_name node.now.head.kind then walk.name (walk.joined progress.now) node.now (forest later.now) else None)) }
{
    let code = fixed_code(node.kind());
    if code < ASKS {
        return Ok(NextCode { code, name: None });
    }
    let next = tag_next(node, later, progress)?;
    Ok(NextCode {
        code: tag_code(next.tag),
        name: next.name,
    })
}
