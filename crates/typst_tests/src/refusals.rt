//! What is held whichever one request for memory is refused: `rt try --test --fail-alloc N`.

use crate::lines::{edit_within, is_fresh, lines_of};
use crate::rows::{Row, leaf, list, tree};
use crate::trees::{END, number, numbered, replace, same, sample};
use std::alloc::{AllocError, Global};
use std::hash::{DefaultHasher, Hash, Hasher};
use typst_kinds::{SourceError, Span, SubRange, SyntaxKind};
use typst_lines::{Line, Lines, LinesFrom};
use typst_tree::SyntaxNode;

/// Whether what was asked twice is so: it was confirmed at least once, as only one request is refused, and never
/// denied.
pub(crate) fn is_confirmed(first: Option<bool>, again: Option<bool>) -> bool {
    matches!(
        (first, again),
        (Some(true), Some(true) | None) | (None, Some(true))
    )
}

/// What is answered where memory was refused: nothing, or that something changed.
fn refused(stays: bool) -> Option<bool> {
    if stays { None } else { Some(false) }
}

/// A change of a node.
enum Change {
    ConvertToError,
    Expected,
    Unexpected,
    Warn,
    WarnAt,
    Hint,
    HintAt,
}

/// `sample` with numbers and a warning.
fn warned(alloc: Global) -> Option<SyntaxNode> {
    let mut node = numbered(sample(alloc)?, END)?;
    node.warn("first").ok()?;
    Some(node)
}

/// Whether a node is as it was made so.
fn is_warned(alloc: Global, node: &SyntaxNode) -> Option<bool> {
    same(alloc, node, &warned(alloc)?)
}

/// Changes a node.
fn make(node: &mut SyntaxNode, change: &Change, range: SubRange) -> Result<(), AllocError> {
    match change {
        Change::ConvertToError => {
            node.convert_to_error("a long message, which takes memory of its own")
        }
        Change::Expected => node.expected("identifier"),
        Change::Unexpected => node.unexpected(),
        Change::Warn => node.warn("warning"),
        Change::WarnAt => node.warn_at(range, "warning"),
        Change::Hint => node.hint("hint"),
        Change::HintAt => node.hint_at(range, "hint"),
    }
}

/// Whether the change is made. Where it is refused, the node stays as it is.
fn changes_or_stays(alloc: Global, change: &Change) -> Option<bool> {
    let mut node = warned(alloc)?;
    match make(&mut node, change, SubRange::new(0, 1)?) {
        Ok(()) => Some(!node.spanless_eq(&warned(alloc)?)),
        Err(AllocError) => refused(is_warned(alloc, &node)?),
    }
}

/// Whether a keyword becomes an error. Where it is refused, the keyword stays.
fn keyword_becomes_an_error(alloc: Global) -> Option<bool> {
    let mut node = leaf(alloc, SyntaxKind::Let, "let")?;
    let answer = node.expected("pattern");
    let (kind, errors) = (node.kind(), node.diagnostics().len());
    match answer {
        Ok(()) => Some(kind == SyntaxKind::Error && errors == 1),
        Err(AllocError) => refused(kind == SyntaxKind::Let && errors == 0),
    }
}

static CHANGES: [Change; 7] = [
    Change::ConvertToError,
    Change::Expected,
    Change::Unexpected,
    Change::Warn,
    Change::WarnAt,
    Change::Hint,
    Change::HintAt,
];

/// The leaves a and b three levels down.
pub(crate) const DEEP: [Row; 6] = [
    (SyntaxKind::Text, "a", None),
    (SyntaxKind::Text, "b", None),
    (SyntaxKind::Markup, "", Some(2)),
    (SyntaxKind::Strong, "", Some(1)),
    (SyntaxKind::Emph, "", Some(1)),
    (SyntaxKind::Markup, "", Some(1)),
];

/// ` c` within a Strong.
const FRESH: [Row; 3] = [
    (SyntaxKind::Space, " ", None),
    (SyntaxKind::Text, "c", None),
    (SyntaxKind::Strong, "", Some(2)),
];

/// `DEEP`, numbered within `2..end`.
fn deep(alloc: Global, end: u64) -> Option<SyntaxNode> {
    numbered(tree(alloc, &DEEP)?, end)
}

/// An end of numbers, which of two leaves three levels down is replaced, and what is answered.
type Replacement = (u64, usize, Result<(), SourceError>);

/// Whether a replacement is answered so; with any error the tree stays as it is.
fn replaces_or_stays(alloc: Global, (end, at, wanted): Replacement) -> Option<bool> {
    let fresh = list(alloc, &FRESH)?;
    let mut node = deep(alloc, end)?;
    let answer = replace(&mut node, &[0, 0, 0], at, at.saturating_add(1), fresh);
    if answer.is_ok() {
        return Some(wanted.is_ok() && node.descendants() == 8);
    }
    let stays = same(alloc, &node, &deep(alloc, end)?)?;
    if answer == wanted {
        Some(stays)
    } else {
        refused(stays)
    }
}

/// Among all numbers, where the neighbour has to be numbered again, and where numbers are too few.
static REPLACEMENTS: [Replacement; 6] = [
    (END, 0, Ok(())),
    (END, 1, Ok(())),
    (130, 0, Ok(())),
    (130, 1, Ok(())),
    (8, 0, Err(SourceError::SpanNumbers)),
    (8, 1, Err(SourceError::SpanNumbers)),
];

/// A text that takes memory of its own.
const LONG: &str = "a text that is too long to stand in a node";

/// Whether a leaf, or an error, is made.
fn makes(alloc: Global, is_error: bool) -> Option<bool> {
    let made = if is_error {
        SyntaxNode::error(alloc, "message", LONG)
    } else {
        SyntaxNode::leaf(alloc, SyntaxKind::Text, LONG)
    };
    let node = made.ok()?;
    Some(node.leaf_text() == LONG && node.diagnostics().len() == usize::from(is_error))
}

/// Whether a tree is copied, and stays as it is.
fn copies(alloc: Global) -> Option<bool> {
    let node = warned(alloc)?;
    let copy = node.try_clone().ok();
    Some(is_warned(alloc, &node)? && is_warned(alloc, &copy?)?)
}

const LINES: &str = "ä\tcde\nf💛g\r\nhi\rjkl";

/// How lines are changed.
enum Way {
    Edit,
    Replace,
}

static WAYS: [Way; 2] = [Way::Edit, Way::Replace];

/// Takes the text out, and gives the text then: an edit leaves a line end.
fn empty(lines: &mut Lines<String>, way: &Way) -> Result<&'static str, AllocError> {
    match way {
        Way::Edit => {
            let end = lines.len_bytes();
            edit_within(lines, (0, end), "\r\n")?;
            Ok("\r\n")
        }
        Way::Replace => {
            lines.replace("")?;
            Ok("")
        }
    }
}

/// Whether the text is taken out, the next time where that is refused and the lines stay.
fn empties(alloc: Global, lines: &mut Lines<String>, way: &Way) -> Option<bool> {
    let text = match empty(lines, way) {
        Ok(text) => text,
        Err(AllocError) => {
            if !is_fresh(alloc, lines, LINES)? {
                return Some(false);
            }
            empty(lines, way).ok()?
        }
    };
    is_fresh(alloc, lines, text)
}

/// Whether nothing changes where the text is replaced by itself.
fn is_kept(lines: &mut Lines<String>) -> bool {
    matches!(lines.replace(LINES), Ok(false))
}

/// Whether a copy of lines changes, and the lines stay.
fn lines_change_or_stay(alloc: Global, way: &Way) -> Option<bool> {
    let mut lines = lines_of(alloc, LINES)?;
    let mut copy = lines.try_clone().ok()?;
    let changes = empties(alloc, &mut copy, way)?;
    Some(changes && is_kept(&mut lines) && is_fresh(alloc, &lines, LINES)?)
}

/// A change that is refused changes nothing: of a node, of nodes at depth three, and of lines.
#[test]
fn a_refused_change_changes_nothing(rt: HostRuntime) {
    let alloc = rt.alloc();
    for change in &CHANGES {
        assert!(rt;
            is_confirmed(
                changes_or_stays(alloc, change),
                changes_or_stays(alloc, change)
            )
        );
    }
    assert!(rt;
        is_confirmed(
            keyword_becomes_an_error(alloc),
            keyword_becomes_an_error(alloc)
        )
    );
    for one in &REPLACEMENTS {
        assert!(rt;
            is_confirmed(
                replaces_or_stays(alloc, *one),
                replaces_or_stays(alloc, *one)
            )
        );
    }
    for way in &WAYS {
        assert!(rt;
            is_confirmed(
                lines_change_or_stay(alloc, way),
                lines_change_or_stay(alloc, way)
            )
        );
    }
}

/// Whether lines describe themselves, answer for positions, and aren't changed by an equal text.
fn lines_answer(alloc: Global) -> Option<bool> {
    let mut lines = lines_of(alloc, LINES)?;
    let is_kept = is_kept(&mut lines);
    let answers = [
        lines.byte_to_line(12),
        lines.byte_to_column(12),
        lines.byte_to_utf16(12),
        lines.utf16_to_byte(9),
        lines.line_to_byte(1),
        lines.line_column_to_byte(1, 2),
    ];
    let are_right = answers == [Some(1), Some(2), Some(9), Some(12), Some(7), Some(12)]
        && lines.byte_to_line_column(12) == Some((1, 2))
        && lines.line_to_range(1) == Some(7..15)
        && [lines.len_bytes(), lines.len_utf16(), lines.len_lines()] == [21, 18, 4]
        && lines.text() == LINES
        && lines.replacement_range(LINES).is_none();
    Some(is_kept && are_right)
}

/// What lines hash to.
fn hash_of(lines: &Lines<String>) -> u64 {
    let mut hasher = DefaultHasher::new();
    lines.hash(&mut hasher);
    hasher.finish()
}

/// Whether the second line of `LINES` starts at byte 7, with six UTF-16 units before it.
fn is_second(line: Option<Line>) -> bool {
    match line {
        Some(line) => line.byte_idx() == 7 && line.utf16_idx() == 6,
        None => false,
    }
}

/// The second line of `LINES`, found without a table.
fn second() -> Option<Line> {
    LinesFrom::new(LINES, 0, 0).next()
}

/// Whether lines are the same as those of a text, and whether they hash to the same.
fn are_of(alloc: Global, lines: &Lines<String>, text: &str) -> Option<[bool; 2]> {
    let others = lines_of(alloc, text)?;
    Some([*lines == others, hash_of(lines) == hash_of(&others)])
}

/// Whether lines are compared by their texts, and those of a text are found without a table.
fn lines_are_compared(alloc: Global) -> Option<bool> {
    let lines = lines_of(alloc, LINES)?;
    let are_compared = are_of(alloc, &lines, LINES)? == [true; 2]
        && are_of(alloc, &lines, "a")? == [false; 2];
    Some(are_compared && is_second(lines.line(1)) && is_second(second()))
}

/// Whether a node describes itself, is compared, its kinds and spans change, and it is numbered.
fn converts(alloc: Global) -> Option<bool> {
    let mut node = warned(alloc)?;
    let is_same = node.spanless_eq(&warned(alloc)?);
    let (children, remarks) = (node.children().len(), node.diagnostics().len());
    let is_described = [node.len(), node.descendants(), children, remarks] == [7, 8, 4, 1]
        && [node.is_inner(), node.is_empty()] == [true, false]
        && node.kind() == SyntaxKind::ContentBlock
        && node.leaf_text() == "";
    node.convert_child_to_kind(1, SyntaxKind::Space);
    node.convert_to_kind(SyntaxKind::Markup);
    node.synthesize(Span::detached());
    let is_detached = node.kind() == SyntaxKind::Markup && node.span() == Span::detached();
    let is_numbered = number(&mut node, 2, END).is_ok() && node.span().number().is_some();
    Some(is_same && is_described && is_detached && is_numbered)
}

/// What was refused is made again; once they are made, neither lines nor a node take memory for what these cases ask.
#[test]
fn what_was_refused_is_made_again(rt: HostRuntime) {
    let alloc = rt.alloc();
    for is_error in [false, true] {
        assert!(rt; is_confirmed(makes(alloc, is_error), makes(alloc, is_error)));
    }
    assert!(rt; is_confirmed(copies(alloc), copies(alloc)));
    assert!(rt; is_confirmed(lines_answer(alloc), lines_answer(alloc)));
    assert!(rt; is_confirmed(lines_are_compared(alloc), lines_are_compared(alloc)));
    assert!(rt; is_confirmed(converts(alloc), converts(alloc)));
}
