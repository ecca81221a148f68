//! Calls that take no memory. What several answer is summed up as a number, the same for the same answers.

use std::alloc::Global;
use std::ops::Range;
use typst_fakes::first_cluster;
use typst_flat::{kind_count, kind_of_code};
use typst_lines::{
    Classes, MathClass, is_id_continue, is_id_start, is_ident, is_valid_label_literal_id,
};
use typst_parser::{
    Assoc, BinOp, Diagnostic, FileId, Lines, LinkedNode, Severity, Source, Span, SpanNumber,
    SubRange, SyntaxKind, SyntaxNode, SyntaxSet, Tag, UnOp, UnicodeClasses, highlight, is_newline,
    is_ordered, set,
};

/// A sum with a number more, which depends on the order of the numbers.
fn more(sum: usize, number: usize) -> usize {
    sum.wrapping_mul(31).wrapping_add(number)
}

/// A sum with numbers more, and those that there aren't.
fn more_of(sum: usize, answered: &[Option<usize>]) -> usize {
    let mut sum = sum;
    for number in answered {
        sum = more(sum, number.unwrap_or(usize::MAX));
    }
    sum
}

/// A sum with whether something is so.
fn more_if(sum: usize, answered: &[bool]) -> usize {
    let mut sum = sum;
    for is_so in answered {
        sum = more(sum, usize::from(*is_so));
    }
    sum
}

/// A sum with a range more.
fn more_range(sum: usize, range: Option<Range<usize>>) -> usize {
    match range {
        Some(range) => more(more(sum, range.start), range.end),
        None => more(sum, usize::MAX),
    }
}

/// `text`, `len_bytes`, `len_utf16`, `len_lines`, and for each number of a byte, of a UTF-16 unit or of a line
/// `line`, `byte_to_line`, `byte_to_column`, `byte_to_utf16`, `byte_to_line_column`, `utf16_to_byte`,
/// `line_to_byte`, `line_to_range` and `line_column_to_byte`; and `replacement_range` of another text.
pub fn of_lines(lines: &Lines<String>, other: &str) -> usize {
    let mut sum = more(lines.text().len(), lines.len_bytes());
    sum = more(more(sum, lines.len_utf16()), lines.len_lines());
    for place in 0..lines.len_bytes() {
        let answered = [
            lines.byte_to_line(place),
            lines.byte_to_column(place),
            lines.byte_to_utf16(place),
            lines.utf16_to_byte(place),
            lines.line_to_byte(place),
            lines.line_column_to_byte(place, 1),
        ];
        sum = more_range(more_of(sum, &answered), lines.line_to_range(place));
        if let Some((line, column)) = lines.byte_to_line_column(place) {
            sum = more(more(sum, line), column);
        }
        if let Some(line) = lines.line(place) {
            sum = more(more(sum, line.byte_idx()), line.utf16_idx());
        }
    }
    match lines.replacement_range(other) {
        Some((front, end)) => more(more(sum, front), end),
        None => sum,
    }
}

/// `id`, `text`, `lines`, `root`, and `find` and `range` of the root and of each of its children.
pub fn of_source(source: &Source<UnicodeClasses>) -> usize {
    let mut sum = more(usize::from(source.id().get()), source.text().len());
    sum = more(sum, source.lines().len_lines());
    sum = of_span(sum, source, source.root().span());
    for child in source.root().children() {
        sum = of_span(sum, source, child.span());
    }
    sum
}

/// What a source answers for a span.
fn of_span(sum: usize, source: &Source<UnicodeClasses>, span: Span) -> usize {
    let sum = match source.find(span) {
        Some(node) => more_range(sum, Some(node.range())),
        None => sum,
    };
    match span.number() {
        Some(number) => {
            let within = source.range(number, SubRange::new(0, 0));
            more_range(more_range(sum, source.range(number, None)), within)
        }
        None => sum,
    }
}

/// `LinkedNode::new`, `leftmost_leaf`, and of each leaf from it on what [`of_leaf`] has.
pub fn of_leaves(root: &SyntaxNode) -> usize {
    if root.descendants() == usize::MAX {
        return 0;
    }
    let root = LinkedNode::new(root);
    let mut leaf = root.leftmost_leaf();
    let mut sum = 0;
    for _ in 0..root.get().descendants() {
        let Some(here) = leaf else {
            return sum;
        };
        sum = of_leaf(sum, root, here);
        leaf = here.next_leaf();
    }
    sum
}

/// `get`, `kind`, `leaf_text`, `offset`, `range`, `hash_expr`, `prev_leaf`, `next_leaf`, `next_sibling`,
/// `next_sibling_kind`, `parent`, `parent_kind`, `children`, `leaf_at`, `find`, `find_number` and `highlight`.
fn of_leaf(sum: usize, root: LinkedNode<'_>, leaf: LinkedNode<'_>) -> usize {
    let sum = more(more_range(sum, Some(leaf.range())), leaf.leaf_text().len());
    let answered = [
        leaf.hash_expr(),
        leaf.kind().is_trivia(),
        leaf.parent_kind() == Some(SyntaxKind::Markup),
        leaf.next_sibling_kind() == Some(SyntaxKind::Space),
        highlight(&leaf) == Some(Tag::Strong),
        leaf.get().is_empty(),
    ];
    let mut sum = more_if(sum, &answered);
    let span = leaf.get().span();
    let begins = [
        start_of(leaf.prev_leaf()),
        start_of(leaf.next_sibling()),
        start_of(root.leaf_at(leaf.offset())),
        start_of(root.find(span)),
    ];
    sum = more_of(sum, &begins);
    if let Some(number) = span.number() {
        sum = more_of(sum, &[start_of(root.find_number(number))]);
    }
    if let Some(parent) = leaf.parent() {
        for child in parent.children() {
            sum = more(sum, child.offset());
        }
    }
    sum
}

/// Where a node begins.
fn start_of(node: Option<LinkedNode<'_>>) -> Option<usize> {
    Some(node?.offset())
}

/// `len`, `descendants`, `children`, `kind`, `is_empty`, `is_inner`, `leaf_text`, `span`, `diagnostics`,
/// `has_diagnostics`, `reaches`, `spanless_eq` and `is_ordered` of a tree and each child of its root.
pub fn of_nodes(tree: &SyntaxNode, other: &SyntaxNode) -> usize {
    let mut sum = of_node(0, tree, other);
    for child in tree.children() {
        sum = of_node(sum, child, other);
    }
    sum
}

/// What a node answers about itself.
fn of_node(sum: usize, node: &SyntaxNode, other: &SyntaxNode) -> usize {
    let sum = more(more(sum, node.len()), node.descendants());
    let sum = more(more(sum, node.leaf_text().len()), node.diagnostics().len());
    let answered = [
        node.is_empty(),
        node.is_inner(),
        node.has_diagnostics(),
        node.kind().is_error(),
        node.span() == Span::detached(),
        node.reaches(&[0], 0, 1),
        node.spanless_eq(other),
        is_ordered(node),
    ];
    more_if(sum, &answered)
}

/// `synthesize`, `convert_to_kind`, `convert_child_to_kind` and `numberize`; `inner` of no children.
pub fn of_changes(alloc: Global, tree: &mut SyntaxNode) -> usize {
    tree.synthesize(Span::detached());
    tree.convert_to_kind(SyntaxKind::Math);
    tree.convert_child_to_kind(0, SyntaxKind::Code);
    let is_numbered = match FileId::new(2) {
        Some(file) => tree.numberize(file, 2..1 << 47).is_ok(),
        None => false,
    };
    let inner = SyntaxNode::inner(SyntaxKind::Markup, Vec::new(alloc));
    more(usize::from(is_numbered), inner.len())
}

/// `severity`, `sub_range`, `message` and `hints` of each remark about a tree's root and its children.
pub fn of_remarks(tree: &SyntaxNode) -> usize {
    let mut sum = 0;
    for remark in tree.diagnostics() {
        sum = of_remark(sum, remark);
    }
    for child in tree.children() {
        for remark in child.diagnostics() {
            sum = of_remark(sum, remark);
        }
    }
    sum
}

/// What a remark answers, and `sub_range` and `message` of each of its hints.
fn of_remark(sum: usize, remark: &Diagnostic) -> usize {
    let is_error = remark.severity() == Severity::Error;
    let sum = more(more_if(sum, &[is_error]), remark.message().len());
    let mut sum = more_range(sum, bytes_of(remark.sub_range()));
    for hint in remark.hints() {
        sum = more_range(more(sum, hint.message().len()), bytes_of(hint.sub_range()));
    }
    sum
}

/// `start` and `end` of a range within a node.
fn bytes_of(range: Option<SubRange>) -> Option<Range<usize>> {
    let range = range?;
    Some(range.start()..range.end())
}

/// Of each kind `name`, its seven tests, sets with and without it, and `from_kind`, `precedence` and `assoc` of its
/// operators.
pub fn of_kinds() -> usize {
    let mut sum = 0;
    for code in 0..u32::try_from(kind_count()).unwrap_or(u32::MAX) {
        let Some(kind) = kind_of_code(code) else {
            return sum;
        };
        let set = SyntaxSet::new().add(kind);
        let answered = [
            kind.is_trivia(),
            kind.is_error(),
            kind.is_keyword(),
            kind.is_grouping(),
            kind.is_terminator(),
            kind.is_block(),
            kind.is_hash_expr(),
            set.contains(kind),
            set.remove(kind) == SyntaxSet::new(),
            set::CODE_EXPR.union(set).contains(kind),
        ];
        sum = more_if(more(sum, kind.name().len()), &answered);
        if let Some(operator) = BinOp::from_kind(kind) {
            let binds_left = operator.assoc() == Assoc::Left;
            sum = more_if(more(sum, usize::from(operator.precedence())), &[binds_left]);
        }
        if let Some(operator) = UnOp::from_kind(kind) {
            sum = more(sum, usize::from(operator.precedence()));
        }
    }
    sum
}

/// `LIST`, `tm_scope` and `css_class`.
pub fn of_tags() -> usize {
    let mut sum = 0;
    for tag in Tag::LIST {
        sum = more(more(sum, tag.tm_scope().len()), tag.css_class().len());
    }
    sum
}

/// `new` and `get` of files, of numbers and of spans, `id` and `number`.
pub fn of_spans() -> usize {
    let (Some(file), Some(number)) = (FileId::new(7), SpanNumber::new(9)) else {
        return 0;
    };
    let span = Span::new(file, number);
    let answered = [
        span.get() == Some((file, number)),
        span.id() == Some(file),
        span.number() == Some(number),
        Span::detached().get().is_none(),
        file.get() == 7,
        number.get() == 9,
    ];
    more_if(0, &answered)
}

/// `is_xid_start`, `is_xid_continue`, `is_alphabetic`, `is_alphanumeric`, `is_numeric`, `is_word` and `math_class`
/// of each character of a text, and `cluster` of each of its lines.
pub fn of_classes(text: &str) -> usize {
    let classes = UnicodeClasses;
    let mut sum = 0;
    for character in text.chars() {
        let answered = [
            classes.is_xid_start(character),
            classes.is_xid_continue(character),
            classes.is_alphabetic(character),
            classes.is_alphanumeric(character),
            classes.is_numeric(character),
            classes.is_word(character),
            classes.math_class(character) == Some(MathClass::Opening),
        ];
        sum = more_if(sum, &answered);
    }
    for line in text.split('\n') {
        sum = more_of(sum, &[first_cluster(&classes, line)]);
    }
    sum
}

/// `is_newline`, `is_id_start` and `is_id_continue` of each character of a text, `is_ident` and
/// `is_valid_label_literal_id` of the text.
pub fn of_characters(text: &str) -> usize {
    let classes = UnicodeClasses;
    let mut sum = more_if(
        0,
        &[
            is_ident(text, &classes),
            is_valid_label_literal_id(text, &classes),
        ],
    );
    for character in text.chars() {
        let answered = [
            is_newline(character),
            is_id_start(character, &classes),
            is_id_continue(character, &classes),
        ];
        sum = more_if(sum, &answered);
    }
    sum
}
