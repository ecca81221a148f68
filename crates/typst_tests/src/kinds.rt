use typst_kinds::{
    Assoc, BinOp, FileId, Span, SpanNumber, SubRange, SyntaxKind, SyntaxSet, UnOp, set,
};

/// The kinds of some tests, and one that is none of them: whether each is trivia, an error, a keyword, a
/// bracket, what ends a sequence, a block, or an expression after a hash.
static CLASSES: [(SyntaxKind, [bool; 7]); 8] = [
    (
        SyntaxKind::Parbreak,
        [true, false, false, false, false, false, false],
    ),
    (
        SyntaxKind::Error,
        [false, true, false, false, false, false, false],
    ),
    (
        SyntaxKind::Else,
        [false, false, true, false, false, false, false],
    ),
    (
        SyntaxKind::None,
        [false, false, true, false, false, false, true],
    ),
    (
        SyntaxKind::LeftBrace,
        [false, false, false, true, false, false, false],
    ),
    (
        SyntaxKind::RightParen,
        [false, false, false, true, true, false, false],
    ),
    (
        SyntaxKind::ContentBlock,
        [false, false, false, false, false, true, true],
    ),
    (
        SyntaxKind::Binary,
        [false, false, false, false, false, false, false],
    ),
];

/// Whether the first and the last kind are put into a set and taken out of it.
fn changes(end: SyntaxSet) -> bool {
    let both = end.add(SyntaxKind::DestructAssignment);
    let last = both.remove(SyntaxKind::End).remove(SyntaxKind::Error);
    both.contains(SyntaxKind::End) && !last.contains(SyntaxKind::End) && last.union(end) == both
}

#[test]
fn kinds_have_classes(rt: HostRuntime) {
    for (kind, wanted) in &CLASSES {
        let classes = [
            kind.is_trivia(),
            kind.is_error(),
            kind.is_keyword(),
            kind.is_grouping(),
            kind.is_terminator(),
            kind.is_block(),
            kind.is_hash_expr(),
        ];
        assert!(rt; classes == *wanted);
    }
    assert!(rt; changes(SyntaxSet::new().add(SyntaxKind::End)));
    assert!(rt; set::CODE_EXPR.contains(SyntaxKind::Minus));
}

/// A kind, its binary operator, how tightly this binds, and on which side first.
type Binary = (SyntaxKind, BinOp, u8, Assoc);

/// One of each precedence.
static BINARY: [Binary; 6] = [
    (SyntaxKind::HyphEq, BinOp::SubAssign, 1, Assoc::Right),
    (SyntaxKind::Or, BinOp::Or, 2, Assoc::Left),
    (SyntaxKind::And, BinOp::And, 3, Assoc::Left),
    (SyntaxKind::In, BinOp::In, 4, Assoc::Left),
    (SyntaxKind::Minus, BinOp::Sub, 5, Assoc::Left),
    (SyntaxKind::Slash, BinOp::Div, 6, Assoc::Left),
];

/// A kind, its unary operator, and how tightly this binds.
type Unary = (SyntaxKind, UnOp, u8);

static UNARY: [Unary; 3] = [
    (SyntaxKind::Plus, UnOp::Pos, 7),
    (SyntaxKind::Minus, UnOp::Neg, 7),
    (SyntaxKind::Not, UnOp::Not, 4),
];

/// The operator of two words, which has no kind, binds as the one of one word does.
#[test]
fn operators(rt: HostRuntime) {
    for (kind, operator, precedence, assoc) in &BINARY {
        assert!(rt; BinOp::from_kind(*kind) == Some(*operator));
        assert!(rt; operator.precedence() == *precedence && operator.assoc() == *assoc);
    }
    assert!(rt; BinOp::NotIn.precedence() == 4 && BinOp::NotIn.assoc() == Assoc::Left);
    for (kind, operator, precedence) in &UNARY {
        assert!(rt; UnOp::from_kind(*kind) == Some(*operator));
        assert!(rt; operator.precedence() == *precedence);
    }
}

/// Spans keep the greatest file and number; beyond the limits there is no file, no number, and no range.
#[test]
fn spans(rt: HostRuntime) {
    let file = FileId::new(65535).expect(&rt, "a file");
    let number = SpanNumber::new((1 << 47) - 1).expect(&rt, "a number");
    let span = Span::new(file, number);
    assert!(rt; span.get() == Some((file, number)) && span.id() == Some(file));
    assert!(rt; span.number_or_zero() == number.get());
    assert!(rt; Span::detached().get().is_none());
    assert!(rt; FileId::new(0).is_none());
    assert!(rt; SpanNumber::new(1).is_none() && SpanNumber::new(2).is_some());
    assert!(rt; SpanNumber::new(1 << 47).is_none());
    assert!(rt; SubRange::new(3, 1).is_none() && SubRange::new(3, 3).is_some());
}
