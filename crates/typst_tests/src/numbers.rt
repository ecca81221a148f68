use crate::rows::{Part, Row, list, long_tree, tree};
use crate::trees::{END, number, numbered, numbers, replace};
use std::alloc::Global;
use typst_kinds::{SourceError, SyntaxKind};
use typst_tree::SyntaxNode;

const A_UNDER_MARKUP: [Row; 2] = [
    (SyntaxKind::Text, "a", None),
    (SyntaxKind::Markup, "", Some(1)),
];

const B_UNDER_MARKUP: [Row; 2] = [
    (SyntaxKind::Text, "b", None),
    (SyntaxKind::Markup, "", Some(1)),
];

const B: [Row; 1] = [(SyntaxKind::Text, "b", None)];

const B_AND_TILDE: [Row; 2] = [
    (SyntaxKind::Text, "b", None),
    (SyntaxKind::Shorthand, "~", None),
];

// `a *b* c`, as the Rust original numbers it.
const ORIGINAL: [Row; 10] = [
    (SyntaxKind::Text, "a", None),
    (SyntaxKind::Space, " ", None),
    (SyntaxKind::Star, "*", None),
    (SyntaxKind::Text, "b", None),
    (SyntaxKind::Markup, "", Some(1)),
    (SyntaxKind::Star, "*", None),
    (SyntaxKind::Strong, "", Some(3)),
    (SyntaxKind::Space, " ", None),
    (SyntaxKind::Text, "c", None),
    (SyntaxKind::Markup, "", Some(5)),
];

const ORIGINAL_NUMBERS: &[u64] = &[
    3518437208885,
    10555311626651,
    17592186044417,
    22869841857741,
    26388279066624,
    29027106973286,
    30786325577727,
    36943590693273,
    59813432551013,
    66850306968779,
];

/// What is done to a tree.
enum Act {
    /// It gets numbers from a first one up to an end.
    Number(u64, u64),
    /// A number of its first children are replaced by these leaves.
    Replace(usize, &'static [Row]),
}

/// What is done to a tree, and what comes of it.
struct Case {
    rows: &'static [Row],
    /// The end of the numbers that the tree has, 0 where it has none.
    end: u64,
    act: Act,
    answer: Result<(), SourceError>,
    /// The tree then.
    then: &'static [Row],
    numbers: &'static [u64],
}

/// The tree to which it is done.
fn given(alloc: Global, case: &Case) -> Option<SyntaxNode> {
    let node = tree(alloc, case.rows)?;
    if case.end == 0 {
        return Some(node);
    }
    numbered(node, case.end)
}

/// Does it.
fn done(alloc: Global, node: &mut SyntaxNode, act: &Act) -> Option<Result<(), SourceError>> {
    match act {
        Act::Number(start, end) => Some(number(node, *start, *end)),
        Act::Replace(to, rows) => Some(replace(node, &[], 0, *to, list(alloc, rows)?)),
    }
}

/// Whether the tree is then what it ought to be.
fn is_then(alloc: Global, node: &SyntaxNode, case: &Case) -> Option<bool> {
    let is_tree = node.spanless_eq(&tree(alloc, case.then)?);
    Some(is_tree && numbers(alloc, node)?.as_slice() == case.numbers)
}

/// Whether that comes which ought to.
fn comes(alloc: Global, case: &Case) -> Option<bool> {
    let mut node = given(alloc, case)?;
    let answer = done(alloc, &mut node, &case.act)?;
    Some(answer == case.answer && is_then(alloc, &node, case)?)
}

/// Trees that get numbers, of which two are enough for two nodes; trees that find none, which keep their own; leaves
/// in the place of others: one that takes the other's number, and two for which there is none. Without a file
/// numbers are refused also where no new node asks for a number.
static CASES: [Case; 10] = [
    Case {
        rows: &A_UNDER_MARKUP,
        end: 0,
        act: Act::Number(2, 4),
        answer: Ok(()),
        then: &A_UNDER_MARKUP,
        numbers: &[2, 3],
    },
    Case {
        rows: &A_UNDER_MARKUP,
        end: 0,
        act: Act::Number(2, END),
        answer: Ok(()),
        then: &A_UNDER_MARKUP,
        numbers: &[17592186044417, 52776558133248],
    },
    Case {
        rows: &ORIGINAL,
        end: 0,
        act: Act::Number(2, END),
        answer: Ok(()),
        then: &ORIGINAL,
        numbers: ORIGINAL_NUMBERS,
    },
    Case {
        rows: &A_UNDER_MARKUP,
        end: 0,
        act: Act::Number(2, 3),
        answer: Err(SourceError::SpanNumbers),
        then: &A_UNDER_MARKUP,
        numbers: &[0, 0],
    },
    Case {
        rows: &A_UNDER_MARKUP,
        end: 4,
        act: Act::Number(7, 8),
        answer: Err(SourceError::SpanNumbers),
        then: &A_UNDER_MARKUP,
        numbers: &[2, 3],
    },
    Case {
        rows: &A_UNDER_MARKUP,
        end: 4,
        act: Act::Replace(1, &B),
        answer: Ok(()),
        then: &B_UNDER_MARKUP,
        numbers: &[2, 3],
    },
    Case {
        rows: &A_UNDER_MARKUP,
        end: 4,
        act: Act::Replace(1, &B_AND_TILDE),
        answer: Err(SourceError::SpanNumbers),
        then: &A_UNDER_MARKUP,
        numbers: &[2, 3],
    },
    Case {
        rows: &A_UNDER_MARKUP,
        end: 0,
        act: Act::Replace(1, &B),
        answer: Err(SourceError::SpanNumbers),
        then: &A_UNDER_MARKUP,
        numbers: &[0, 0],
    },
    Case {
        rows: &A_UNDER_MARKUP,
        end: 0,
        act: Act::Replace(1, &[]),
        answer: Err(SourceError::SpanNumbers),
        then: &A_UNDER_MARKUP,
        numbers: &[0, 0],
    },
    Case {
        rows: &A_UNDER_MARKUP,
        end: 0,
        act: Act::Replace(0, &[]),
        answer: Err(SourceError::SpanNumbers),
        then: &A_UNDER_MARKUP,
        numbers: &[0, 0],
    },
];

#[test]
fn numbers_are_given_or_refused(rt: HostRuntime) {
    for case in &CASES {
        assert!(rt; comes(rt.alloc(), case) == Some(true));
    }
}

const OLD: [Row; 6] = [
    (SyntaxKind::Text, "x", None),
    (SyntaxKind::Space, "x", None),
    (SyntaxKind::Star, "x", None),
    (SyntaxKind::Comma, "x", None),
    (SyntaxKind::Text, "x", None),
    (SyntaxKind::Markup, "", Some(5)),
];

const NEW: [Row; 3] = [
    (SyntaxKind::Space, "x", None),
    (SyntaxKind::Hash, "x", None),
    (SyntaxKind::Comma, "x", None),
];

/// Of the three leaves in the middle only one is new, and only its number is another one.
#[test]
fn what_stays_keeps_its_number(rt: HostRuntime) {
    let tree = tree(rt.alloc(), &OLD).expect(&rt, "memory");
    let mut node = numbered(tree, END).expect(&rt, "numbers");
    let old = numbers(rt.alloc(), &node).expect(&rt, "memory");
    let fresh = list(rt.alloc(), &NEW).expect(&rt, "memory");
    assert!(rt; replace(&mut node, &[], 1, 4, fresh).is_ok());
    let new = numbers(rt.alloc(), &node).expect(&rt, "memory");
    let (before, after) = (old.as_slice(), new.as_slice());
    assert!(rt; before.get(3) != after.get(3));
    assert!(rt; before.get(..3) == after.get(..3) && before.get(4..) == after.get(4..));
}

/// Whether each number is below the next one, and the last one below the end.
fn are_in_order(all: &[u64], end: u64) -> bool {
    let mut above = 0;
    for number in all {
        if *number <= above {
            return false;
        }
        above = *number;
    }
    above < end
}

const TWO: [Row; 2] = [
    (SyntaxKind::Shorthand, "x", None),
    (SyntaxKind::Text, "x", None),
];

const SPACES: [Part; 2] = [
    (&[(SyntaxKind::Space, "x", None)], 400),
    (&[(SyntaxKind::Markup, "", Some(400))], 1),
];

/// Of one leaf in the middle by two. Few numbers are free, so that neighbours have to be numbered again and again.
#[test]
fn two_hundred_replacements(rt: HostRuntime) {
    let tree = long_tree(rt.alloc(), &SPACES).expect(&rt, "memory");
    let mut node = numbered(tree, 1000).expect(&rt, "numbers");
    for _ in 0..200 {
        let middle = node.children().len() / 2;
        let two = list(rt.alloc(), &TWO).expect(&rt, "memory");
        assert!(rt; replace(&mut node, &[], middle, middle + 1, two).is_ok());
        let numbers = numbers(rt.alloc(), &node).expect(&rt, "memory");
        assert!(rt; are_in_order(numbers.as_slice(), 1000));
    }
    assert!(rt; node.len() == 600);
}
