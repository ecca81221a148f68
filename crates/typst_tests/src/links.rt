//! The brackets of links.
use std::alloc::{AllocError, Global};
use typst_lines::link_prefix;

/// The text without the pairs that stand in it.
fn without_pairs(alloc: Global, text: &str) -> Result<String, AllocError> {
    let left = text.replace(alloc, "()", "")?;
    left.as_str().replace(alloc, "[]", "")
}

/// Whether all brackets are closed; nothing where other than opening ones are left once pairs are taken out
/// again and again.
fn closed(alloc: Global, brackets: &str) -> Result<Option<bool>, AllocError> {
    let mut left = String::from_str(alloc, brackets)?;
    for _ in 0..brackets.len() {
        left = without_pairs(alloc, left.as_str())?;
    }
    let is_closing = left.as_str().contains(")") || left.as_str().contains("]");
    Ok((!is_closing).then_some(left.is_empty()))
}

/// The longest beginning of which only opening brackets are left without its pairs, and whether
/// all its brackets are closed.
fn longest(alloc: Global, brackets: &str) -> Result<(usize, bool), AllocError> {
    let mut best = (0, true);
    for end in 1..7 {
        let Some(front) = brackets.get(..end) else {
            return Ok(best);
        };
        match closed(alloc, front)? {
            Some(is_closed) => best = (end, is_closed),
            None => return Ok(best),
        }
    }
    Ok(best)
}

const BRACKETS: [char; 4] = ['(', ')', '[', ']'];

/// The brackets that a number writes in base four.
fn written(alloc: Global, count: usize, number: usize) -> Result<String, AllocError> {
    let mut brackets = String::new(alloc);
    let mut rest = number;
    for _ in 0..count {
        brackets.push(BRACKETS[rest % 4])?;
        rest /= 4;
    }
    Ok(brackets)
}

/// Whether the link of up to six brackets, which a number writes, is what pairs alone say.
fn agrees(alloc: Global, count: usize, number: usize) -> Result<bool, AllocError> {
    let brackets = written(alloc, count, number)?;
    let (link, is_balanced) = link_prefix(alloc, brackets.as_str())?;
    let found = (link.len(), is_balanced);
    Ok(longest(alloc, brackets.as_str())? == found)
}

/// All ways to write up to six brackets.
#[test]
fn closes_brackets(rt: HostRuntime) {
    let mut ways = 1usize;
    for count in 0..7 {
        for number in 0..ways {
            assert!(rt; agrees(rt.alloc(), count, number) == Ok(true));
        }
        ways = ways.saturating_mul(4);
    }
}
