//! The words `depths`, `leaves`, `size`, `asked` and `again`. The first line of a row's text is the mode in which the
//! text after it is read: `markup`, `code` or `math`.

use std::alloc::{AllocError, Global};
use std::cell::Cell;
use typst_edited::cli::tree::print_errors;
use typst_edited::cli::{
    Classes, SyntaxMode, SyntaxNode, UnicodeClasses, parse, parse_code, parse_math, parse_noted,
};
use typst_fakes::Counting;

/// A text that is read in a mode.
#[derive(Clone, Copy)]
struct Moded<'a> {
    mode: SyntaxMode,
    text: &'a str,
}

impl<'a> Moded<'a> {
    /// The text after the line that names its mode; markup where it names none.
    fn of(text: &'a str) -> Moded<'a> {
        let (mode, text) = text.split_once('\n').unwrap_or((text, ""));
        let mode = match mode {
            "code" => SyntaxMode::Code,
            "math" => SyntaxMode::Math,
            _ => SyntaxMode::Markup,
        };
        Moded { mode, text }
    }

    /// Its tree.
    fn tree<C: Classes>(self, alloc: Global, classes: &C) -> Result<SyntaxNode, AllocError> {
        match self.mode {
            SyntaxMode::Markup => parse(alloc, self.text, classes),
            SyntaxMode::Code => parse_code(alloc, self.text, classes),
            SyntaxMode::Math => parse_math(alloc, self.text, classes),
        }
    }

    /// Its tree, if not at once then the next time.
    fn tree_again(self, alloc: Global) -> Result<SyntaxNode, AllocError> {
        match self.tree(alloc, &UnicodeClasses) {
            Ok(tree) => Ok(tree),
            Err(AllocError) => self.tree(alloc, &UnicodeClasses),
        }
    }
}

/// Prints the leaves that show how deep the tree goes: the last, those that are children of the root, and those
/// with an error of too great a depth. Each has a line: how many steps it is below the root, its text, and the
/// messages of its errors.
pub fn print_depths(alloc: Global, printed: &mut String, text: &str) -> Result<(), AllocError> {
    let root = Moded::of(text).tree(alloc, &UnicodeClasses)?;
    let mut walk = root.preorder(alloc);
    for after in (0..root.descendants()).rev() {
        if let Some(visit) = walk.next()? {
            let (node, steps) = (visit.node, visit.depth);
            let is_too_deep = match node.diagnostics() {
                [error] => error.message() == "maximum parsing depth exceeded",
                _ => false,
            };
            let is_shown = steps == 1 || after == 0 || is_too_deep;
            if is_shown && node.children().is_empty() {
                print_leaf(printed, node, steps)?;
            }
        }
    }
    Ok(())
}

/// Prints the line of a leaf that is a given number of steps below the root.
fn print_leaf(printed: &mut String, leaf: &SyntaxNode, steps: usize) -> Result<(), AllocError> {
    let text = leaf.leaf_text();
    write!(printed, "{steps} {text:?}")?;
    print_errors(printed, leaf.diagnostics())?;
    printed.push_str("\n")
}

/// Prints the leaves of the tree, a line for each, and one for several in a row that are alike: how many they are,
/// their kind, their text, and the messages of their errors.
pub fn print_leaves(alloc: Global, printed: &mut String, text: &str) -> Result<(), AllocError> {
    let root = Moded::of(text).tree(alloc, &UnicodeClasses)?;
    let mut alike = Alike {
        line: String::new(alloc),
        count: 0,
    };
    let mut walk = root.preorder(alloc);
    for _ in 0..root.descendants() {
        if let Some(visit) = walk.next()? {
            alike.take(alloc, printed, visit.node)?;
        }
    }
    alike.end(printed)
}

/// Leaves in a row that are alike.
#[derive(Drop)]
struct Alike {
    /// Their line, except for the count: their kind, their text, and the messages of their errors.
    line: String,
    count: usize,
}

impl Alike {
    /// Takes the next node, which counts where it is a leaf. Prints the line of those before it that it isn't like.
    fn take(
        &mut self,
        alloc: Global,
        printed: &mut String,
        node: &SyntaxNode,
    ) -> Result<(), AllocError> {
        if node.is_inner() {
            return Ok(());
        }
        let (name, text) = (node.kind().variant_name(), node.leaf_text());
        let mut line = format!(in alloc; "{name} {text:?}")?;
        print_errors(&mut line, node.diagnostics())?;
        if line.as_str() != self.line.as_str() {
            self.end(printed)?;
            self.line = line;
            self.count = 0;
        }
        self.count = self.count.saturating_add(1);
        Ok(())
    }

    /// Prints their line, where there are any.
    fn end(&self, printed: &mut String) -> Result<(), AllocError> {
        let (count, line) = (self.count, self.line.as_str());
        if count == 0 {
            return Ok(());
        }
        writeln!(printed, "{count} {line}")
    }
}

/// Prints how many nodes the tree of the whole text has.
pub fn print_size(alloc: Global, printed: &mut String, text: &str) -> Result<(), AllocError> {
    let moded = Moded::of(text);
    let root = moded.tree(alloc, &UnicodeClasses)?;
    if root.len() != moded.text.len() {
        return printed.push_str("another length\n");
    }
    let nodes = root.descendants();
    writeln!(printed, "{nodes} nodes")
}

/// Prints how many nodes the tree has, read with classes that count how often they are asked. The second line of
/// the text has how often that is at least and at most, and the text comes after it.
pub fn print_asked(alloc: Global, printed: &mut String, text: &str) -> Result<(), AllocError> {
    let Moded { mode, text } = Moded::of(text);
    let Some((line, text)) = text.split_once('\n') else {
        return printed.push_str("no text\n");
    };
    let moded = Moded { mode, text };
    let calls = Cell::new(0);
    let counted = moded.tree(alloc, &Counting { calls: &calls })?;
    if !lies_within(calls.get(), line) {
        let calls = calls.get();
        return writeln!(printed, "{calls} calls");
    }
    if !counted.spanless_eq(&moded.tree(alloc, &UnicodeClasses)?) {
        return printed.push_str("another tree\n");
    }
    let nodes = counted.descendants();
    writeln!(printed, "{nodes} nodes")
}

/// Whether a number is none of those below the first one of a line, or above the second one.
fn lies_within(number: usize, line: &str) -> bool {
    let Some((least, most)) = line.split_once(' ') else {
        return false;
    };
    match (least.parse::<usize>(), most.parse::<usize>()) {
        (Ok(least), Ok(most)) => least <= number && number <= most,
        _ => false,
    }
}

/// Prints whether the text is read as the same tree twice, and beside its notes where it is markup. What is
/// refused memory is done again.
pub fn print_again(alloc: Global, printed: &mut String, text: &str) -> Result<(), AllocError> {
    let moded = Moded::of(text);
    let (tree, other) = (moded.tree_again(alloc)?, moded.tree_again(alloc)?);
    let is_same = tree.len() == moded.text.len() && tree.spanless_eq(&other);
    let is_noted = moded.mode != SyntaxMode::Markup || is_noted(alloc, moded.text, &tree)?;
    printed.push_str(if is_same && is_noted {
        "the same tree\n"
    } else {
        "another tree\n"
    })
}

/// Whether this tree stands beside the notes of a text.
fn is_noted(alloc: Global, text: &str, tree: &SyntaxNode) -> Result<bool, AllocError> {
    let noted = match parse_noted(alloc, text, &UnicodeClasses) {
        Ok(noted) => noted,
        Err(AllocError) => parse_noted(alloc, text, &UnicodeClasses)?,
    };
    Ok(noted.tree.spanless_eq(tree))
}
