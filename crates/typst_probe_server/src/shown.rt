//! What a language server shows of a text: the words `outline`, `foldings`, `problems`, `shown-problems`,
//! `quick-fixes` and `document-links`.

use std::alloc::{AllocError, Global};
use std::ops::Range;
use typst_features::{
    FoldKind, LinkKind, Problem, SymbolKind, document_links, foldings, problems, symbols,
};
use typst_fixes::{Edit, Fix, quick_fixes};
use typst_grammar::parse;
use typst_kinds::Severity;
use typst_lines::UnicodeClasses;
use typst_tree::SyntaxNode;

/// Shows the outline of a text: a line for each entry with its depth, its kind, its name and its range.
pub fn outline(
    alloc: Global,
    shown: &mut String,
    root: &SyntaxNode,
    text: &str,
) -> Result<(), AllocError> {
    for symbol in &symbols(alloc, root)? {
        let kind = match symbol.kind {
            SymbolKind::Heading => "heading",
            SymbolKind::Variable => "variable",
            SymbolKind::Function => "function",
            SymbolKind::Label => "label",
        };
        let depth = symbol.depth;
        let Range { start, end } = symbol.range;
        let name = text.get(symbol.name.start..symbol.name.end).unwrap_or("?");
        writeln!(shown, "{depth} {kind} {name} {start}..{end}")?;
    }
    Ok(())
}

/// Shows the foldings of a text: a line for each with its kind, its range, and whether it is closed.
pub fn folds(alloc: Global, shown: &mut String, root: &SyntaxNode) -> Result<(), AllocError> {
    for fold in &foldings(alloc, root)? {
        let kind = match fold.kind {
            FoldKind::Region => "region",
            FoldKind::Comment => "comment",
        };
        let (start, end) = (fold.range.start, fold.range.end);
        let closed = if fold.is_closed { " closed" } else { "" };
        writeln!(shown, "{kind} {start}..{end}{closed}")?;
    }
    Ok(())
}

/// Shows errors and warnings: a line for each, where it is, how grave, what it says, and where that is wanted how
/// many hints it has.
pub fn report(
    shown: &mut String,
    found: &[Problem<'_>],
    with_hints: bool,
) -> Result<(), AllocError> {
    for problem in found {
        let grave = match problem.diagnostic.severity() {
            Severity::Error => "error",
            Severity::Warning => "warning",
        };
        let (start, end) = (problem.range.start, problem.range.end);
        let says = problem.diagnostic.message();
        write!(shown, "{start}..{end} {grave}: {says}")?;
        if with_hints {
            let hints = problem.diagnostic.hints().len();
            write!(shown, " ({hints})")?;
        }
        shown.push_str("\n")?;
    }
    Ok(())
}

/// Shows what takes errors and warnings of a text away: a line for each with the bytes of the problem, how many
/// problems are left, and the new text.
pub fn fixes(
    alloc: Global,
    shown: &mut String,
    root: &SyntaxNode,
    text: &str,
) -> Result<(), AllocError> {
    for fix in &quick_fixes(alloc, root, text, &(0..text.len()))? {
        let new = made(alloc, text, fix)?;
        let left = problems(alloc, &parse(alloc, new.as_str(), &UnicodeClasses)?)?.len();
        let (start, end, new) = (fix.problem.start, fix.problem.end, new.as_str());
        writeln!(shown, "{start}..{end} {left} left: {new}")?;
    }
    Ok(())
}

/// A text with a fix made.
fn made(alloc: Global, text: &str, fix: &Fix<'_>) -> Result<String, AllocError> {
    let mut new = String::from_str(alloc, text.get(..fix.edit.range.start).unwrap_or(""))?;
    push_edit(&mut new, &fix.edit)?;
    let mut end = fix.edit.range.end;
    if let Some(further) = &fix.further {
        new.push_str(text.get(end..further.range.start).unwrap_or("?"))?;
        push_edit(&mut new, further)?;
        end = further.range.end;
    }
    new.push_str(text.get(end..).unwrap_or(""))?;
    Ok(new)
}

/// Adds what an edit puts in the place of what gives way.
fn push_edit(new: &mut String, edit: &Edit<'_>) -> Result<(), AllocError> {
    if edit.space_before {
        new.push_str(" ")?;
    }
    new.push_str(edit.text)?;
    if edit.space_behind {
        new.push_str(" ")?;
    }
    Ok(())
}

/// Shows the links of a text: a line for each with its kind, its range and what it names.
pub fn links(alloc: Global, shown: &mut String, root: &SyntaxNode) -> Result<(), AllocError> {
    for link in &document_links(alloc, root)? {
        let kind = match link.kind {
            LinkKind::Address => "address",
            LinkKind::File => "file",
        };
        let (start, end, target) = (link.range.start, link.range.end, link.target);
        writeln!(shown, "{kind} {start}..{end} {target}")?;
    }
    Ok(())
}
