//! Names with their bindings and uses: the words `names` and `occurrences`.

use std::alloc::{AllocError, Global};
use std::ops::Range;
use typst_features::{
    Name, NameKind, Named, OccurrenceKind, Role, binding_of, name_roles, named_at, names,
};
use typst_highlight::tag_stretches;
use typst_tree::SyntaxNode;

/// Shows the names of a text: a line for each with what it does, its range and, where that is known, the range of the
/// binding that it means. What is bound by the table of scopes or by that of contexts, and not by the other one, has
/// a line below.
pub fn meanings(
    alloc: Global,
    shown: &mut String,
    root: &SyntaxNode,
    text: &str,
) -> Result<(), AllocError> {
    let names = names(alloc, root)?;
    for index in 0..names.len() {
        show_meaning(shown, text, &names, index)?;
    }
    show_unlike(alloc, shown, root, &names)
}

/// Shows which bytes only one of the two tables has as bound.
fn show_unlike(
    alloc: Global,
    shown: &mut String,
    root: &SyntaxNode,
    names: &[Name],
) -> Result<(), AllocError> {
    let tagged = tag_stretches(alloc, root)?;
    let roles = name_roles(alloc, root)?;
    for (stretch, role) in tagged.iter().zip(roles.iter()) {
        let Range { start, end } = stretch.range;
        let is_declared = matches!(
            *role,
            Some(Role::Variable | Role::Function | Role::Parameter | Role::Alias)
        );
        if is_bound(names, start) != is_declared {
            writeln!(shown, "unlike {start}..{end}")?;
        }
    }
    Ok(())
}

/// Whether a name that begins at a byte is bound by the table of scopes, and isn't that of a module, which is bound by
/// a part of what it is imported from.
fn is_bound(names: &[Name], start: usize) -> bool {
    for name in names {
        let is_binding = name.kind == NameKind::Binding || name.kind == NameKind::Item;
        if is_binding && name.range.start == start {
            return true;
        }
    }
    false
}

/// Shows the line of a name.
fn show_meaning(
    shown: &mut String,
    text: &str,
    names: &[Name],
    index: usize,
) -> Result<(), AllocError> {
    let Some(name) = names.get(index) else {
        return Ok(());
    };
    let Range { start, end } = name.range;
    let word = text.get(start..end).unwrap_or("?");
    let kind = match name.kind {
        NameKind::Use => "use",
        NameKind::Binding => "binding",
        NameKind::Item => "item",
        NameKind::Any => "any",
        NameKind::Module(_) => "module",
    };
    write!(shown, "{kind} {word} {start}..{end}")?;
    if name.kind != NameKind::Use {
        let until = name.until;
        return writeln!(shown, " up to {until}");
    }
    let binding = binding_of(text, names, index).unwrap_or(names.len());
    match names.get(binding) {
        Some(binding) => {
            let Range { start, end } = binding.range;
            writeln!(shown, " of {start}..{end}")
        }
        None => writeln!(shown, " of what isn't known"),
    }
}

/// Shows the rest of a line with what is named at a byte: the range of the name and all its occurrences, and where a
/// rename puts the new name.
pub fn occurrences(
    alloc: Global,
    shown: &mut String,
    root: &SyntaxNode,
    text: &str,
    byte: usize,
) -> Result<(), AllocError> {
    let Some(named) = named_at(alloc, root, text, byte)? else {
        return shown.push_str(" nothing\n");
    };
    let Range { start, end } = named.range;
    write!(shown, " {start}..{end}")?;
    for occurrence in &named.occurrences {
        let kind = match occurrence.kind {
            OccurrenceKind::Definition => "definition",
            OccurrenceKind::Item => "item",
            OccurrenceKind::Module(_) => "module",
            OccurrenceKind::Use => "use",
        };
        let Range { start, end } = occurrence.range;
        write!(shown, " {kind} {start}..{end}")?;
    }
    show_renamed(alloc, shown, &named)
}

/// Shows where a rename puts the new name.
fn show_renamed(alloc: Global, shown: &mut String, named: &Named) -> Result<(), AllocError> {
    for renamed in &named.renamed(alloc)? {
        let (start, end, before) = (renamed.range.start, renamed.range.end, renamed.before);
        write!(shown, ", put {start}..{end}{before}")?;
    }
    shown.push_str("\n")
}
