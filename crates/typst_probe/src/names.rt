//! The words `kinds` and `tag-list`.

use std::alloc::AllocError;
use typst_edited::cli::Tag;
use typst_flat::{kind_count, kind_of_code};

/// Prints the names of all kinds of nodes, in the order of their definitions: a line for each, as the code has it
/// and as messages have it.
pub fn print_kinds(printed: &mut String) -> Result<(), AllocError> {
    for code in 0..u32::try_from(kind_count()).unwrap_or(u32::MAX) {
        if let Some(kind) = kind_of_code(code) {
            let (variant, name) = (kind.variant_name(), kind.name());
            writeln!(printed, "{variant}: {name}")?;
        }
    }
    Ok(())
}

/// Prints all tags: a line for each with its scope in a TextMate grammar and its class in HTML.
pub fn print_tags(printed: &mut String) -> Result<(), AllocError> {
    for tag in Tag::LIST {
        let (scope, class) = (tag.tm_scope(), tag.css_class());
        writeln!(printed, "{tag:?} {scope} {class}")?;
    }
    Ok(())
}
