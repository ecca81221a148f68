//! The word `html`.

ghost use Rattle.std.specs.Prelude.{◌≡◌, [], ◌∷◌, ◌++◌, IfOk, string_bytes};
ghost use Rattle.typst_highlight.specs.Html.{plain, read};
ghost use Rattle.typst_report.specs.PrintedHtml.{html_printed};

use std::alloc::{AllocError, Global};
use typst_grammar::parse;
use typst_highlight::highlight_html;
use typst_lines::Classes;

/// The text as HTML, each node of its syntax tree in the span of its tag, and a newline.
pub fn answer<C: Classes>(alloc: Global, text: &str, classes: &C) -> Result<String, AllocError>
    ensures html { IfOk result (λ printed. string_bytes printed ≡ html_printed (C.classes classes.now) text.now) }
    ensures shown { IfOk result (λ printed. read plain (string_bytes printed) ≡ text.now ++ (10 ∷ [])) }
{
    let root = parse(alloc, text, classes)?;
    let mut printed = highlight_html(alloc, &root)?;
    printed.push_str("\n")?;
    Ok(printed)
}
