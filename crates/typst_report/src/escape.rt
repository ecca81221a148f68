//! Texts in which some characters are written otherwise.

ghost use Rattle.std.specs.Prelude.{◌≡◌, ◌++◌, OnOk, string_bytes};
ghost use Rattle.std.specs.Option.{option_map};
ghost use Rattle.std.specs.Str.{chars};
ghost use Rattle.typst_report.specs.Escapes as spec;

use std::alloc::AllocError;
use typst_lines::is_newline;

/// What a text becomes a part of, by which some of its characters are written otherwise.
#[derive(Debug, Clone, Copy, PartialEq, Eq)]
pub enum Target {
    /// A line, in which a space stands for each newline character.
    Line,
    /// The message of a workflow command.
    Message,
    /// The value of a property of a workflow command.
    Property,
    /// The text of an HTML page, or the value of an attribute.
    Html,
}

impl Target {
    /// What is written in place of a character, if it isn't the character itself.
    fn instead(self, c: char) -> Option<&'static str>
        ensures { option_map (λ s. s.now) result ≡ spec.instead self c }
    {
        match self {
            Target::Line if is_newline(c) => Some(" "),
            Target::Line => None,
            Target::Message => in_message(c),
            Target::Property => in_property(c),
            Target::Html => in_html(c),
        }
    }
}

fn in_message(c: char) -> Option<&'static str>
    ensures { option_map (λ s. s.now) result ≡ spec.in_message c }
{
    match c {
        '%' => Some("%25"),
        '\r' => Some("%0D"),
        '\n' => Some("%0A"),
        _ => None,
    }
}

fn in_property(c: char) -> Option<&'static str>
    ensures { option_map (λ s. s.now) result ≡ spec.in_property c }
{
    match c {
        ':' => Some("%3A"),
        ',' => Some("%2C"),
        _ => in_message(c),
    }
}

fn in_html(c: char) -> Option<&'static str>
    ensures { option_map (λ s. s.now) result ≡ spec.in_html c }
{
    match c {
        '&' => Some("&amp;"),
        '<' => Some("&lt;"),
        '>' => Some("&gt;"),
        '\'' => Some("&#39;"),
        '"' => Some("&quot;"),
        _ => None,
    }
}

/// Adds a text as its target wants it.
pub fn push_escaped(printed: &mut String, text: &str, target: Target) -> Result<(), AllocError>
    ensures { OnOk result (string_bytes printed.new ≡ string_bytes printed.old ++ spec.escaped target (chars text.now)) }
{
    for c in text.chars() {
        push_char(printed, c, target)?;
    }
    Ok(())
}

fn push_char(printed: &mut String, c: char, target: Target) -> Result<(), AllocError>
    ensures { OnOk result (string_bytes printed.new ≡ string_bytes printed.old ++ spec.escaped_char target c) }
{
    match target.instead(c) {
        Some(escape) => printed.push_str(escape)?,
        None => printed.push(c)?,
    }
    Ok(())
}
