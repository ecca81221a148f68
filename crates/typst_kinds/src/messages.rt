ghost use Rattle.std.specs.Prelude.{◌≡◌, IfOk};
ghost use Rattle.typst_kinds.specs.Messages.{expected_message, unexpected_message, keyword_hint, is_lost_name, is_name_word};

use crate::{SyntaxKind, Text};
use std::alloc::{AllocError, Global};

/// The message `expected THING, found NAME`, with the name of the kind that was found.
pub fn expected_message(alloc: Global, thing: &str, name: &str) -> Result<Text, AllocError>
    ensures { IfOk result (λ m. m ≡ expected_message thing.now name.now) }
{
    let message = format!(in alloc; "expected {thing}, found {name}")?;
    Ok(Text::from_string(message))
}

/// The message `unexpected NAME`, with the name of the kind that was found.
pub fn unexpected_message(alloc: Global, name: &str) -> Result<Text, AllocError>
    ensures { IfOk result (λ m. m ≡ unexpected_message name.now) }
{
    let message = format!(in alloc; "unexpected {name}")?;
    Ok(Text::from_string(message))
}

/// The hint for a keyword that was found where a name was expected: to write it with `_` after it.
pub fn keyword_hint(alloc: Global, text: &str) -> Result<Text, AllocError>
    ensures { IfOk result (λ m. m ≡ keyword_hint text.now) }
{
    let message = format!(in alloc;
        "keyword `{text}` is not allowed as an identifier; try `{text}_` instead"
    )?;
    Ok(Text::from_string(message))
}

fn is_name_word(thing: &str) -> bool
    ensures { result ≡ is_name_word thing.now }
{
    thing == "identifier" || thing == "pattern"
}

/// Whether a keyword was found where an identifier or a pattern was expected.
pub fn is_lost_name(kind: SyntaxKind, thing: &str) -> bool
    ensures { result ≡ is_lost_name kind thing.now }
{
    kind.is_keyword() && is_name_word(thing)
}
