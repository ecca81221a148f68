//! Named arguments, of code and of formulas.

ghost use Rattle.std.specs.Prelude.{◌≡◌, IfOk, OnOk};
ghost use Rattle.typst_kinds.specs.declared.kind.SyntaxKind.TheVariants as kind;
ghost use Rattle.typst_language.specs.Shape.Shape.{holds};
ghost use Rattle.typst_language.specs.View.{Rewrapped};
ghost use Rattle.typst_markup.specs.Named as spec;

use crate::Key;
use std::alloc::AllocError;
use typst_kinds::{Names, SyntaxKind};
use typst_language::{NodeChange, Parser};

/// Makes one node of a named argument, whose name becomes an error if it was seen.
pub fn wrap_named(
    p: &mut Parser<'_>,
    from: usize,
    names: &Names,
    name: &str,
) -> Result<(), AllocError>
    ensures { OnOk result (Rewrapped from (holds (spec.when_named names.now name.now) kind.Named) p.old p.new) }
{
    if !names.has(name) {
        p.wrap_changed(from, NodeChange::Stays, SyntaxKind::Named)?;
        return Ok(());
    }
    let message = format!(in p.alloc(); "duplicate argument: {name}")?;
    p.wrap_changed(
        from,
        NodeChange::TurnsWrong(message.as_str()),
        SyntaxKind::Named,
    )?;
    Ok(())
}

/// The names that were seen, with that of an argument, if it has one.
pub fn with_argument(names: Names, key: Option<Key>) -> Result<Names, AllocError>
    ensures { IfOk result (λ more. more ≡ spec.with_argument names key) }
{
    let mut names = names;
    match key {
        Some(Key::Name(name)) => names.add(name)?,
        Some(Key::Str(_text)) => {}
        Some(Key::Other) => {}
        None => {}
    }
    Ok(names)
}
