//! Imports.

ghost use Rattle.std.specs.Prelude.{◌≡◌, OnOk};
ghost use Rattle.typst_language.specs.Syntax.Parser.{repeat};
ghost use Rattle.typst_language.specs.View.{Means, MeansBy, Rewrapped};
ghost use Rattle.typst_code.specs.Imports as spec;

use std::alloc::AllocError;
use typst_bindings::{code_expression, separator};
use typst_kinds::SyntaxKind;
use typst_language::{AtNewline, Levels, NodeChange, Parser};

/// Reads a dot and a name; answers whether they came.
fn path_turn<L: Levels>(g: &L, p: &mut Parser<'_>) -> Result<bool, AllocError>
    ensures { MeansBy (L.frame g.now) (λ more. (more, tt)) (spec.path_turn tt) p.old result p.new }
{
    let dot = p.eat_if(p.current() == SyntaxKind::Dot, g)?;
    if dot {
        p.expect_identifier(g)?;
    }
    Ok(dot)
}

fn path_turns<L: Levels>(g: &L, p: &mut Parser<'_>) -> Result<(), AllocError>
    ensures { Means (L.frame g.now) (repeat spec.path_turn tt) p.old result p.new }
{
    'turns: loop {
        let before = p.left();
        let more = path_turn(g, p)?;
        if !p.goes_on(more, before) {
            return Ok(());
        }
    }
}

/// Reads a name; any other token is unexpected.
fn import_name<L: Levels>(g: &L, p: &mut Parser<'_>) -> Result<(), AllocError>
    ensures { Means (L.frame g.now) spec.import_name p.old result p.new }
{
    if p.current() == SyntaxKind::Ident {
        p.eat(g)?;
        return Ok(());
    }
    p.unexpected(g)?;
    Ok(())
}

/// Reads a path: a name, and names after dots.
fn import_path<L: Levels>(g: &L, p: &mut Parser<'_>) -> Result<(), AllocError>
    ensures { Means (L.frame g.now) spec.import_path p.old result p.new }
{
    let from = p.marker();
    import_name(g, p)?;
    path_turns(g, p)?;
    p.wrap(from, SyntaxKind::ImportItemPath)?;
    Ok(())
}

/// Reads `as` and a name; answers whether they came.
fn renaming<L: Levels>(g: &L, p: &mut Parser<'_>) -> Result<bool, AllocError>
    ensures { Means (L.frame g.now) spec.renaming p.old result p.new }
{
    let renamed = p.eat_if(p.current() == SyntaxKind::As, g)?;
    if renamed {
        p.expect_identifier(g)?;
    }
    Ok(renamed)
}

/// Reads an item and what separates it from the next, unless the items end; answers whether it did.
fn import_turn<L: Levels>(g: &L, p: &mut Parser<'_>) -> Result<bool, AllocError>
    ensures { MeansBy (L.frame g.now) (λ more. (more, tt)) (spec.import_turn tt) p.old result p.new }
{
    if p.current().is_terminator() {
        return Ok(false);
    }
    let from = p.marker();
    import_path(g, p)?;
    let renamed = renaming(g, p)?;
    wrap_import(p, from, renamed)?;
    separator(g, p)?;
    Ok(true)
}

/// Makes one node of an item that is renamed.
fn wrap_import(p: &mut Parser<'_>, from: usize, renamed: bool) -> Result<(), AllocError>
    ensures { OnOk result (Rewrapped from (spec.import_shape renamed) p.old p.new) }
{
    if renamed {
        p.wrap(from, SyntaxKind::RenamedImportItem)?;
        return Ok(());
    }
    p.change(from, NodeChange::Stays)?;
    Ok(())
}

fn import_turns<L: Levels>(g: &L, p: &mut Parser<'_>) -> Result<(), AllocError>
    ensures { Means (L.frame g.now) (repeat spec.import_turn tt) p.old result p.new }
{
    'turns: loop {
        let before = p.left();
        let more = import_turn(g, p)?;
        if !p.goes_on(more, before) {
            return Ok(());
        }
    }
}

/// Reads the items that are imported.
fn import_items<L: Levels>(g: &L, p: &mut Parser<'_>) -> Result<(), AllocError>
    ensures { Means (L.frame g.now) spec.import_items p.old result p.new }
{
    let from = p.marker();
    import_turns(g, p)?;
    p.wrap(from, SyntaxKind::ImportItems)?;
    Ok(())
}

/// Reads the items that are imported, in parens.
fn import_parens<L: Levels>(g: &L, p: &mut Parser<'_>) -> Result<(), AllocError>
    ensures { Means (L.frame g.now) spec.import_parens p.old result p.new }
{
    let from = p.marker();
    let outer = p.enter_rule(AtNewline::Continue);
    p.eat(g)?;
    import_items(g, p)?;
    let closed = p.eat_if(p.current() == SyntaxKind::RightParen, g)?;
    p.leave(outer, g)?;
    close_parens(p, from, closed)?;
    Ok(())
}

/// Makes the first paren an error if the second is missing.
fn close_parens(p: &mut Parser<'_>, from: usize, closed: bool) -> Result<(), AllocError>
    ensures { OnOk result (Rewrapped from (spec.parens_shape closed) p.old p.new) }
{
    if closed {
        p.change(from, NodeChange::Stays)?;
        return Ok(());
    }
    p.change(from, NodeChange::TurnsWrong("unclosed delimiter"))?;
    Ok(())
}

/// Reads what comes after the colon: items, in parens or not, or a star.
fn imported<L: Levels>(g: &L, p: &mut Parser<'_>) -> Result<(), AllocError>
    ensures { Means (L.frame g.now) spec.imported p.old result p.new }
{
    if p.current() == SyntaxKind::LeftParen {
        import_parens(g, p)?;
        return Ok(());
    }
    if p.current() == SyntaxKind::Star {
        p.eat(g)?;
        return Ok(());
    }
    import_items(g, p)?;
    Ok(())
}

/// Reads what comes after the colon, if it was taken.
fn imported_if<L: Levels>(g: &L, p: &mut Parser<'_>, colon: bool) -> Result<(), AllocError>
    ensures { Means (L.frame g.now) (spec.imported_if colon) p.old result p.new }
{
    if colon {
        imported(g, p)?;
    }
    Ok(())
}

/// Reads `import .. as name: ..`.
pub(crate) fn module_import<L: Levels>(g: &L, p: &mut Parser<'_>) -> Result<(), AllocError>
    requires { L.may_call g.now }
    ensures { Means (L.frame g.now) spec.module_import p.old result p.new }
{
    let from = p.marker();
    p.eat(g)?;
    code_expression(g, p)?;
    renaming(g, p)?;
    let colon = p.eat_if(p.current() == SyntaxKind::Colon, g)?;
    imported_if(g, p, colon)?;
    p.wrap(from, SyntaxKind::ModuleImport)?;
    Ok(())
}
