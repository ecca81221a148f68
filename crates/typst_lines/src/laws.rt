//! Laws of the definitions, each the contract of a function that does nothing.
ghost use Rattle.typst_lines.specs.Laws as law;

/// How far some links go.
pub fn some_links()
    ensures { law.SomeLinks }
{}
