//! Examples of the language.

ghost use Rattle.typst_lines.specs.Classes.{CharClasses};
ghost use Rattle.typst_language.specs.Words.{Words};

/// What the words of the language give for short texts, which follows from the definitions.
pub fn words_of_the_language()
    ensures { (beyond : CharClasses) → Words beyond }
{}
