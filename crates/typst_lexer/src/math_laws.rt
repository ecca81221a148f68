//! Laws of the definitions, each the contract of a function that does nothing.
ghost use Rattle.typst_lines.specs.Classes.{CharClasses};
ghost use Rattle.typst_lexer.specs.MathLaws as law;

/// The frame law of the tokens of formulas, and of what begins an argument.
pub fn math_frame_law()
    ensures { (k : CharClasses) → law.MathFrame k }
{}

/// Each token of a formula takes at least one character.
pub fn math_goes_on()
    ensures { law.MathGoesOn }
{}

/// How far some tokens of formulas are looked for.
pub fn looks_of_math()
    ensures { (beyond : CharClasses) → law.MathLooks beyond }
{}
