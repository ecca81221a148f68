//! Laws of the definitions, each the contract of a function that does nothing.
ghost use Rattle.typst_lines.specs.Classes.{CharClasses};
ghost use Rattle.typst_tokens.specs.CodeLaws as law;

/// The frame law of the tokens of code: a token, its length and its look depend on the look alone.
pub fn code_frame_law()
    ensures { law.CodeFrame }
{}

/// Each token of code takes at least one character.
pub fn code_goes_on()
    ensures { law.CodeGoesOn }
{}

/// The looks of some tokens of code.
pub fn looks_of_code()
    ensures { (beyond : CharClasses) → law.CodeLooks beyond }
{}
