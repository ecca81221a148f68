//! Laws of the definitions, each the contract of a function that does nothing.
ghost use Rattle.typst_lines.specs.Classes.{CharClasses};
ghost use Rattle.typst_lexer.specs.TokenLaws as law;

/// The frame law of tokens: a token, its length and its look depend on the look alone, for every
/// class value, mode and place.
pub fn token_frame_law()
    ensures { law.TokenFrame }
{}

/// How far some tokens and a column are looked for.
pub fn looks_of_tokens()
    ensures { (beyond : CharClasses) → law.Looks beyond }
{}

/// The look of a star can't be shorter.
pub fn look_of_a_star()
    ensures { (beyond : CharClasses) → law.StarLook beyond }
{}

/// The look of a text at `h` can't be shorter.
pub fn look_of_a_text()
    ensures { (k : CharClasses) → law.TextLook k }
{}

/// The look of a block comment can't be shorter.
pub fn look_of_a_comment()
    ensures { (k : CharClasses) → law.CommentLook k }
{}

/// The look of a raw text can't be shorter.
pub fn look_of_a_raw_text()
    ensures { (k : CharClasses) → law.RawLook k }
{}

/// The look of a link can't be shorter.
pub fn look_of_a_link()
    ensures { (k : CharClasses) → law.LinkLook k }
{}

/// The looks of a reference and of a label can't be shorter.
pub fn looks_of_names()
    ensures { (beyond : CharClasses) → law.NameLook beyond }
{}
