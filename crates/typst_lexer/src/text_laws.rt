//! A law of the definitions, the contract of a function that does nothing.
ghost use Rattle.typst_lexer.specs.TextLaws as law;

/// The leaves of a token's node, joined, are the characters that the token took, for every class value.
pub fn token_text_law()
    ensures { law.TokenText }
{}
