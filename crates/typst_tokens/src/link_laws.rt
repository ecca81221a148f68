//! A law of the definitions, the contract of a function that does nothing.
ghost use Rattle.typst_tokens.specs.LinkLaws as law;

/// How far a link goes is what `link_prefix` says.
pub fn links_are_prefixes()
    ensures { law.LinkIsPrefix }
{}
