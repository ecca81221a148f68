//! Laws of the definitions, each the contract of a function that does nothing.
ghost use Rattle.typst_lexer.specs.RawLaws as law;

/// The leaves of a raw text's node, joined, are its text.
pub fn raw_leaves_law()
    ensures { law.RawLeaves }
{}

/// What some texts between single backticks become.
pub fn inline_raws()
    ensures { law.InlineRaws }
{}

/// What some texts between three backticks become.
pub fn block_raws()
    ensures { law.BlockRaws }
{}

/// What the tags of some texts are, and the warning of a text that is only a tag.
pub fn tagged_raws()
    ensures { law.TaggedRaws }
{}
