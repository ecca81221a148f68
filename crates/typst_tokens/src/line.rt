//! Where lines end.
ghost use Rattle.std.specs.Prelude.{◌≡◌};
ghost use Rattle.typst_tokens.specs.Line.{IsLineEnd};

/// The end of a line of a text: from one place on, no character up to another ends the line, and
/// there it ends.
#[derive(Clone, Copy)]
pub struct LineEnd<'a> {
    pub(crate) text: &'a str,
    /// From where on no line ends, in bytes from the text's start.
    pub(crate) from: usize,
    /// Where the line ends, in bytes from the text's start.
    pub(crate) end: usize,
    ghost is: { IsLineEnd text.now from end },
}

impl<'a> LineEnd<'a> {
    /// The end of the text, where its last line ends.
    pub fn of_text(text: &'a str) -> LineEnd<'a>
        ensures { result.text.now ≡ text.now }
    {
        LineEnd {
            text,
            from: text.len(),
            end: text.len(),
        }
    }
}
