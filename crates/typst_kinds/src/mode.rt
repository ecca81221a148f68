/// The language in which a token is read.
#[derive(Debug, Clone, Copy, PartialEq, Eq)]
pub enum SyntaxMode {
    /// Text with markup, the language of a file's top level and of `[..]`.
    Markup,
    /// Formulas, the language between `$` and `$`.
    Math,
    /// Code, the language after `#` and of `{ .. }`.
    Code,
}
