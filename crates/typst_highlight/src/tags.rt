//! Highlight tags.

ghost use Rattle.std.specs.Prelude.{◌≡◌, ◌≤◌, length, take};
ghost use Rattle.typst_highlight.specs.Tags.{scope_of, class_of, all_tags};
ghost use Rattle.typst_highlight.specs.Html.{opening};

/// How a node of a syntax tree is to be shown.
#[derive(Debug, Clone, Copy, PartialEq, Eq, Hash)]
pub enum Tag {
    /// A comment, also a shebang.
    Comment,
    /// Brackets, commas, colons, semicolons and dots of code.
    Punctuation,
    /// An escape sequence, a shorthand or a line break.
    Escape,
    /// Strong markup.
    Strong,
    /// Emphasized markup.
    Emph,
    /// An address.
    Link,
    /// Raw text.
    Raw,
    /// A label.
    Label,
    /// A reference.
    Ref,
    /// A heading.
    Heading,
    /// What begins an item of a list, an enumeration or a term list.
    ListMarker,
    /// The term of an item of a term list.
    ListTerm,
    /// The dollar signs of an equation.
    MathDelimiter,
    /// An operator of an equation, as `^`.
    MathOperator,
    /// Parentheses that only group in an equation.
    MathGroupingParens,
    /// A keyword, `true` or `false`.
    Keyword,
    /// An operator of code.
    Operator,
    /// A number, also with a unit.
    Number,
    /// A string.
    String,
    /// The name of a function where it is called, defined or shown.
    Function,
    /// A name of code in markup or in an equation, with its hash.
    Interpolated,
    /// Text that is no syntax.
    Error,
}

impl Tag {
    /// All tags, each at the place of its definition.
    pub const LIST: &'static [Tag] = &[
        Tag::Comment,
        Tag::Punctuation,
        Tag::Escape,
        Tag::Strong,
        Tag::Emph,
        Tag::Link,
        Tag::Raw,
        Tag::Label,
        Tag::Ref,
        Tag::Heading,
        Tag::ListMarker,
        Tag::ListTerm,
        Tag::MathDelimiter,
        Tag::MathOperator,
        Tag::MathGroupingParens,
        Tag::Keyword,
        Tag::Operator,
        Tag::Number,
        Tag::String,
        Tag::Function,
        Tag::Interpolated,
        Tag::Error,
    ];

    /// The TextMate scope that editors know the tag by.
    pub fn tm_scope(&self) -> &'static str
        ensures { result.now ≡ scope_of self.now }
    {
        match self {
            Tag::Comment => "comment.typst",
            Tag::Punctuation => "punctuation.typst",
            Tag::Escape => "constant.character.escape.typst",
            Tag::Strong => "markup.bold.typst",
            Tag::Emph => "markup.italic.typst",
            Tag::Link => "markup.underline.link.typst",
            Tag::Raw => "markup.raw.typst",
            Tag::Label => "entity.name.label.typst",
            Tag::Ref => "markup.other.reference.typst",
            Tag::Heading => "markup.heading.typst",
            Tag::ListMarker => "punctuation.definition.list.typst",
            Tag::ListTerm => "markup.list.term.typst",
            Tag::MathDelimiter => "punctuation.definition.math.typst",
            Tag::MathOperator => "keyword.operator.math.typst",
            Tag::MathGroupingParens => "punctuation.math.typst",
            Tag::Keyword => "keyword.typst",
            Tag::Operator => "keyword.operator.typst",
            Tag::Number => "constant.numeric.typst",
            Tag::String => "string.quoted.double.typst",
            Tag::Function => "entity.name.function.typst",
            Tag::Interpolated => "meta.interpolation.typst",
            Tag::Error => "invalid.typst",
        }
    }

    /// The class of the tag's spans in HTML.
    pub fn css_class(self) -> &'static str
        ensures { result.now ≡ class_of self }
    {
        match self {
            Tag::Comment => "typ-comment",
            Tag::Punctuation => "typ-punct",
            Tag::Escape => "typ-escape",
            Tag::Strong => "typ-strong",
            Tag::Emph => "typ-emph",
            Tag::Link => "typ-link",
            Tag::Raw => "typ-raw",
            Tag::Label => "typ-label",
            Tag::Ref => "typ-ref",
            Tag::Heading => "typ-heading",
            Tag::ListMarker => "typ-marker",
            Tag::ListTerm => "typ-term",
            Tag::MathDelimiter => "typ-math-delim",
            Tag::MathOperator => "typ-math-op",
            Tag::MathGroupingParens => "typ-math-group",
            Tag::Keyword => "typ-key",
            Tag::Operator => "typ-op",
            Tag::Number => "typ-num",
            Tag::String => "typ-str",
            Tag::Function => "typ-func",
            Tag::Interpolated => "typ-pol",
            Tag::Error => "typ-error",
        }
    }

    /// What begins the tag's spans in HTML.
    pub(crate) fn opening(self) -> &'static str
        ensures { result.now ≡ opening self }
    {
        match self {
            Tag::Comment => "<span class=\"typ-comment\">",
            Tag::Punctuation => "<span class=\"typ-punct\">",
            Tag::Escape => "<span class=\"typ-escape\">",
            Tag::Strong => "<span class=\"typ-strong\">",
            Tag::Emph => "<span class=\"typ-emph\">",
            Tag::Link => "<span class=\"typ-link\">",
            Tag::Raw => "<span class=\"typ-raw\">",
            Tag::Label => "<span class=\"typ-label\">",
            Tag::Ref => "<span class=\"typ-ref\">",
            Tag::Heading => "<span class=\"typ-heading\">",
            Tag::ListMarker => "<span class=\"typ-marker\">",
            Tag::ListTerm => "<span class=\"typ-term\">",
            Tag::MathDelimiter => "<span class=\"typ-math-delim\">",
            Tag::MathOperator => "<span class=\"typ-math-op\">",
            Tag::MathGroupingParens => "<span class=\"typ-math-group\">",
            Tag::Keyword => "<span class=\"typ-key\">",
            Tag::Operator => "<span class=\"typ-op\">",
            Tag::Number => "<span class=\"typ-num\">",
            Tag::String => "<span class=\"typ-str\">",
            Tag::Function => "<span class=\"typ-func\">",
            Tag::Interpolated => "<span class=\"typ-pol\">",
            Tag::Error => "<span class=\"typ-error\">",
        }
    }

    /// What begins the tag's spans in HTML, with spaces after it up to 32 bytes, and its length.
    #[inline(always)]
    pub(crate) fn opening_block(self) -> (&'static str, usize)
        ensures whole { length result.0.now ≡ 32 }
        ensures within { result.1 ≤ 32 }
        ensures opening { take result.1 result.0.now ≡ opening self }
    {
        match self {
            Tag::Comment => ("<span class=\"typ-comment\">      ", 26),
            Tag::Punctuation => ("<span class=\"typ-punct\">        ", 24),
            Tag::Escape => ("<span class=\"typ-escape\">       ", 25),
            Tag::Strong => ("<span class=\"typ-strong\">       ", 25),
            Tag::Emph => ("<span class=\"typ-emph\">         ", 23),
            Tag::Link => ("<span class=\"typ-link\">         ", 23),
            Tag::Raw => ("<span class=\"typ-raw\">          ", 22),
            Tag::Label => ("<span class=\"typ-label\">        ", 24),
            Tag::Ref => ("<span class=\"typ-ref\">          ", 22),
            Tag::Heading => ("<span class=\"typ-heading\">      ", 26),
            Tag::ListMarker => ("<span class=\"typ-marker\">       ", 25),
            Tag::ListTerm => ("<span class=\"typ-term\">         ", 23),
            Tag::MathDelimiter => ("<span class=\"typ-math-delim\">   ", 29),
            Tag::MathOperator => ("<span class=\"typ-math-op\">      ", 26),
            Tag::MathGroupingParens => ("<span class=\"typ-math-group\">   ", 29),
            Tag::Keyword => ("<span class=\"typ-key\">          ", 22),
            Tag::Operator => ("<span class=\"typ-op\">           ", 21),
            Tag::Number => ("<span class=\"typ-num\">          ", 22),
            Tag::String => ("<span class=\"typ-str\">          ", 22),
            Tag::Function => ("<span class=\"typ-func\">         ", 23),
            Tag::Interpolated => ("<span class=\"typ-pol\">          ", 22),
            Tag::Error => ("<span class=\"typ-error\">        ", 24),
        }
    }
}

/// `Tag::LIST` is the list of all tags.
pub fn list_law()
    ensures { Tag.LIST.now ≡ all_tags }
{}
