ghost use Rattle.std.specs.Prelude.{◌≡◌, ◌<◌, ◌↔◌, IsTrue, IfNone, IfSome, List, map, slice_get, ℕ};
ghost use Rattle.typst_kinds.specs.Members.{place_of};
ghost use Rattle.typst_kinds.specs.Names.{name_of, variant_name};
ghost use Rattle.typst_kinds.specs.Kinds.{same, is_trivia, is_error, is_keyword, is_grouping, is_terminator, is_block, is_hash_expr};

/// What a node of the syntax tree is.
#[derive(Debug, Clone, Copy, PartialEq, Eq)]
pub enum SyntaxKind {
    /// The end of the text, or of the part of it that may be read.
    End,
    /// Text that isn't syntax.
    Error,
    /// `#!` at the text's start, up to the line's end.
    Shebang,
    /// `// ..`
    LineComment,
    /// `/* .. */`
    BlockComment,
    /// A sequence of markup.
    Markup,
    /// Plain text.
    Text,
    /// Whitespace, with at most one line end in markup.
    Space,
    /// A backslash before whitespace or the end.
    Linebreak,
    /// Whitespace with two or more line ends.
    Parbreak,
    /// A backslash and what it stands for: `\#`, `\u{1F600}`.
    Escape,
    /// Characters that stand for another: `~`, `---`, `...`.
    Shorthand,
    /// `'` or `"` in markup.
    SmartQuote,
    /// `*..*`
    Strong,
    /// `_.._`
    Emph,
    /// Raw text with its delimiters.
    Raw,
    /// The language of a raw block.
    RawLang,
    /// The backticks on one side of a raw block.
    RawDelim,
    /// Whitespace of a raw block that isn't part of its content.
    RawTrimmed,
    /// An address in markup: `https://typst.org`.
    Link,
    /// `<name>`
    Label,
    /// A reference with its supplement: `@name[..]`.
    Ref,
    /// `@name`
    RefMarker,
    /// `= ..`
    Heading,
    /// The equals signs before a heading.
    HeadingMarker,
    /// `- ..`
    ListItem,
    /// The `-` before a list item.
    ListMarker,
    /// `+ ..` or `1. ..`
    EnumItem,
    /// The `+` or `1.` before an enum item.
    EnumMarker,
    /// `/ Term: ..`
    TermItem,
    /// The `/` before a term.
    TermMarker,
    /// `$..$`
    Equation,
    /// A sequence of math.
    Math,
    /// A character or a number in math.
    MathText,
    /// An identifier of more than one letter in math.
    MathIdent,
    /// `arrow.l` in math.
    MathFieldAccess,
    /// Signs that stand for a symbol in math: `->`, `!=`.
    MathShorthand,
    /// `&` in math.
    MathAlignPoint,
    /// A call in math: `vec(1, 2)`.
    MathCall,
    /// The arguments of a call in math.
    MathArgs,
    /// Math between matching delimiters.
    MathDelimited,
    /// A base with what is above and below it: `a_1^2`.
    MathAttach,
    /// `'''` in math.
    MathPrimes,
    /// `a/b` in math.
    MathFrac,
    /// A root sign and what it is of.
    MathRoot,
    /// `#`
    Hash,
    /// `{`
    LeftBrace,
    /// `}`
    RightBrace,
    /// `[`
    LeftBracket,
    /// `]`
    RightBracket,
    /// `(`
    LeftParen,
    /// `)`
    RightParen,
    /// `,`
    Comma,
    /// `;`
    Semicolon,
    /// `:`
    Colon,
    /// `*`
    Star,
    /// `_`
    Underscore,
    /// `$`
    Dollar,
    /// `+`
    Plus,
    /// `-`
    Minus,
    /// `/`
    Slash,
    /// `^`
    Hat,
    /// `.`
    Dot,
    /// `!`
    Bang,
    /// `=`
    Eq,
    /// `==`
    EqEq,
    /// `!=`
    ExclEq,
    /// `<`
    Lt,
    /// `<=`
    LtEq,
    /// `>`
    Gt,
    /// `>=`
    GtEq,
    /// `+=`
    PlusEq,
    /// `-=`
    HyphEq,
    /// `*=`
    StarEq,
    /// `/=`
    SlashEq,
    /// `..`
    Dots,
    /// `=>`
    Arrow,
    /// A root sign.
    Root,
    /// `not`
    Not,
    /// `and`
    And,
    /// `or`
    Or,
    /// `none`
    None,
    /// `auto`
    Auto,
    /// `let`
    Let,
    /// `set`
    Set,
    /// `show`
    Show,
    /// `context`
    Context,
    /// `if`
    If,
    /// `else`
    Else,
    /// `for`
    For,
    /// `in`
    In,
    /// `while`
    While,
    /// `break`
    Break,
    /// `continue`
    Continue,
    /// `return`
    Return,
    /// `import`
    Import,
    /// `include`
    Include,
    /// `as`
    As,
    /// A sequence of code.
    Code,
    /// An identifier.
    Ident,
    /// `true` or `false`
    Bool,
    /// `120`, `0xff`
    Int,
    /// `1.2`, `1e3`
    Float,
    /// A number with a unit: `12pt`, `50%`.
    Numeric,
    /// `".."`
    Str,
    /// `{ .. }`
    CodeBlock,
    /// `[..]`
    ContentBlock,
    /// One expression or pattern in parens.
    Parenthesized,
    /// `(1, 2)`
    Array,
    /// `(a: 1, b: 2)`
    Dict,
    /// `a: 1`
    Named,
    /// `"a": 1`
    Keyed,
    /// `-x`, `not x`
    Unary,
    /// `a + b`
    Binary,
    /// `a.b`
    FieldAccess,
    /// `f(x)`
    FuncCall,
    /// The arguments of a call: `(x, y)[..]`.
    Args,
    /// `..x`
    Spread,
    /// `(x, y) => z`
    Closure,
    /// The parameters of a closure.
    Params,
    /// `let x = 1`
    LetBinding,
    /// `set text(..)`
    SetRule,
    /// `show heading: ..`
    ShowRule,
    /// `context ..`
    Contextual,
    /// `if x { .. } else { .. }`
    Conditional,
    /// `while x { .. }`
    WhileLoop,
    /// `for x in y { .. }`
    ForLoop,
    /// `import "a.typ": b`
    ModuleImport,
    /// The items that an import names.
    ImportItems,
    /// One item that is imported, with its path: `a.b`.
    ImportItemPath,
    /// `a as b`
    RenamedImportItem,
    /// `include "a.typ"`
    ModuleInclude,
    /// A `break` in code.
    LoopBreak,
    /// A `continue` in code.
    LoopContinue,
    /// `return`, `return x`
    FuncReturn,
    /// A pattern that takes several values apart: `(x, _, ..y)`.
    Destructuring,
    /// `(x, y) = (1, 2)`
    DestructAssignment,
}

/// A kind; its name in code, and its name in messages.
type Row = (SyntaxKind, (&'static str, &'static str));

/// The kinds, each at its place, with their names.
const ROWS: &[Row] = &[
    (SyntaxKind::End, ("End", "end of tokens")),
    (SyntaxKind::Error, ("Error", "syntax error")),
    (SyntaxKind::Shebang, ("Shebang", "shebang")),
    (SyntaxKind::LineComment, ("LineComment", "line comment")),
    (SyntaxKind::BlockComment, ("BlockComment", "block comment")),
    (SyntaxKind::Markup, ("Markup", "markup")),
    (SyntaxKind::Text, ("Text", "text")),
    (SyntaxKind::Space, ("Space", "space")),
    (SyntaxKind::Linebreak, ("Linebreak", "line break")),
    (SyntaxKind::Parbreak, ("Parbreak", "paragraph break")),
    (SyntaxKind::Escape, ("Escape", "escape sequence")),
    (SyntaxKind::Shorthand, ("Shorthand", "shorthand")),
    (SyntaxKind::SmartQuote, ("SmartQuote", "smart quote")),
    (SyntaxKind::Strong, ("Strong", "strong content")),
    (SyntaxKind::Emph, ("Emph", "emphasized content")),
    (SyntaxKind::Raw, ("Raw", "raw block")),
    (SyntaxKind::RawLang, ("RawLang", "raw language tag")),
    (SyntaxKind::RawDelim, ("RawDelim", "raw delimiter")),
    (SyntaxKind::RawTrimmed, ("RawTrimmed", "raw trimmed")),
    (SyntaxKind::Link, ("Link", "link")),
    (SyntaxKind::Label, ("Label", "label")),
    (SyntaxKind::Ref, ("Ref", "reference")),
    (SyntaxKind::RefMarker, ("RefMarker", "reference marker")),
    (SyntaxKind::Heading, ("Heading", "heading")),
    (
        SyntaxKind::HeadingMarker,
        ("HeadingMarker", "heading marker"),
    ),
    (SyntaxKind::ListItem, ("ListItem", "list item")),
    (SyntaxKind::ListMarker, ("ListMarker", "list marker")),
    (SyntaxKind::EnumItem, ("EnumItem", "enum item")),
    (SyntaxKind::EnumMarker, ("EnumMarker", "enum marker")),
    (SyntaxKind::TermItem, ("TermItem", "term list item")),
    (SyntaxKind::TermMarker, ("TermMarker", "term marker")),
    (SyntaxKind::Equation, ("Equation", "equation")),
    (SyntaxKind::Math, ("Math", "math")),
    (SyntaxKind::MathText, ("MathText", "math text")),
    (SyntaxKind::MathIdent, ("MathIdent", "math identifier")),
    (
        SyntaxKind::MathFieldAccess,
        ("MathFieldAccess", "math field access"),
    ),
    (
        SyntaxKind::MathShorthand,
        ("MathShorthand", "math shorthand"),
    ),
    (
        SyntaxKind::MathAlignPoint,
        ("MathAlignPoint", "math alignment point"),
    ),
    (SyntaxKind::MathCall, ("MathCall", "math call")),
    (SyntaxKind::MathArgs, ("MathArgs", "math args")),
    (
        SyntaxKind::MathDelimited,
        ("MathDelimited", "delimited math"),
    ),
    (SyntaxKind::MathAttach, ("MathAttach", "math attachments")),
    (SyntaxKind::MathPrimes, ("MathPrimes", "math primes")),
    (SyntaxKind::MathFrac, ("MathFrac", "math fraction")),
    (SyntaxKind::MathRoot, ("MathRoot", "math root")),
    (SyntaxKind::Hash, ("Hash", "hash")),
    (SyntaxKind::LeftBrace, ("LeftBrace", "opening brace")),
    (SyntaxKind::RightBrace, ("RightBrace", "closing brace")),
    (SyntaxKind::LeftBracket, ("LeftBracket", "opening bracket")),
    (
        SyntaxKind::RightBracket,
        ("RightBracket", "closing bracket"),
    ),
    (SyntaxKind::LeftParen, ("LeftParen", "opening paren")),
    (SyntaxKind::RightParen, ("RightParen", "closing paren")),
    (SyntaxKind::Comma, ("Comma", "comma")),
    (SyntaxKind::Semicolon, ("Semicolon", "semicolon")),
    (SyntaxKind::Colon, ("Colon", "colon")),
    (SyntaxKind::Star, ("Star", "star")),
    (SyntaxKind::Underscore, ("Underscore", "underscore")),
    (SyntaxKind::Dollar, ("Dollar", "dollar sign")),
    (SyntaxKind::Plus, ("Plus", "plus")),
    (SyntaxKind::Minus, ("Minus", "minus")),
    (SyntaxKind::Slash, ("Slash", "slash")),
    (SyntaxKind::Hat, ("Hat", "hat")),
    (SyntaxKind::Dot, ("Dot", "dot")),
    (SyntaxKind::Bang, ("Bang", "exclamation mark")),
    (SyntaxKind::Eq, ("Eq", "equals sign")),
    (SyntaxKind::EqEq, ("EqEq", "equality operator")),
    (SyntaxKind::ExclEq, ("ExclEq", "inequality operator")),
    (SyntaxKind::Lt, ("Lt", "less-than operator")),
    (SyntaxKind::LtEq, ("LtEq", "less-than or equal operator")),
    (SyntaxKind::Gt, ("Gt", "greater-than operator")),
    (SyntaxKind::GtEq, ("GtEq", "greater-than or equal operator")),
    (SyntaxKind::PlusEq, ("PlusEq", "add-assign operator")),
    (SyntaxKind::HyphEq, ("HyphEq", "subtract-assign operator")),
    (SyntaxKind::StarEq, ("StarEq", "multiply-assign operator")),
    (SyntaxKind::SlashEq, ("SlashEq", "divide-assign operator")),
    (SyntaxKind::Dots, ("Dots", "dots")),
    (SyntaxKind::Arrow, ("Arrow", "arrow")),
    (SyntaxKind::Root, ("Root", "root")),
    (SyntaxKind::Not, ("Not", "operator `not`")),
    (SyntaxKind::And, ("And", "operator `and`")),
    (SyntaxKind::Or, ("Or", "operator `or`")),
    (SyntaxKind::None, ("None", "`none`")),
    (SyntaxKind::Auto, ("Auto", "`auto`")),
    (SyntaxKind::Let, ("Let", "keyword `let`")),
    (SyntaxKind::Set, ("Set", "keyword `set`")),
    (SyntaxKind::Show, ("Show", "keyword `show`")),
    (SyntaxKind::Context, ("Context", "keyword `context`")),
    (SyntaxKind::If, ("If", "keyword `if`")),
    (SyntaxKind::Else, ("Else", "keyword `else`")),
    (SyntaxKind::For, ("For", "keyword `for`")),
    (SyntaxKind::In, ("In", "keyword `in`")),
    (SyntaxKind::While, ("While", "keyword `while`")),
    (SyntaxKind::Break, ("Break", "keyword `break`")),
    (SyntaxKind::Continue, ("Continue", "keyword `continue`")),
    (SyntaxKind::Return, ("Return", "keyword `return`")),
    (SyntaxKind::Import, ("Import", "keyword `import`")),
    (SyntaxKind::Include, ("Include", "keyword `include`")),
    (SyntaxKind::As, ("As", "keyword `as`")),
    (SyntaxKind::Code, ("Code", "code")),
    (SyntaxKind::Ident, ("Ident", "identifier")),
    (SyntaxKind::Bool, ("Bool", "boolean")),
    (SyntaxKind::Int, ("Int", "integer")),
    (SyntaxKind::Float, ("Float", "float")),
    (SyntaxKind::Numeric, ("Numeric", "numeric value")),
    (SyntaxKind::Str, ("Str", "string")),
    (SyntaxKind::CodeBlock, ("CodeBlock", "code block")),
    (SyntaxKind::ContentBlock, ("ContentBlock", "content block")),
    (SyntaxKind::Parenthesized, ("Parenthesized", "group")),
    (SyntaxKind::Array, ("Array", "array")),
    (SyntaxKind::Dict, ("Dict", "dictionary")),
    (SyntaxKind::Named, ("Named", "named pair")),
    (SyntaxKind::Keyed, ("Keyed", "keyed pair")),
    (SyntaxKind::Unary, ("Unary", "unary expression")),
    (SyntaxKind::Binary, ("Binary", "binary expression")),
    (SyntaxKind::FieldAccess, ("FieldAccess", "field access")),
    (SyntaxKind::FuncCall, ("FuncCall", "function call")),
    (SyntaxKind::Args, ("Args", "call arguments")),
    (SyntaxKind::Spread, ("Spread", "spread")),
    (SyntaxKind::Closure, ("Closure", "closure")),
    (SyntaxKind::Params, ("Params", "closure parameters")),
    (SyntaxKind::LetBinding, ("LetBinding", "`let` expression")),
    (SyntaxKind::SetRule, ("SetRule", "`set` expression")),
    (SyntaxKind::ShowRule, ("ShowRule", "`show` expression")),
    (
        SyntaxKind::Contextual,
        ("Contextual", "`context` expression"),
    ),
    (SyntaxKind::Conditional, ("Conditional", "`if` expression")),
    (
        SyntaxKind::WhileLoop,
        ("WhileLoop", "while-loop expression"),
    ),
    (SyntaxKind::ForLoop, ("ForLoop", "for-loop expression")),
    (
        SyntaxKind::ModuleImport,
        ("ModuleImport", "`import` expression"),
    ),
    (SyntaxKind::ImportItems, ("ImportItems", "import items")),
    (
        SyntaxKind::ImportItemPath,
        ("ImportItemPath", "imported item path"),
    ),
    (
        SyntaxKind::RenamedImportItem,
        ("RenamedImportItem", "renamed import item"),
    ),
    (
        SyntaxKind::ModuleInclude,
        ("ModuleInclude", "`include` expression"),
    ),
    (SyntaxKind::LoopBreak, ("LoopBreak", "`break` expression")),
    (
        SyntaxKind::LoopContinue,
        ("LoopContinue", "`continue` expression"),
    ),
    (
        SyntaxKind::FuncReturn,
        ("FuncReturn", "`return` expression"),
    ),
    (
        SyntaxKind::Destructuring,
        ("Destructuring", "destructuring pattern"),
    ),
    (
        SyntaxKind::DestructAssignment,
        ("DestructAssignment", "destructuring assignment expression"),
    ),
];

/// The kind of the row at a place.
fn kind_at(rows: &[Row], place: usize) -> Option<SyntaxKind>
    ensures { (kinds : List SyntaxKind) → map (λ row. row.0) rows.now ≡ kinds → result ≡ slice_get kinds place }
{
    let (kind, _) = rows.get(place)?;
    Some(*kind)
}

impl SyntaxKind {
    /// Whether the two kinds are the same: `==`, with a contract that says so.
    pub fn same(self, other: SyntaxKind) -> bool
        ensures same { result ≡ same other self }
        ensures exact { IsTrue result ↔ (self ≡ other) }
    {
        self == other
    }

    /// The kind's name in messages.
    pub fn name(self) -> &'static str
        ensures { result.now ≡ name_of self }
    {
        let (_, (_, name)) = self.row();
        name
    }

    /// The kind's name in code: `ListItem`.
    pub fn variant_name(self) -> &'static str
        ensures { result.now ≡ variant_name self }
    {
        let (_, (variant, _)) = self.row();
        variant
    }

    /// How many kinds there are.
    pub fn count() -> usize
        ensures { (place : ℕ) → (place < result) ↔ ((kind : SyntaxKind) × (place_of kind ≡ place)) }
    {
        ROWS.len()
    }

    /// The kind at a place, counted from 0 in the order of the definition; none from their number on.
    pub fn at(place: usize) -> Option<SyntaxKind>
        ensures { (kind : SyntaxKind) → (result ≡ Some kind) ↔ (place_of kind ≡ place) }
    {
        kind_at(ROWS, place)
    }

    /// The kind that messages name so. Goes through the kinds.
    pub fn named(name: &[u8]) -> Option<SyntaxKind>
        ensures named { IfSome result (λ kind. name_of kind ≡ name.now) }
        ensures none { IfNone result ((kind : SyntaxKind) → name_of kind ≡ name.now → ⊥) }
    {
        for place in 0..SyntaxKind::count() {
            let kind = SyntaxKind::at(place)?;
            if kind.name().as_bytes() == name {
                return Some(kind);
            }
        }
        None
    }

    /// The kind's row.
    fn row(self) -> Row
        ensures kind { result.0 ≡ self }
        ensures variant { result.1.0.now ≡ variant_name self }
        ensures name { result.1.1.now ≡ name_of self }
    {
        ROWS[self as usize]
    }

    /// Whether the kind is trivia: a space, a paragraph break or a comment.
    #[inline(always)]
    pub fn is_trivia(self) -> bool
        ensures { result ≡ is_trivia self }
    {
        match self {
            SyntaxKind::Space => true,
            SyntaxKind::Parbreak => true,
            SyntaxKind::LineComment => true,
            SyntaxKind::BlockComment => true,
            _ => false,
        }
    }

    /// Whether the kind is `Error`.
    pub fn is_error(self) -> bool
        ensures { result ≡ is_error self }
    {
        match self {
            SyntaxKind::Error => true,
            _ => false,
        }
    }

    /// Whether the kind is a keyword of code.
    pub fn is_keyword(self) -> bool
        ensures { result ≡ is_keyword self }
    {
        match self {
            SyntaxKind::Not => true,
            SyntaxKind::And => true,
            SyntaxKind::Or => true,
            SyntaxKind::None => true,
            SyntaxKind::Auto => true,
            SyntaxKind::Let => true,
            SyntaxKind::Set => true,
            SyntaxKind::Show => true,
            SyntaxKind::Context => true,
            SyntaxKind::If => true,
            SyntaxKind::Else => true,
            SyntaxKind::For => true,
            SyntaxKind::In => true,
            SyntaxKind::While => true,
            SyntaxKind::Break => true,
            SyntaxKind::Continue => true,
            SyntaxKind::Return => true,
            SyntaxKind::Import => true,
            SyntaxKind::Include => true,
            SyntaxKind::As => true,
            _ => false,
        }
    }

    /// Whether the kind is a brace, a bracket or a paren.
    pub fn is_grouping(self) -> bool
        ensures { result ≡ is_grouping self }
    {
        match self {
            SyntaxKind::LeftBrace => true,
            SyntaxKind::RightBrace => true,
            SyntaxKind::LeftBracket => true,
            SyntaxKind::RightBracket => true,
            SyntaxKind::LeftParen => true,
            SyntaxKind::RightParen => true,
            _ => false,
        }
    }

    /// Whether the kind ends an expression or a list in code.
    pub fn is_terminator(self) -> bool
        ensures { result ≡ is_terminator self }
    {
        match self {
            SyntaxKind::End => true,
            SyntaxKind::Semicolon => true,
            SyntaxKind::RightBrace => true,
            SyntaxKind::RightParen => true,
            SyntaxKind::RightBracket => true,
            _ => false,
        }
    }

    /// Whether the kind is a block of code or of content.
    pub fn is_block(self) -> bool
        ensures { result ≡ is_block self }
    {
        matches!(self, SyntaxKind::CodeBlock | SyntaxKind::ContentBlock)
    }

    /// Whether an expression of this kind may follow a hash in markup and math.
    pub fn is_hash_expr(self) -> bool
        ensures { result ≡ is_hash_expr self }
    {
        match self {
            SyntaxKind::Ident => true,
            SyntaxKind::None => true,
            SyntaxKind::Auto => true,
            SyntaxKind::Bool => true,
            SyntaxKind::Int => true,
            SyntaxKind::Float => true,
            SyntaxKind::Numeric => true,
            SyntaxKind::Str => true,
            SyntaxKind::CodeBlock => true,
            SyntaxKind::ContentBlock => true,
            SyntaxKind::Array => true,
            SyntaxKind::Dict => true,
            SyntaxKind::Parenthesized => true,
            SyntaxKind::FieldAccess => true,
            SyntaxKind::FuncCall => true,
            SyntaxKind::LetBinding => true,
            SyntaxKind::SetRule => true,
            SyntaxKind::ShowRule => true,
            SyntaxKind::Contextual => true,
            SyntaxKind::Conditional => true,
            SyntaxKind::WhileLoop => true,
            SyntaxKind::ForLoop => true,
            SyntaxKind::ModuleImport => true,
            SyntaxKind::ModuleInclude => true,
            SyntaxKind::LoopBreak => true,
            SyntaxKind::LoopContinue => true,
            SyntaxKind::FuncReturn => true,
            _ => false,
        }
    }
}
