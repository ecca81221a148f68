//! How what stands in a text is shown.

ghost use Rattle.std.specs.Prelude.{◌≡◌};
ghost use Rattle.typst_styles.specs.Styles as spec;

use typst_highlight::Tag;
use typst_names::Role;

/// The type of a token: what a stretch of a text is shown as.
#[derive(Debug, Clone, Copy, PartialEq, Eq)]
pub enum TokenKind {
    Comment,
    Keyword,
    Operator,
    Number,
    String,
    Function,
    Variable,
    Punctuation,
    Escape,
    Strong,
    Emph,
    Link,
    Raw,
    Label,
    Ref,
    Heading,
    Marker,
    Term,
    Delimiter,
    Error,
    Parameter,
    Property,
    Namespace,
}

/// How a stretch of a text is shown.
#[derive(Debug, Clone, Copy, PartialEq, Eq)]
pub struct Style {
    pub kind: TokenKind,
    /// Whether it binds a name.
    pub is_declaration: bool,
}

impl TokenKind {
    /// Whether the two kinds are the same: `==`, with a contract that says so.
    pub fn same(self, other: TokenKind) -> bool
        ensures { result ≡ spec.same_kind other self }
    {
        self == other
    }
}

/// How a stretch is shown: a name by what it is, all else by its tag.
pub fn style_of(tag: Option<Tag>, role: Option<Role>) -> Option<Style>
    ensures { result ≡ spec.style_of tag role }
{
    match role {
        None => tag_style(tag),
        Some(role) => Some(Style {
            kind: name_kind(role, is_called(tag)),
            is_declaration: declares(role),
        }),
    }
}

/// What a stretch with a tag is shown as.
fn tag_style(tag: Option<Tag>) -> Option<Style>
    ensures { result ≡ spec.tag_style tag }
{
    match tag {
        None => None,
        Some(tag) => Some(Style {
            kind: tag_kind(tag),
            is_declaration: false,
        }),
    }
}

/// What a tag is shown as.
fn tag_kind(tag: Tag) -> TokenKind
    ensures { result ≡ spec.tag_kind tag }
{
    match tag {
        Tag::Comment => TokenKind::Comment,
        Tag::Keyword => TokenKind::Keyword,
        Tag::Operator | Tag::MathOperator => TokenKind::Operator,
        Tag::Number => TokenKind::Number,
        Tag::String => TokenKind::String,
        Tag::Function => TokenKind::Function,
        Tag::Interpolated => TokenKind::Variable,
        Tag::Punctuation | Tag::MathGroupingParens => TokenKind::Punctuation,
        Tag::Escape => TokenKind::Escape,
        Tag::Strong => TokenKind::Strong,
        Tag::Emph => TokenKind::Emph,
        Tag::Link => TokenKind::Link,
        Tag::Raw => TokenKind::Raw,
        Tag::Label => TokenKind::Label,
        Tag::Ref => TokenKind::Ref,
        Tag::Heading => TokenKind::Heading,
        Tag::ListMarker => TokenKind::Marker,
        Tag::ListTerm => TokenKind::Term,
        Tag::MathDelimiter => TokenKind::Delimiter,
        Tag::Error => TokenKind::Error,
    }
}

/// Whether a name with this tag is called, set or shown.
fn is_called(tag: Option<Tag>) -> bool
    ensures { result ≡ spec.is_called tag }
{
    match tag {
        Some(Tag::Function) => true,
        _ => false,
    }
}

/// What a name is shown as, by whether it is called.
fn name_kind(role: Role, is_called: bool) -> TokenKind
    ensures { result ≡ spec.name_kind role is_called }
{
    match role {
        Role::Use if is_called => TokenKind::Function,
        Role::Field if is_called => TokenKind::Function,
        Role::Use => TokenKind::Variable,
        Role::Field => TokenKind::Property,
        Role::Variable => TokenKind::Variable,
        Role::Function => TokenKind::Function,
        Role::Parameter | Role::Argument => TokenKind::Parameter,
        Role::Key => TokenKind::Property,
        Role::Module | Role::Alias => TokenKind::Namespace,
    }
}

/// Whether a name is bound.
fn declares(role: Role) -> bool
    ensures { result ≡ spec.declares role }
{
    match role {
        Role::Variable | Role::Function | Role::Parameter | Role::Alias => true,
        _ => false,
    }
}
