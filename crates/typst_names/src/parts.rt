//! How the children of a node are taken where names are looked for.

ghost use Rattle.std.specs.Prelude.{◌≡◌};
ghost use Rattle.typst_names.specs.Scopes as spec;

use typst_kinds::SyntaxKind;

/// What a name does.
#[derive(Debug, Clone, Copy, PartialEq, Eq)]
pub enum NameKind {
    /// The name is used.
    Use,
    /// The name is bound.
    Binding,
    /// The name is bound as an item of an import, by its name in the other file.
    Item,
    /// The star of an import, which binds names that aren't known here.
    Any,
    /// The module of a bare import is bound by its name there. After this byte `as` could give it another one.
    Module(usize),
}

/// How the children of a node are taken, from one of them on up to one that changes it.
#[derive(Debug, Clone, Copy, PartialEq, Eq)]
pub enum Part {
    /// Names are used.
    Value,
    /// Names are used in a block, up to whose end holds what is bound in it.
    Block,
    /// Names are used in a field access, up to its dot.
    Field,
    /// Names are used in an import, up to what it binds.
    Source,
    /// Names are used in what a bare import is from, which binds its module.
    Bare,
    /// Names are used in the field access that a bare import is from, up to its dot.
    BareField,
    /// The field after that dot is bound.
    BoundField,
    /// Names are used in one child that isn't trivia.
    Once,
    /// Names are bound.
    Pattern,
    /// Names are bound by a `let`, up to the equals sign.
    Bound,
    /// Names are bound by a parameter with a default, up to the colon.
    Key,
    /// Names are bound by a loop, up to `in`. After what it goes over comes its body.
    Loop,
    /// A name is bound by an import, up to the colon.
    Alias,
    /// The parameters of a function are bound.
    Parameters,
    /// A function's own name is bound, up to its parameters.
    OwnName,
    /// A function with its parameters, and after the arrow or the equals sign its body.
    Function,
    /// A function, of which the defaults of its parameters count.
    Defaults,
    /// Parameters, of which the defaults count.
    DefaultValues,
    /// A `let`: a function that it binds, or the value after the equals sign.
    Init,
    /// A value after a colon.
    Pair,
    /// A pattern after a colon.
    PatternPair,
    /// What a loop goes over, after `in`.
    Iterable,
    /// A value after the next child that isn't trivia.
    Passed,
    /// What an import binds, after the colon.
    Imported,
    /// The items of an import.
    Items,
    /// The path of an item, which is bound by its last name.
    Path,
    /// An item with a new name after `as`.
    Renamed,
    /// Nothing counts.
    Nothing,
}

impl Part {
    /// The part that a child is taken as, by whether it is the last one, wherever this part ends.
    pub fn base(self, is_last: bool) -> Part
        ensures { result ≡ spec.base self is_last }
    {
        match self {
            Part::Block => Part::Value,
            Part::Field => Part::Value,
            Part::BareField => Part::Value,
            Part::Source => base_of_source(is_last),
            Part::Once => Part::Value,
            Part::Bound => Part::Pattern,
            Part::Key => Part::Pattern,
            Part::Loop => Part::Pattern,
            Part::Alias => Part::Pattern,
            _ => self,
        }
    }

    /// Whether what is bound in a part holds up to the end of its node.
    pub fn opens(self) -> bool
        ensures { result ≡ spec.opens self }
    {
        match self {
            Part::Block => true,
            Part::Function => true,
            Part::Loop => true,
            _ => false,
        }
    }

    /// How the children after one of this kind are taken.
    pub fn behind(self, kind: SyntaxKind) -> Part
        ensures { result ≡ spec.behind self kind }
    {
        match self {
            Part::Field => self.up_to(SyntaxKind::Dot, Part::Nothing, kind),
            Part::BareField => self.up_to(SyntaxKind::Dot, Part::BoundField, kind),
            Part::Init => self.up_to(SyntaxKind::Eq, Part::Value, kind),
            Part::Bound => self.up_to(SyntaxKind::Eq, Part::Nothing, kind),
            Part::Pair => self.up_to(SyntaxKind::Colon, Part::Value, kind),
            Part::PatternPair => self.up_to(SyntaxKind::Colon, Part::Pattern, kind),
            Part::Key => self.up_to(SyntaxKind::Colon, Part::Nothing, kind),
            Part::OwnName => self.up_to(SyntaxKind::Params, Part::Nothing, kind),
            Part::Defaults => self.up_to(SyntaxKind::Params, Part::Nothing, kind),
            Part::Iterable => self.up_to(SyntaxKind::In, Part::Once, kind),
            Part::Loop => self.up_to(SyntaxKind::In, Part::Passed, kind),
            Part::Alias => self.up_to(SyntaxKind::Colon, Part::Imported, kind),
            Part::Renamed => self.up_to(SyntaxKind::As, Part::Pattern, kind),
            Part::Once => self.up_to_one(Part::Nothing, kind),
            Part::Passed => self.up_to_one(Part::Value, kind),
            Part::Function => behind_function(kind),
            Part::Source => behind_source(kind),
            _ => self,
        }
    }

    /// This part, and after a child of the kind `mark` another one.
    fn up_to(self, mark: SyntaxKind, next: Part, kind: SyntaxKind) -> Part
        ensures { result ≡ spec.up_to mark next self kind }
    {
        if kind.same(mark) { next } else { self }
    }

    /// This part, and after a child that isn't trivia another one.
    fn up_to_one(self, next: Part, kind: SyntaxKind) -> Part
        ensures { result ≡ spec.up_to_one next self kind }
    {
        if kind.is_trivia() { self } else { next }
    }

    /// What a name or a star does, by its kind and by whether it is the last child.
    pub fn says(self, kind: SyntaxKind, is_last: bool) -> Option<NameKind>
        ensures { result ≡ spec.says self kind is_last }
    {
        match self {
            Part::Value => used(kind),
            Part::Bare => used(kind),
            Part::Pattern => told(SyntaxKind::Ident, NameKind::Binding, kind),
            Part::Parameters => told(SyntaxKind::Ident, NameKind::Binding, kind),
            Part::OwnName => told(SyntaxKind::Ident, NameKind::Binding, kind),
            Part::Imported => told(SyntaxKind::Star, NameKind::Any, kind),
            Part::Path => last_name(kind, is_last),
            _ => None,
        }
    }

    /// The first part that the children of a child of this kind are taken as.
    pub fn first(self, kind: SyntaxKind) -> Part
        ensures { result ≡ spec.first self kind }
    {
        match self {
            Part::Value => first_of_value(kind),
            Part::Bare => first_of_bare(kind),
            Part::Pattern => below_pattern(Part::PatternPair, kind),
            Part::Parameters => below_pattern(Part::Key, kind),
            Part::DefaultValues => only(SyntaxKind::Named, Part::Pair, kind),
            Part::Defaults => only(SyntaxKind::Params, Part::DefaultValues, kind),
            Part::Function => only(SyntaxKind::Params, Part::Parameters, kind),
            Part::Init => only(SyntaxKind::Closure, Part::Defaults, kind),
            Part::Imported => only(SyntaxKind::ImportItems, Part::Items, kind),
            Part::Items => below_items(kind),
            _ => Part::Nothing,
        }
    }

    /// The second part that the children of a child of this kind are taken as.
    pub fn second(self, kind: SyntaxKind) -> Part
        ensures { result ≡ spec.second self kind }
    {
        match self {
            Part::Value => second_of_value(kind),
            Part::Bare => second_of_value(kind),
            Part::Init => only(SyntaxKind::Closure, Part::OwnName, kind),
            _ => Part::Nothing,
        }
    }

    /// The third part that the children of a child of this kind are taken as.
    pub fn third(self, kind: SyntaxKind) -> Part
        ensures { result ≡ spec.third self kind }
    {
        match self {
            Part::Value => only(SyntaxKind::Closure, Part::Function, kind),
            Part::Bare => only(SyntaxKind::Closure, Part::Function, kind),
            Part::Init => only(SyntaxKind::Closure, Part::Function, kind),
            _ => Part::Nothing,
        }
    }

    /// Whether nothing counts in this part.
    pub fn is_nothing(self) -> bool
        ensures { result ≡ spec.is_nothing self }
    {
        match self {
            Part::Nothing => true,
            _ => false,
        }
    }
}

/// The part that a child of an import is taken as, up to what it binds.
fn base_of_source(is_last: bool) -> Part
    ensures { result ≡ spec.base_of_source is_last }
{
    if is_last { Part::Bare } else { Part::Value }
}

/// How a function's children are taken after one of this kind: after the arrow or the equals sign comes its body.
fn behind_function(kind: SyntaxKind) -> Part
    ensures { result ≡ spec.behind_function kind }
{
    if kind.same(SyntaxKind::Arrow) {
        return Part::Value;
    }
    Part::Function.up_to(SyntaxKind::Eq, Part::Value, kind)
}

/// How an import's children are taken after one of this kind: a new name after `as`, and items after the colon.
fn behind_source(kind: SyntaxKind) -> Part
    ensures { result ≡ spec.behind_source kind }
{
    if kind.same(SyntaxKind::As) {
        return Part::Alias;
    }
    Part::Source.up_to(SyntaxKind::Colon, Part::Imported, kind)
}

/// What a node of the wanted kind does; others do nothing.
fn told(wanted: SyntaxKind, does: NameKind, kind: SyntaxKind) -> Option<NameKind>
    ensures { result ≡ spec.told wanted does kind }
{
    if kind.same(wanted) { Some(does) } else { None }
}

/// A name that is used, in code or in a formula.
fn used(kind: SyntaxKind) -> Option<NameKind>
    ensures { result ≡ spec.used kind }
{
    if kind.same(SyntaxKind::Ident) {
        return Some(NameKind::Use);
    }
    told(SyntaxKind::MathIdent, NameKind::Use, kind)
}

/// The last name of a path.
fn last_name(kind: SyntaxKind, is_last: bool) -> Option<NameKind>
    ensures { result ≡ spec.last_name kind is_last }
{
    if is_last {
        told(SyntaxKind::Ident, NameKind::Item, kind)
    } else {
        None
    }
}

/// A part below a node of the wanted kind, and nothing below others.
fn only(wanted: SyntaxKind, part: Part, kind: SyntaxKind) -> Part
    ensures { result ≡ spec.only wanted part kind }
{
    if kind.same(wanted) {
        part
    } else {
        Part::Nothing
    }
}

/// The first part below a value of this kind.
fn first_of_value(kind: SyntaxKind) -> Part
    ensures { result ≡ spec.first_of_value kind }
{
    match kind {
        SyntaxKind::LetBinding => Part::Init,
        SyntaxKind::Closure => Part::Defaults,
        SyntaxKind::ForLoop => Part::Iterable,
        SyntaxKind::ModuleImport => Part::Source,
        SyntaxKind::FieldAccess => Part::Field,
        SyntaxKind::MathFieldAccess => Part::Field,
        SyntaxKind::Named => Part::Pair,
        SyntaxKind::CodeBlock => Part::Block,
        SyntaxKind::ContentBlock => Part::Block,
        SyntaxKind::Contextual => Part::Block,
        _ => Part::Value,
    }
}

/// The first part below what a bare import is from, of this kind.
fn first_of_bare(kind: SyntaxKind) -> Part
    ensures { result ≡ spec.first_of_bare kind }
{
    match kind {
        SyntaxKind::FieldAccess => Part::BareField,
        _ => first_of_value(kind),
    }
}

/// The second part below a value of this kind.
fn second_of_value(kind: SyntaxKind) -> Part
    ensures { result ≡ spec.second_of_value kind }
{
    match kind {
        SyntaxKind::LetBinding => Part::Bound,
        SyntaxKind::Closure => Part::OwnName,
        SyntaxKind::ForLoop => Part::Loop,
        _ => Part::Nothing,
    }
}

/// The part below a pattern of this kind, which is `pair` below a pair in it.
fn below_pattern(pair: Part, kind: SyntaxKind) -> Part
    ensures { result ≡ spec.below_pattern pair kind }
{
    match kind {
        SyntaxKind::Destructuring => Part::Pattern,
        SyntaxKind::Parenthesized => Part::Pattern,
        SyntaxKind::Spread => Part::Pattern,
        SyntaxKind::Named => pair,
        _ => Part::Nothing,
    }
}

/// The part below an item of an import, by its kind.
fn below_items(kind: SyntaxKind) -> Part
    ensures { result ≡ spec.below_items kind }
{
    match kind {
        SyntaxKind::ImportItemPath => Part::Path,
        SyntaxKind::RenamedImportItem => Part::Renamed,
        _ => Part::Nothing,
    }
}
