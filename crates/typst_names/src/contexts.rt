//! What names are, by where they stand.

ghost use Rattle.std.specs.Prelude.{◌≡◌};
ghost use Rattle.typst_names.specs.Contexts as spec;

use typst_kinds::SyntaxKind;

/// What a name is, by where it stands.
#[derive(Debug, Clone, Copy, PartialEq, Eq)]
pub enum Role {
    /// It stands for a value.
    Use,
    /// A variable that is bound: by `let`, by `for`, or as an item of an import.
    Variable,
    /// A function that `let` binds by its parameters.
    Function,
    /// A parameter of a function.
    Parameter,
    /// The name of an argument.
    Argument,
    /// A key of a dictionary, or of a pair in a pattern.
    Key,
    /// A field after a dot.
    Field,
    /// A module that is imported from.
    Module,
    /// The name that an import gives to its module.
    Alias,
}

/// What the children of a node are, from one of them up to one that changes it.
#[derive(Debug, Clone, Copy, PartialEq, Eq)]
pub enum Context {
    /// Names stand for values.
    Value,
    /// A `let`, up to the equals sign.
    Let,
    /// A `for`, up to `in`.
    Loop,
    /// A pattern that binds variables.
    Pattern,
    /// A pair in such a pattern, up to the colon.
    PatternPair,
    /// A function, up to its parameters.
    Function,
    /// The parameters of a function.
    Parameters,
    /// A parameter with a default, up to the colon.
    Default,
    /// A pattern among parameters.
    ParameterPattern,
    /// A pair in such a pattern, up to the colon.
    ParameterPair,
    /// The arguments of a call.
    Arguments,
    /// An argument with a name, up to the colon.
    Argument,
    /// An entry of a dictionary, up to the colon.
    Entry,
    /// A field access, up to the dot.
    Access,
    /// What follows the dot.
    Field,
    /// An import, up to `as` or the colon.
    Source,
    /// An import with a new name for its module, up to the colon.
    Alias,
    /// The path of an item of an import.
    Path,
    /// An item of an import with a new name, up to `as`.
    Renamed,
    /// The path of such an item.
    OldPath,
}

impl Context {
    /// What a child is, by its kind and by whether it is the last one: names alone have a role.
    pub fn role(self, kind: SyntaxKind, is_last: bool) -> Option<Role>
        ensures { result ≡ spec.role_of self kind is_last }
    {
        match kind {
            SyntaxKind::Ident => Some(self.name(is_last)),
            SyntaxKind::MathIdent => Some(self.name(is_last)),
            _ => None,
        }
    }

    fn name(self, is_last: bool) -> Role
        ensures { result ≡ spec.name_in self is_last }
    {
        match self {
            Context::Let => Role::Variable,
            Context::Loop => Role::Variable,
            Context::Pattern => Role::Variable,
            Context::PatternPair => Role::Key,
            Context::Function => Role::Function,
            Context::Parameters => Role::Parameter,
            Context::Default => Role::Parameter,
            Context::ParameterPattern => Role::Parameter,
            Context::ParameterPair => Role::Key,
            Context::Argument => Role::Argument,
            Context::Entry => Role::Key,
            Context::Field => Role::Field,
            Context::Source => Role::Module,
            Context::Alias => Role::Alias,
            Context::Path => in_path(is_last, Role::Variable),
            Context::OldPath => in_path(is_last, Role::Use),
            _ => Role::Use,
        }
    }

    /// The context after a child of this kind.
    pub fn after(self, kind: SyntaxKind) -> Context
        ensures { result ≡ spec.after self kind }
    {
        match self {
            Context::Let => self.up_to(SyntaxKind::Eq, Context::Value, kind),
            Context::Loop => self.up_to(SyntaxKind::In, Context::Value, kind),
            Context::PatternPair => self.up_to(SyntaxKind::Colon, Context::Pattern, kind),
            Context::Function => self.up_to(SyntaxKind::Params, Context::Value, kind),
            Context::Default => self.up_to(SyntaxKind::Colon, Context::Value, kind),
            Context::ParameterPair => {
                self.up_to(SyntaxKind::Colon, Context::ParameterPattern, kind)
            }
            Context::Argument => self.up_to(SyntaxKind::Colon, Context::Value, kind),
            Context::Entry => self.up_to(SyntaxKind::Colon, Context::Value, kind),
            Context::Access => self.up_to(SyntaxKind::Dot, Context::Field, kind),
            Context::Source => after_source(kind),
            Context::Alias => self.up_to(SyntaxKind::Colon, Context::Value, kind),
            Context::Renamed => self.up_to(SyntaxKind::As, Context::Pattern, kind),
            _ => self,
        }
    }

    /// This context, and after a mark another one.
    fn up_to(self, mark: SyntaxKind, next: Context, kind: SyntaxKind) -> Context
        ensures { result ≡ spec.up_to mark next self kind }
    {
        if kind.same(mark) { next } else { self }
    }

    /// The context of the children of a child of this kind.
    pub fn below(self, kind: SyntaxKind) -> Context
        ensures { result ≡ spec.below self kind }
    {
        match kind {
            SyntaxKind::Named => self.pair(),
            SyntaxKind::Destructuring => self.pattern(),
            SyntaxKind::Parenthesized => self.pattern(),
            SyntaxKind::Spread => self.pattern(),
            SyntaxKind::ImportItemPath => self.path(),
            SyntaxKind::RenamedImportItem => Context::Renamed,
            SyntaxKind::ModuleImport => Context::Source,
            SyntaxKind::LetBinding => Context::Let,
            SyntaxKind::ForLoop => Context::Loop,
            SyntaxKind::Closure => Context::Function,
            SyntaxKind::Params => Context::Parameters,
            SyntaxKind::Args => Context::Arguments,
            SyntaxKind::MathArgs => Context::Arguments,
            SyntaxKind::FieldAccess => Context::Access,
            SyntaxKind::MathFieldAccess => Context::Access,
            _ => Context::Value,
        }
    }

    /// Below a pair with a colon.
    fn pair(self) -> Context
        ensures { result ≡ spec.pair_in self }
    {
        match self {
            Context::Let => Context::PatternPair,
            Context::Loop => Context::PatternPair,
            Context::Pattern => Context::PatternPair,
            Context::Parameters => Context::Default,
            Context::ParameterPattern => Context::ParameterPair,
            Context::Arguments => Context::Argument,
            _ => Context::Entry,
        }
    }

    /// Below a pattern in parens, and below `..`.
    fn pattern(self) -> Context
        ensures { result ≡ spec.pattern_in self }
    {
        match self {
            Context::Let => Context::Pattern,
            Context::Loop => Context::Pattern,
            Context::Pattern => Context::Pattern,
            Context::Parameters => Context::ParameterPattern,
            Context::ParameterPattern => Context::ParameterPattern,
            _ => Context::Value,
        }
    }

    /// Below the path of an item of an import.
    fn path(self) -> Context
        ensures { result ≡ spec.path_in self }
    {
        match self {
            Context::Renamed => Context::OldPath,
            _ => Context::Path,
        }
    }
}

/// The names of an imported path lead to its last one.
fn in_path(is_last: bool, role: Role) -> Role
    ensures { result ≡ spec.in_path is_last role }
{
    if is_last { role } else { Role::Module }
}

/// An import up to what it binds.
fn after_source(kind: SyntaxKind) -> Context
    ensures { result ≡ spec.after_source kind }
{
    if kind.same(SyntaxKind::As) {
        return Context::Alias;
    }
    Context::Source.up_to(SyntaxKind::Colon, Context::Value, kind)
}
