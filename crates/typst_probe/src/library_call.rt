//! The calls of the library that are made by their names.

use crate::walk::Walk;

/// A call that makes or changes a source.
#[derive(Clone, Copy)]
pub enum SourceCall {
    New,
    Detached,
    WithRoot,
    TryClone,
    Edit,
    Replace,
}

/// A call that makes or changes lines.
#[derive(Clone, Copy)]
pub enum LinesCall {
    New,
    TryClone,
    Edit,
    Replace,
}

/// A call that makes a tree.
#[derive(Clone, Copy)]
pub enum TreeCall {
    Parse,
    ParseCode,
    ParseMath,
    ParseNoted,
    RawNode,
    Leaf,
    Error,
    TryClone,
}

/// A call that changes a tree.
#[derive(Clone, Copy)]
pub enum Change {
    ConvertToError,
    Expected,
    Unexpected,
    Warn,
    WarnAt,
    Hint,
    HintAt,
    ReplaceAt,
}

/// A call that makes something else of a tree or a text.
#[derive(Clone, Copy)]
pub enum Reading {
    Walk(Walk),
    Stretches,
    Newlines,
    Link,
}

/// Calls that take no memory.
#[derive(Clone, Copy)]
pub enum Query {
    EqualText,
    Lines,
    LinesCompare,
    LinesFrom,
    Source,
    Leaves,
    Nodes,
    Changes,
    Remarks,
    Kinds,
    Tags,
    Spans,
    Characters,
    Classes,
}

/// A call, or some that take no memory.
#[derive(Clone, Copy)]
pub enum Call {
    /// None, and nothing is compared.
    Start,
    /// None.
    Nothing,
    Source(SourceCall),
    Lines(LinesCall),
    Tree(TreeCall),
    Change(Change),
    Html,
    Read(Reading),
    Query(Query),
}

/// The names of the calls.
static CALLS: [(&str, Call); 49] = [
    ("start", Call::Start),
    ("none", Call::Nothing),
    ("Source::new", Call::Source(SourceCall::New)),
    ("Source::detached", Call::Source(SourceCall::Detached)),
    ("Source::with_root", Call::Source(SourceCall::WithRoot)),
    ("Source::try_clone", Call::Source(SourceCall::TryClone)),
    ("Source::edit", Call::Source(SourceCall::Edit)),
    ("Source::replace", Call::Source(SourceCall::Replace)),
    ("Lines::new", Call::Lines(LinesCall::New)),
    ("Lines::try_clone", Call::Lines(LinesCall::TryClone)),
    ("Lines::edit", Call::Lines(LinesCall::Edit)),
    ("Lines::replace", Call::Lines(LinesCall::Replace)),
    ("parse", Call::Tree(TreeCall::Parse)),
    ("parse_code", Call::Tree(TreeCall::ParseCode)),
    ("parse_math", Call::Tree(TreeCall::ParseMath)),
    ("parse_noted", Call::Tree(TreeCall::ParseNoted)),
    ("raw_node", Call::Tree(TreeCall::RawNode)),
    ("SyntaxNode::leaf", Call::Tree(TreeCall::Leaf)),
    ("SyntaxNode::error", Call::Tree(TreeCall::Error)),
    ("SyntaxNode::try_clone", Call::Tree(TreeCall::TryClone)),
    (
        "SyntaxNode::convert_to_error",
        Call::Change(Change::ConvertToError),
    ),
    ("SyntaxNode::expected", Call::Change(Change::Expected)),
    ("SyntaxNode::unexpected", Call::Change(Change::Unexpected)),
    ("SyntaxNode::warn", Call::Change(Change::Warn)),
    ("SyntaxNode::warn_at", Call::Change(Change::WarnAt)),
    ("SyntaxNode::hint", Call::Change(Change::Hint)),
    ("SyntaxNode::hint_at", Call::Change(Change::HintAt)),
    ("SyntaxNode::replace_at", Call::Change(Change::ReplaceAt)),
    (
        "SyntaxNode::preorder",
        Call::Read(Reading::Walk(Walk::Whole)),
    ),
    (
        "Preorder::next_marked",
        Call::Read(Reading::Walk(Walk::Marked)),
    ),
    (
        "Preorder::next_diagnosed",
        Call::Read(Reading::Walk(Walk::Diagnosed)),
    ),
    ("highlight_html", Call::Html),
    ("tag_stretches", Call::Read(Reading::Stretches)),
    ("split_newlines", Call::Read(Reading::Newlines)),
    ("link_prefix", Call::Read(Reading::Link)),
    ("equal-text", Call::Query(Query::EqualText)),
    ("lines-tell", Call::Query(Query::Lines)),
    ("lines-compare", Call::Query(Query::LinesCompare)),
    ("lines-from", Call::Query(Query::LinesFrom)),
    ("source-tells", Call::Query(Query::Source)),
    ("leaves-tell", Call::Query(Query::Leaves)),
    ("nodes-tell", Call::Query(Query::Nodes)),
    ("nodes-change", Call::Query(Query::Changes)),
    ("remarks-tell", Call::Query(Query::Remarks)),
    ("kinds-tell", Call::Query(Query::Kinds)),
    ("tags-tell", Call::Query(Query::Tags)),
    ("spans-tell", Call::Query(Query::Spans)),
    ("characters-tell", Call::Query(Query::Characters)),
    ("classes-tell", Call::Query(Query::Classes)),
];

/// The call of a name.
pub fn call_named(name: &str) -> Option<Call> {
    for (known, call) in &CALLS {
        if *known == name {
            return Some(*call);
        }
    }
    None
}
