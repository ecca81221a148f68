//! Labels, and references to them.

ghost use Rattle.std.specs.Prelude.{◌≡◌, ◌+◌, ◌-◌, ◌++◌, ◌<◌, ◌≤◌, IfOk, OnOk, map, option_and_then, option_map, option_to_list};
ghost use Rattle.typst_tree.specs.Tree.{forest};
ghost use Rattle.typst_names.specs.Bytes as bytes;
ghost use Rattle.typst_names.specs.Selections as selections;
ghost use Rattle.typst_features.specs.LabelRows.{left, left_all, steps, steps_all, steps_left};
ghost use Rattle.typst_features.specs.Labels as spec;

use std::alloc::{AllocError, Global};
use std::ops::Range;
use std::slice;
use typst_kinds::SyntaxKind;
use typst_names::Placed;
use typst_tree::SyntaxNode;

/// What mentions a name.
#[derive(Debug, Clone, Copy, PartialEq, Eq)]
pub enum MentionKind {
    /// A label in markup, `<name>`, which names what stands before it.
    Label,
    /// A reference, `@name`, or a label in code, as in `#link(<name>)`.
    Reference,
}

/// A label or a reference in a text.
#[derive(Debug, PartialEq, Eq, Drop)]
pub struct Mention<'a> {
    pub kind: MentionKind,
    /// The bytes of all of it, also of its marks.
    pub range: Range<usize>,
    pub name: &'a str,
}

/// Nodes side by side from a byte on, and whether their parent is markup.
#[derive(Clone, Copy)]
struct Row<'a> {
    trees: &'a [SyntaxNode],
    start: usize,
    in_markup: bool,
}

impl<'a> Mention<'a> {
    /// What a node mentions, if it is a label or a reference. A label counts as one where the node's parent is
    /// markup.
    fn of(node: Placed<'a>, in_markup: bool) -> Option<Mention<'a>>
        ensures { option_map spec.mentioned result ≡ spec.own in_markup node.entry.start node.entry.node.now.head }
    {
        let kind = node.node.kind();
        let name = name_of(kind, node.node.leaf_text())?;
        Some(Mention {
            kind: kind_of(kind, in_markup),
            range: node.start..node.inner_start(),
            name,
        })
    }

    /// What a node mentions, if that holds a byte.
    fn holding(node: Placed<'a>, in_markup: bool, byte: usize) -> Option<Mention<'a>>
        ensures { option_map spec.mentioned result ≡ option_and_then (spec.if_holds byte) (spec.own in_markup node.entry.start node.entry.node.now.head) }
    {
        Mention::of(node, in_markup)?.if_holds(byte)
    }

    /// The mention, if it holds a byte.
    fn if_holds(self, byte: usize) -> Option<Mention<'a>>
        ensures { option_map spec.mentioned result ≡ spec.if_holds byte (spec.mentioned self.entry) }
    {
        if self.holds(byte) { Some(self) } else { None }
    }

    /// Whether it holds a byte.
    fn holds(&self, byte: usize) -> bool
        ensures { result ≡ selections.holds byte self.now.range }
    {
        self.range.start <= byte && byte < self.range.end
    }

    /// The mention, if it ends at a byte.
    fn if_ends(self, byte: usize) -> Option<Mention<'a>>
        ensures { option_map spec.mentioned result ≡ spec.if_ends byte (spec.mentioned self.entry) }
    {
        if self.range.end == byte {
            Some(self)
        } else {
            None
        }
    }

    /// Whether it mentions a name.
    fn is_of(&self, name: &str) -> bool
        ensures { result ≡ spec.is_of name.now (spec.mentioned self.now) }
    {
        self.name == name
    }

    /// The bytes of the name alone.
    pub fn name_range(&self) -> Range<usize>
        ensures { result ≡ spec.name_range (spec.mentioned self.now) }
    {
        let start = self.range.start.saturating_add(1);
        start..start.saturating_add(self.name.len())
    }
}

/// The name of a label. Other nodes have none.
pub fn label_name(node: &SyntaxNode) -> Option<&str>
    ensures { option_map (λ name. name.now) result ≡ spec.label_name node.now.head.kind node.now.head.text }
{
    name_in_label(node.kind(), node.leaf_text())
}

/// The name of a label, by a node's kind and its text. Other nodes have none.
fn name_in_label(kind: SyntaxKind, text: &str) -> Option<&str>
    ensures { option_map (λ name. name.now) result ≡ spec.label_name kind text.now }
{
    match kind {
        SyntaxKind::Label => in_brackets(text),
        _ => None,
    }
}

/// The name that a label or a reference mentions, by its text. Other kinds of nodes mention none.
fn name_of(kind: SyntaxKind, text: &str) -> Option<&str>
    ensures { option_map (λ name. name.now) result ≡ spec.name_of kind text.now }
{
    match kind {
        SyntaxKind::Label => in_brackets(text),
        SyntaxKind::RefMarker => behind_at(text),
        _ => None,
    }
}

/// What stands between angle brackets.
fn in_brackets(text: &str) -> Option<&str>
    ensures { option_map (λ name. name.now) result ≡ spec.in_brackets text.now }
{
    before_closing(behind_opening(text)?)
}

/// A text without the angle bracket at its front.
fn behind_opening(text: &str) -> Option<&str>
    ensures { option_map (λ rest. rest.now) result ≡ spec.without_first 60 text.now }
{
    text.strip_prefix('<')
}

/// A text without the angle bracket at its end.
fn before_closing(text: &str) -> Option<&str>
    ensures { option_map (λ rest. rest.now) result ≡ spec.without_last 62 text.now }
{
    text.strip_suffix('>')
}

/// A text without the at sign at its front.
fn behind_at(text: &str) -> Option<&str>
    ensures { option_map (λ rest. rest.now) result ≡ spec.without_first 64 text.now }
{
    text.strip_prefix('@')
}

/// What a label or a reference is, by whether its parent is markup.
fn kind_of(kind: SyntaxKind, in_markup: bool) -> MentionKind
    ensures { result ≡ spec.kind_of kind in_markup }
{
    match kind {
        SyntaxKind::Label => label_kind(in_markup),
        _ => MentionKind::Reference,
    }
}

/// What a label mentions by where it stands.
fn label_kind(in_markup: bool) -> MentionKind
    ensures { result ≡ spec.label_kind in_markup }
{
    if in_markup {
        MentionKind::Label
    } else {
        MentionKind::Reference
    }
}

/// Whether the labels among a node's children stand in markup.
fn is_markup(kind: SyntaxKind) -> bool
    ensures { result ≡ spec.is_markup kind }
{
    kind.same(SyntaxKind::Markup)
}

/// Whether it is a label in markup.
fn is_label(kind: MentionKind) -> bool
    ensures { result ≡ spec.is_label kind }
{
    match kind {
        MentionKind::Label => true,
        MentionKind::Reference => false,
    }
}

/// The label or the reference that holds a byte, or else the one that ends there.
pub fn mention_at(root: &SyntaxNode, byte: usize) -> Option<Mention<'_>>
    ensures { option_map spec.mentioned result ≡ spec.mention_at root.now byte }
{
    match mention_holding(root, byte) {
        Some(mention) => Some(mention),
        None => mention_ending(root, byte),
    }
}

/// The label or the reference that ends at a byte.
fn mention_ending(root: &SyntaxNode, byte: usize) -> Option<Mention<'_>>
    ensures { option_map spec.mentioned result ≡ option_and_then (spec.if_ends byte) (spec.holding (byte - 1) (spec.mentions root.now)) }
{
    mention_holding(root, byte.saturating_sub(1))?.if_ends(byte)
}

/// The label or the reference that holds a byte.
fn mention_holding(root: &SyntaxNode, byte: usize) -> Option<Mention<'_>>
    ensures { option_map spec.mentioned result ≡ spec.holding byte (spec.mentions root.now) }
{
    let mut placed = Placed::top(root);
    let mut in_markup = false;
    while let Some(kid) = placed.child_at(byte) {
        in_markup = is_markup(placed.node.kind());
        placed = kid;
    }
    Mention::holding(placed, in_markup, byte)
}

/// The labels and references of a name, in order. It goes through each node once.
pub fn mentions<'a>(
    alloc: Global,
    root: &'a SyntaxNode,
    name: &str,
) -> Result<Vec<Mention<'a>>, AllocError>
    ensures { IfOk result (λ found. map spec.mentioned found.items ≡ spec.of_name name.now (spec.mentions root.now)) }
{
    let mut found = Vec::new(alloc);
    let mut rows = Vec::new(alloc);
    push_row(&mut rows, Row::whole(root))?;
    while let Some(row) = rows.pop() {
        take_next(&mut found, &mut rows, row, name)?;
    }
    Ok(found)
}

/// Takes the first node of a row: adds what it mentions itself, if that has a name, and the rows below and after
/// it.
fn take_next<'a>(
    found: &mut Vec<Mention<'a>>,
    rows: &mut Vec<Row<'a>>,
    row: Row<'a>,
    name: &str,
) -> Result<(), AllocError>
    ensures taken { OnOk result (map spec.mentioned found.new.items ++ spec.of_name name.now (left_all rows.new.items) ≡ map spec.mentioned found.old.items ++ spec.of_name name.now (left row.entry ++ left_all rows.old.items)) }
    ensures fewer { OnOk result (steps_all rows.new.items < steps_left row.entry + steps_all rows.old.items) }
{
    let Some((node, rest)) = row.trees.split_first() else {
        return Ok(());
    };
    let node = Placed {
        node,
        start: row.start,
    };
    add_own(found, node, row.in_markup, name)?;
    push_row(rows, row.behind(node, rest))?;
    push_row(rows, Row::below(node))?;
    Ok(())
}

/// Adds what a node mentions itself, if that has a name.
fn add_own<'a>(
    found: &mut Vec<Mention<'a>>,
    node: Placed<'a>,
    in_markup: bool,
    name: &str,
) -> Result<(), AllocError>
    ensures { OnOk result (map spec.mentioned found.new.items ≡ map spec.mentioned found.old.items ++ spec.of_name name.now (option_to_list (spec.own in_markup node.entry.start node.entry.node.now.head))) }
{
    let Some(mention) = Mention::of(node, in_markup) else {
        return Ok(());
    };
    if !mention.is_of(name) {
        return Ok(());
    }
    found.push(mention)?;
    Ok(())
}

/// Puts a row on the others, unless there is nothing in it.
fn push_row<'a>(rows: &mut Vec<Row<'a>>, row: Row<'a>) -> Result<(), AllocError>
    ensures left { OnOk result (left_all rows.new.items ≡ left row.entry ++ left_all rows.old.items) }
    ensures steps { OnOk result (steps_all rows.new.items ≤ steps_left row.entry + steps_all rows.old.items) }
{
    if row.trees.is_empty() {
        return Ok(());
    }
    rows.push(row)?;
    Ok(())
}

impl<'a> Row<'a> {
    /// The row of a whole tree.
    fn whole(root: &'a SyntaxNode) -> Row<'a>
        ensures { left result ≡ spec.mentions root.now }
    {
        Row {
            trees: slice::from_ref(root),
            start: 0,
            in_markup: false,
        }
    }

    /// The row of what follows the first node.
    fn behind(self, node: Placed<'a>, rest: &'a [SyntaxNode]) -> Row<'a>
        ensures left { left result ≡ spec.row self.entry.in_markup (bytes.behind node.entry.start node.entry.node.now.head node.entry.node.now.kids) (forest rest.now) }
        ensures steps { steps_left result ≡ 1 + steps (forest rest.now) }
    {
        Row {
            trees: rest,
            start: node.end(),
            in_markup: self.in_markup,
        }
    }

    /// The row of the children of a node.
    fn below(node: Placed<'a>) -> Row<'a>
        ensures left { left result ≡ spec.row (spec.is_markup node.entry.node.now.head.kind) (bytes.inner node.entry.start node.entry.node.now.head) node.entry.node.now.kids }
        ensures steps { steps_left result ≡ 1 + steps node.entry.node.now.kids }
    {
        Row {
            trees: node.node.children(),
            start: node.inner_start(),
            in_markup: is_markup(node.node.kind()),
        }
    }
}

/// The labels and references of the name that is mentioned at a byte, in order, and none where no name is.
pub fn highlights<'a>(
    alloc: Global,
    root: &'a SyntaxNode,
    byte: usize,
) -> Result<Vec<Mention<'a>>, AllocError>
    ensures { IfOk result (λ found. map spec.mentioned found.items ≡ spec.highlights root.now byte) }
{
    match mention_at(root, byte) {
        None => Ok(Vec::new(alloc)),
        Some(mention) => mentions(alloc, root, mention.name),
    }
}

/// The labels in markup of the name that is mentioned at a byte, in order.
pub fn definitions<'a>(
    alloc: Global,
    root: &'a SyntaxNode,
    byte: usize,
) -> Result<Vec<Mention<'a>>, AllocError>
    ensures { IfOk result (λ found. map spec.mentioned found.items ≡ spec.definitions root.now byte) }
{
    let mut found = highlights(alloc, root, byte)?;
    found.retain(|mention| is_label(mention.kind));
    Ok(found)
}

/// The references to the name that is mentioned at a byte, and its labels in code, in order.
pub fn references<'a>(
    alloc: Global,
    root: &'a SyntaxNode,
    byte: usize,
) -> Result<Vec<Mention<'a>>, AllocError>
    ensures { IfOk result (λ found. map spec.mentioned found.items ≡ spec.references root.now byte) }
{
    let mut found = highlights(alloc, root, byte)?;
    found.retain(|mention| !is_label(mention.kind));
    Ok(found)
}
