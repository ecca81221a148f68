//! The tag of a node, found from the root of its tree.

ghost use Rattle.std.specs.Prelude.{◌≡◌, ◌+◌, ◌&&◌, ◌||◌, None};
ghost use Rattle.std.specs.Option.{option_map};
ghost use Rattle.typst_tree.specs.Linked.{linked};
ghost use Rattle.typst_tree.specs.Steps.{end_of, kind_of, parent};
ghost use Rattle.typst_highlight.specs.Names.{is_called, kind_ahead, name_alone};
ghost use Rattle.typst_highlight.specs.Rules.{begins_arguments, is_colon, is_show_rule, rule_of};
ghost use Rattle.typst_highlight.specs.Nodes as spec;

use crate::rules::{
    Rule, equals_tag, is_arguments, is_colon, is_content, is_dot, is_field_access, is_hash,
    is_math_name, is_name, is_show_rule, paren_tag, rule_of, slash_tag, star_tag, term_tag,
    underscore_tag,
};
use crate::tags::Tag;
use typst_kinds::SyntaxKind;
use typst_tree::LinkedNode;

/// The tag of a node, or `None` if it has none of its own.
///
/// Takes no memory. Of most kinds the kind tells the tag, in a constant time. The others ask by
/// steps of `LinkedNode`, each of which goes through the children of each node above, except mostly
/// those of the first long row:
/// - a parenthesis, a star, an underscore, a slash and an equals sign for the parent, and markup
///   also for the next sibling;
/// - a hash for the next sibling, and then for what the first leaf of that asks for;
/// - a name for the next leaf. Where that doesn't make it a function, it asks for the parents up to
///   the outermost field access and for the leaf before that, and where these don't tell, for the
///   two leaves before the name and for all that the name before the dot asks for.
///
/// So a node among m siblings may take a time in proportion to m, and a name at the end of a chain
/// `a.b.c` more than that. `highlight_html` asks once for all nodes of a tree, in one pass.
pub fn highlight(node: &LinkedNode) -> Option<Tag>
    ensures { result ≡ spec.tag_of (linked node.now) }
{
    let mut bearer = *node;
    while let Rule::Expression = rule_of(bearer.kind()) {
        let leaf = expression_leaf(bearer)?;
        bearer = leaf;
    }
    tag_by_rule(bearer)
}

/// The leaf whose tag a hash has: the first one of the expression after it.
fn expression_leaf<'a>(hash: LinkedNode<'a>) -> Option<LinkedNode<'a>>
    ensures { option_map linked result ≡ spec.expression_leaf (linked hash.entry) }
{
    let expression = hash.next_sibling()?;
    if expression.hash_expr() {
        expression.leftmost_leaf()
    } else {
        None
    }
}

/// The tag of a node that is no hash.
fn tag_by_rule(node: LinkedNode) -> Option<Tag>
    ensures { result ≡ spec.tag_by (rule_of (kind_of (linked node.entry))) (linked node.entry) None }
{
    match rule_of(node.kind()) {
        Rule::Fixed(tag) => tag,
        Rule::Paren => paren_tag(node.parent_kind()),
        Rule::Star => star_tag(node.parent_kind()),
        Rule::Underscore => underscore_tag(node.parent_kind()),
        Rule::Slash => slash_tag(node.parent_kind()),
        Rule::Equals => equals_tag(node.parent_kind()),
        Rule::Term => term_tag(node.parent_kind(), node.next_sibling_kind()),
        Rule::Name => name_tag(node),
        Rule::Expression => None,
    }
}

/// The tag of a name: its own, or that of the name before the dot before it.
fn name_tag(name: LinkedNode) -> Option<Tag>
    ensures { result ≡ spec.name_tag ((linked name.entry).number + 1) (linked name.entry) }
{
    let mut bearer = name;
    'names: loop {
        match own_tag(bearer) {
            Some(tag) => return Some(tag),
            None => {
                let earlier = earlier_name(bearer)?;
                bearer = earlier;
            }
        }
    }
}

/// The tag of a name, unless only a name before it can tell.
fn own_tag(name: LinkedNode) -> Option<Tag>
    ensures { result ≡ name_alone (spec.surroundings (linked name.entry)) }
{
    let next = name.next_leaf();
    if is_called(name, next) {
        return Some(Tag::Function);
    }
    if is_math_name(name.kind()) {
        return Some(Tag::Interpolated);
    }
    let outer = outermost(name);
    if is_shown(name, next, outer) {
        return Some(Tag::Function);
    }
    if is_hash(leaf_before(outer)) {
        return Some(Tag::Interpolated);
    }
    None
}

/// Whether arguments or content begin where a name ends, by the leaf after the name.
fn is_called<'a>(name: LinkedNode<'a>, next: Option<LinkedNode<'a>>) -> bool
    ensures { result ≡ is_called (end_of (linked name.entry)) (option_map spec.described (option_map linked next.entry)) }
{
    match next {
        None => false,
        Some(leaf) => leaf.offset() == name.range().end && opens_arguments(leaf),
    }
}

/// Whether a leaf begins what a function is called with.
fn opens_arguments(leaf: LinkedNode) -> bool
    ensures { result ≡ begins_arguments (kind_of (linked leaf.entry)) (spec.kind_if (parent (linked leaf.entry))) }
{
    match leaf.kind() {
        SyntaxKind::LeftParen => is_arguments(leaf.parent_kind()),
        SyntaxKind::LeftBracket => is_content(leaf.parent_kind()),
        _ => false,
    }
}

/// Whether a name stands directly before or after the colon of a show rule, by the leaf after the
/// name and the outermost of the field accesses above it.
fn is_shown<'a>(name: LinkedNode<'a>, next: Option<LinkedNode<'a>>, outer: LinkedNode<'a>) -> bool
    ensures { result ≡ (is_show_rule (spec.kind_if (parent (linked outer.entry))) && (is_colon (kind_ahead (option_map spec.described (option_map linked next.entry))) || is_colon (spec.kind_before (linked name.entry)))) }
{
    is_show_rule(outer.parent_kind()) && (is_colon(kind_ahead(next)) || is_colon(leaf_before(name)))
}

/// The kind of the leaf after a name.
fn kind_ahead(next: Option<LinkedNode>) -> Option<SyntaxKind>
    ensures { result ≡ kind_ahead (option_map spec.described (option_map linked next.entry)) }
{
    match next {
        None => None,
        Some(leaf) => Some(leaf.kind()),
    }
}

/// The name before the dot before a name.
fn earlier_name<'a>(name: LinkedNode<'a>) -> Option<LinkedNode<'a>>
    ensures { option_map linked result ≡ spec.earlier_name (linked name.entry) }
{
    let dot = name.prev_leaf()?;
    name_before(dot)
}

/// The name before a dot.
fn name_before<'a>(dot: LinkedNode<'a>) -> Option<LinkedNode<'a>>
    ensures { option_map linked result ≡ spec.name_before (linked dot.entry) }
{
    if !is_dot(dot.kind()) {
        return None;
    }
    let name = dot.prev_leaf()?;
    if is_name(name.kind()) {
        Some(name)
    } else {
        None
    }
}

/// The kind of the last leaf before a node.
fn leaf_before(node: LinkedNode) -> Option<SyntaxKind>
    ensures { result ≡ spec.kind_before (linked node.entry) }
{
    let leaf = node.prev_leaf()?;
    Some(leaf.kind())
}

/// The node, or the outermost of the field accesses above it.
fn outermost<'a>(node: LinkedNode<'a>) -> LinkedNode<'a>
    ensures { linked result ≡ spec.outermost (linked node.entry).number (linked node.entry) }
{
    let mut outer = node;
    while let Some(parent) = outer.parent() {
        if !is_field_access(parent.kind()) {
            return outer;
        }
        outer = parent;
    }
    outer
}
