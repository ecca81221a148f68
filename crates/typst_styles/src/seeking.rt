//! The tokens of a tree that touch a range: a walk that goes only into the nodes that touch it.

ghost use Rattle.std.specs.Prelude.{◌≡◌, ◌+◌, ◌++◌, ◌-◌, ◌^◌, ◌<◌, ◌≤◌, drop, length, IfOk, IfSome, OnOk};
ghost use Rattle.typst_tree.specs.Boundaries.{AreCounted, IsBoundary};
ghost use Rattle.typst_tree.specs.Tree.{Tree, nodes};
ghost use Rattle.typst_highlight.specs.Html.{spanned};
ghost use Rattle.typst_highlight.specs.Names.{first_tag};
ghost use Rattle.typst_styles.specs.Tokens.{all_tokens, touching};
ghost use Rattle.typst_styles.specs.Seeking as spec;
ghost use Rattle.typst_names.specs.RoleRows.{steps};

use crate::boundaries::last_to;
use crate::tokens::{Token, add_stretch};
use std::alloc::{AllocError, Global};
use std::ops::Range;
use typst_highlight::{Tag, Tagged, highlight};
use typst_names::{Context, Placed};
use typst_tree::{Boundary, LinkedChildren, LinkedNode, SyntaxNode};

/// How many nodes may be gone through beside the way to a range, for each node of the tree.
const WORTH: usize = 8;

/// What tokens are wanted: those of a tree, with its text, that touch a range.
#[derive(Clone, Copy)]
pub struct Wanted<'t> {
    pub root: &'t SyntaxNode,
    pub text: &'t str,
    pub within: &'t Range<usize>,
    /// A place between the root's children, from which the range is sought.
    pub near: Boundary,
}

/// Nodes side by side to which a walk has still to come.
#[derive(Drop)]
struct Row<'t> {
    nodes: &'t [SyntaxNode],
    /// Where these nodes stand in the tree: a place for each, in the same order.
    places: LinkedChildren<'t>,
    /// Where the first of them begins, in bytes.
    start: usize,
    /// What names are among them.
    context: Context,
    /// The tag around them.
    around: Option<Tag>,
    way: Way,
}

/// A node that a walk has come to.
#[derive(Clone, Copy)]
struct Spot<'t> {
    node: Placed<'t>,
    /// Its place in the tree.
    place: LinkedNode<'t>,
    /// What a name is there.
    context: Context,
    /// The tag around it.
    around: Option<Tag>,
    /// Whether it is the last child of its parent.
    is_last: bool,
    way: Way,
}

/// How many nodes stand in the rows on the way from the root to a node.
#[derive(Clone, Copy)]
struct Way {
    all: usize,
    /// In the longest row.
    longest: usize,
}

impl Way {
    /// The way to a row of so many nodes that goes on from here.
    fn to_row(self, count: usize) -> Way {
        Way {
            all: self.all.saturating_add(count),
            longest: self.longest.max(count),
        }
    }

    /// About how many nodes a step from a node to its neighbours goes through: a long row is left out.
    fn cost(self) -> usize {
        self.all.saturating_sub(self.longest)
    }
}

/// The tag that a node's own text is shown by: its own, or where it has none or is an error that around it.
fn shown_tag(tag: Option<Tag>, around: Option<Tag>) -> Option<Tag>
    ensures { result ≡ first_tag (spanned tag) around }
{
    match unless_error(tag) {
        None => around,
        found => found,
    }
}

/// The tag, unless it is that of an error.
fn unless_error(tag: Option<Tag>) -> Option<Tag>
    ensures { result ≡ spanned tag }
{
    match tag {
        Some(Tag::Error) => None,
        other => other,
    }
}

/// The nodes from an index on.
fn from_index(nodes: &[SyntaxNode], index: usize) -> &[SyntaxNode]
    requires { index ≤ length nodes.now }
    ensures { result.now ≡ drop index nodes.now }
{
    &nodes[index..]
}

impl<'t> Wanted<'t> {
    /// The root.
    fn top(&self) -> Spot<'t>
        requires { nodes self.now.root.now < 2 ^ 64 - 1 }
        ensures { spec.IsTop self.now.root.now result }
    {
        Spot {
            node: Placed::top(self.root),
            place: LinkedNode::new(self.root),
            context: Context::Value,
            around: None,
            is_last: true,
            way: Way { all: 1, longest: 1 },
        }
    }
}

impl<'t> Row<'t> {
    /// Takes out the first node.
    #[inline(always)]
    fn take(&mut self) -> Option<Spot<'t>>
        ensures takes { (root : Tree) → spec.IsRow root self.old → spec.Takes root self.old result self.new }
        ensures fewer { spec.IsFewer self.old result self.new }
    {
        let Some((node, later)) = self.nodes.split_first() else {
            return None;
        };
        let Some(place) = self.places.next() else {
            return None;
        };
        let node = Placed {
            node,
            start: self.start,
        };
        let context = self.context;
        self.nodes = later;
        self.start = node.end();
        self.context = context.after(node.node.kind());
        Some(Spot {
            node,
            place,
            context,
            around: self.around,
            is_last: later.is_empty(),
            way: self.way,
        })
    }

    /// Passes the first node, if there is one. What a `Spot` has beside it isn't made, as a walk passes many nodes
    /// before those that it takes out.
    #[inline(always)]
    fn pass(&mut self)
        ensures passes { (root : Tree) → spec.IsRow root self.old → spec.Passes root self.old self.new }
        ensures fewer { spec.IsShorter self.old self.new }
    {
        let Some((node, later)) = self.nodes.split_first() else {
            return;
        };
        let _place = self.places.next();
        let passed = Placed {
            node,
            start: self.start,
        };
        let context = self.context;
        self.nodes = later;
        self.start = passed.end();
        self.context = context.after(node.kind());
    }

    /// Passes those of the root's children that end by the range's start, from a place near it and not one by one.
    /// Where the nodes before one tell what its names are, as in a `let`, none are passed.
    fn pass_to(&mut self, wanted: &Wanted<'t>)
        requires counted { AreCounted wanted.now.root.now }
        requires near { IsBoundary wanted.now.root.now wanted.now.near }
        requires whole { spec.IsWhole wanted.now.root.now self.old }
        ensures { spec.Skips wanted.now.within.now wanted.now.text.now wanted.now.root.now self.old self.new }
    {
        let Context::Value = self.context else {
            return;
        };
        let begun = last_to(wanted.root, wanted.near, wanted.within.start);
        let later = from_index(self.nodes, begun.index);
        self.nodes = later;
        self.places = LinkedChildren::from_boundary(wanted.root, begun);
        self.start = begun.bytes;
    }

    /// Takes out the nodes up to the first that may touch the range.
    fn seek(&mut self, wanted: &Wanted<'t>) -> Option<Spot<'t>>
        requires { spec.IsRow wanted.now.root.now self.old }
        ensures seeks { spec.Seeks wanted.now.within.now wanted.now.text.now wanted.now.root.now self.old result self.new }
        ensures fewer { spec.IsFewer self.old result self.new }
    {
        'nodes: while self.start < wanted.within.end {
            let Some((node, _)) = self.nodes.split_first() else {
                return None;
            };
            let first = Placed {
                node,
                start: self.start,
            };
            if wanted.within.start < first.end() {
                return self.take();
            }
            self.pass();
        }
        None
    }
}

/// Adds the tokens of a node's own text, and gives the row of its children.
#[inline(always)]
fn go_into<'t>(found: &mut Vec<Token>, text: &str, spot: Spot<'t>) -> Result<Row<'t>, AllocError>
    ensures { IfOk result (λ row. spec.Opens text.now spot.entry found.old.items found.new.items row) }
{
    let node = spot.node.node;
    let kind = node.kind();
    let start = spot.node.inner_start();
    let asked = highlight(&spot.place);
    let tag = shown_tag(asked, spot.around);
    let role = spot.context.role(kind, spot.is_last);
    let stretch = Tagged {
        range: spot.node.start..start,
        tag,
    };
    add_stretch(found, text, &stretch, role)?;
    let nodes = node.children();
    let places = spot.place.children();
    let context = spot.context.below(kind);
    Ok(Row {
        nodes,
        places,
        start,
        context,
        around: tag,
        way: spot.way.to_row(nodes.len()),
    })
}

/// Adds the tokens of a node's own text, and a row of its children.
fn enter<'t>(
    found: &mut Vec<Token>,
    rows: &mut Vec<Row<'t>>,
    text: &str,
    spot: Spot<'t>,
) -> Result<(), AllocError>
    ensures taken { OnOk result ((root : Tree) → spec.IsSpot root spot.entry → found.new.items ++ spec.left_of_all text.now root rows.new.items ≡ found.old.items ++ (spec.of_spot text.now root spot.entry ++ spec.left_of_all text.now root rows.old.items)) }
    ensures ready { OnOk result ((root : Tree) → spec.IsSpot root spot.entry → spec.AreRows root rows.old.items → spec.AreRows root rows.new.items) }
    ensures steps { OnOk result (spec.steps_all rows.new.items ≡ 1 + steps spot.entry.node.node.now.kids + spec.steps_all rows.old.items) }
{
    let row = go_into(found, text, spot)?;
    rows.push(row)?;
    Ok(())
}

/// Goes into the first node of a row that may touch the range, and leaves the row for later.
fn take_next<'t>(
    found: &mut Vec<Token>,
    rows: &mut Vec<Row<'t>>,
    wanted: &Wanted<'t>,
    mut row: Row<'t>,
) -> Result<(), AllocError>
    requires { spec.IsRow wanted.now.root.now row }
    ensures taken { OnOk result (touching wanted.now.within.now (found.new.items ++ spec.left_of_all wanted.now.text.now wanted.now.root.now rows.new.items) ≡ touching wanted.now.within.now (found.old.items ++ (spec.left_of wanted.now.text.now wanted.now.root.now row.entry ++ spec.left_of_all wanted.now.text.now wanted.now.root.now rows.old.items))) }
    ensures ready { OnOk result (spec.AreRows wanted.now.root.now rows.old.items → spec.AreRows wanted.now.root.now rows.new.items) }
    ensures fewer { OnOk result (spec.steps_all rows.new.items < spec.steps_left row.entry + spec.steps_all rows.old.items) }
{
    let Some(spot) = row.seek(wanted) else {
        return Ok(());
    };
    rows.push(row)?;
    enter(found, rows, wanted.text, spot)?;
    Ok(())
}

/// The tokens of the nodes that touch a range, and of some that don't. There are none where so many nodes stand
/// beside the way to the range that a walk through the whole tree takes less time.
///
/// It goes into the nodes that touch the range, and over the children before them of the nodes on the way: of the
/// root over those between the range and a place near it. Each node is asked for its tag, which goes through what
/// stands beside that way except its longest row.
pub fn tokens_near(alloc: Global, wanted: &Wanted<'_>) -> Result<Option<Vec<Token>>, AllocError>
    requires counted { AreCounted wanted.now.root.now }
    requires near { IsBoundary wanted.now.root.now wanted.now.near }
    ensures { IfOk result (λ found. IfSome found (λ tokens. touching wanted.now.within.now tokens.items ≡ touching wanted.now.within.now (all_tokens wanted.now.text.now wanted.now.root.now))) }
{
    let mut found = Vec::new(alloc);
    let mut rows = Vec::new(alloc);
    let mut most = wanted.root.descendants().saturating_mul(WORTH);
    let top = wanted.top();
    let mut first = go_into(&mut found, wanted.text, top)?;
    first.pass_to(wanted);
    rows.push(first)?;
    while let Some(row) = rows.pop() {
        let cost = row.way.cost();
        if most < cost {
            return Ok(None);
        }
        most -= cost;
        take_next(&mut found, &mut rows, wanted, row)?;
    }
    Ok(Some(found))
}
