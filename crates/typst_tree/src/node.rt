ghost use Rattle.std.specs.Prelude.{◌≡◌, ◌↔◌, IsTrue, [], ◌<◌, ◌≤◌, ◌^◌, length, ◌++◌, IfOk, OnOk, OnErr, None, Some, string_bytes, take, remove, true, false};
ghost use Rattle.typst_kinds.specs.Kinds.{is_error};
ghost use Rattle.typst_kinds.specs.Diagnostic.{warning_with, hint_with};
ghost use Rattle.typst_kinds.specs.Head.{has_any};
ghost use Rattle.typst_tree.specs.Tree.{forest, trees, text_of, nodes, saturated, has_diagnostics, have_diagnostics, bare, leaf_of, inner_of, error_of, synthesized, with_kind, at_child, made_error, remarked, advised};
ghost use Rattle.typst_tree.specs.Replace.{upper_of};
ghost use Rattle.typst_tree.specs.Order.{IsWhole};
ghost use Rattle.typst_tree.specs.Messages.{made_expected, made_unexpected};

use std::alloc::{AllocError, Global};
use std::marker::Model;
use typst_kinds::messages::{expected_message, is_lost_name, keyword_hint, unexpected_message};
use typst_kinds::{Diagnostic, Hint, Own, Span, SubRange, SyntaxKind, Text};

/// A node of a syntax tree: a leaf with a text, or an inner node with children.
pub struct SyntaxNode {
    pub(crate) own: Own,
    pub(crate) kids: Vec<SyntaxNode>,
}

/// Up to how many nodes a tree may have for calls to nest as its levels do. In a larger one a function that goes
/// through all nodes calls itself for the light children of a node alone, and goes on with the heaviest one in
/// the same frame of the stack. A light child has at most half of the node's nodes, so that few calls nest
/// however deep the tree is.
pub(crate) const SMALL: usize = 1024;

// In place where a list drops its nodes, so that a node without children costs no call.
impl Drop for SyntaxNode {
    #[cycle(drop)]
    #[inline(always)]
    fn drop(self) {
        if !self.kids.is_empty() {
            self.drop_parent();
            return;
        }
        let SyntaxNode { own, kids } = self;
        drop(own);
        drop(kids);
    }
}

/// Which of the trees has the most nodes, as far as that is kept.
#[inline(never)]
fn heaviest(row: &[SyntaxNode]) -> usize
    requires { 0 < length row.now }
    ensures { result < length row.now }
{
    let mut heaviest = 0;
    let mut most = 0;
    for i in 0..row.len() {
        let node = &row[i];
        let nodes = node.own.descendants();
        if nodes > most {
            most = nodes;
            heaviest = i;
        }
    }
    heaviest
}

/// A node whose copy waits for that of its child of index `last`, the heaviest.
#[derive(Drop)]
struct Ancestor<'a> {
    node: &'a SyntaxNode,
    last: usize,
}

impl Model for SyntaxNode {
    ghost use Rattle.std.specs.Prelude.{◌≡◌, length};
    ghost use Rattle.typst_kinds.specs.Head.{kept};
    ghost use Rattle.typst_tree.specs.Tree.{Tree, tree_code, forest, nodes, text_of, has_diagnostics, most_le-count};
    ghost use Rattle.typst_tree.specs.Order.{IsWhole};
    ghost use Rattle.std.proofs.Common.{arith};

    ghost Value = { Tree };

    ghost coded = { tree_code };

    ghost view = { λ a. record { head = a.own.head; kids = forest a.kids.items } };

    ghost invariant = { λ a. (a.own.len ≡ kept (length (text_of (record { head = a.own.head; kids = forest a.kids.items })))) × (a.own.descendants ≡ kept (nodes (record { head = a.own.head; kids = forest a.kids.items }))) × IsWhole (record { head = a.own.head; kids = forest a.kids.items }) × (a.own.is_marked ≡ has_diagnostics (record { head = a.own.head; kids = forest a.kids.items })) };

    ghost size = { nodes };

    ghost size_decreases = { λ a h. omega (arith, most_le-count a.kids.items) };
}

impl SyntaxNode {
    /// Drops a node that has children.
    #[cycle(drop)]
    #[inline(never)]
    fn drop_parent(mut self) {
        loop {
            let is_small = self.own.descendants() <= SMALL;
            let SyntaxNode { own, mut kids } = self;
            drop(own);
            if is_small || kids.is_empty() {
                drop(kids);
                return;
            }
            let heaviest = heaviest(&kids);
            self = kids.swap_remove(heaviest);
            drop(kids);
        }
    }

    /// A leaf of that kind, with a copy of the text.
    #[inline(always)]
    pub fn leaf(alloc: Global, kind: SyntaxKind, text: &str) -> Result<SyntaxNode, AllocError>
        requires { is_error kind ≡ false }
        ensures { IfOk result (λ t. t ≡ leaf_of kind text.now) }
    {
        Ok(SyntaxNode {
            own: Own::leaf(alloc, kind, text)?,
            kids: Vec::new(alloc),
        })
    }

    /// A leaf of that kind, with a copy of the text, which `rest` begins with.
    #[inline(always)]
    pub fn front_leaf(
        alloc: Global,
        kind: SyntaxKind,
        text: &str,
        rest: &str,
    ) -> Result<SyntaxNode, AllocError>
        requires kind { is_error kind ≡ false }
        requires front { take (length text.now) rest.now ≡ text.now }
        ensures { IfOk result (λ t. t ≡ leaf_of kind text.now) }
    {
        Ok(SyntaxNode {
            own: Own::front_leaf(alloc, kind, text, rest)?,
            kids: Vec::new(alloc),
        })
    }

    /// A node over `kids`, without a number.
    pub fn inner(kind: SyntaxKind, kids: Vec<SyntaxNode>) -> SyntaxNode
        requires { is_error kind ≡ false }
        ensures { result ≡ inner_of kind (forest kids.items) }
    {
        let mut len: usize = 0;
        let mut descendants: usize = 1;
        let mut is_marked = false;
        for kid in &kids {
            kid.leaves_are_bare();
            len = len.saturating_add(kid.len());
            descendants = descendants.saturating_add(kid.descendants());
            is_marked |= kid.has_diagnostics();
        }
        SyntaxNode {
            own: Own::inner(kind, len, descendants, is_marked),
            kids,
        }
    }

    /// An error leaf with copies of the message and the text.
    pub fn error(alloc: Global, message: &str, text: &str) -> Result<SyntaxNode, AllocError>
        ensures { IfOk result (λ t. t ≡ error_of message.now text.now) }
    {
        let said = Text::new(alloc, message)?;
        let text = Text::new(alloc, text)?;
        SyntaxNode::error_from(alloc, said, text)
    }

    /// An error leaf of a message, which is moved, and a text.
    pub fn error_saying(
        alloc: Global,
        message: String,
        text: &str,
    ) -> Result<SyntaxNode, AllocError>
        ensures { IfOk result (λ t. t ≡ error_of (string_bytes message) text.now) }
    {
        let said = Text::from_string(message);
        let text = Text::new(alloc, text)?;
        SyntaxNode::error_from(alloc, said, text)
    }

    /// An error leaf of a message and a text, which are moved.
    fn error_from(alloc: Global, message: Text, text: Text) -> Result<SyntaxNode, AllocError>
        ensures { IfOk result (λ t. t ≡ error_of message text) }
    {
        Ok(SyntaxNode {
            own: Own::error(alloc, message, text)?,
            kids: Vec::new(alloc),
        })
    }

    /// Leaves have no children.
    pub(crate) fn leaves_are_bare(&self)
        ensures { IsWhole self.now }
    {
        let _ = &self.own;
    }

    /// A copy of the node and all below it, with their spans. Nodes on the way down by the heaviest children wait
    /// in a list.
    #[cycle(clone)]
    pub fn try_clone(&self) -> Result<SyntaxNode, AllocError>
        ensures { IfOk result (λ t. t ≡ self.now) }
    {
        if self.own.descendants() <= SMALL {
            return self.clone_small();
        }
        let mut above: Vec<Ancestor<'_>> = Vec::new(*self.kids.allocator());
        let mut node = self;
        let mut last = node.last_to_go();
        while last < node.kids.len() {
            above.push(Ancestor { node, last })?;
            node = &node.kids[last];
            last = node.last_to_go();
        }
        let kids = node.clone_kids_but(last)?;
        let mut copy = node.clone_over(kids)?;
        while let Some(Ancestor { node, last }) = above.pop() {
            let mut kids = node.clone_kids_but(last)?;
            kids.insert(last, copy)?;
            copy = node.clone_over(kids)?;
        }
        Ok(copy)
    }

    /// A copy of a small tree, with a call for each child.
    fn clone_small(&self) -> Result<SyntaxNode, AllocError>
        ensures { IfOk result (λ t. t ≡ self.now) }
    {
        let alloc = *self.kids.allocator();
        let mut kids = Vec::with_capacity(alloc, self.kids.len())?;
        for kid in &self.kids {
            let kid = kid.clone_small()?;
            kids.push(kid)?;
        }
        Ok(SyntaxNode {
            own: self.own.try_clone(alloc)?,
            kids,
        })
    }

    /// Copies of the children except the one with the index `last`, if there is one.
    #[cycle(clone)]
    fn clone_kids_but(&self, last: usize) -> Result<Vec<SyntaxNode>, AllocError>
        ensures { IfOk result (λ kids. kids.items ≡ remove (trees self.now.kids) last) }
    {
        let mut kids = Vec::with_capacity(*self.kids.allocator(), self.kids.len())?;
        for i in 0..self.kids.len() {
            if i != last {
                let kid = self.kids[i].try_clone()?;
                kids.push(kid)?;
            }
        }
        Ok(kids)
    }

    /// A copy of the node over copies of its children.
    fn clone_over(&self, kids: Vec<SyntaxNode>) -> Result<SyntaxNode, AllocError>
        requires { forest kids.items ≡ self.now.kids }
        ensures { IfOk result (λ t. t ≡ self.now) }
    {
        let alloc = *self.kids.allocator();
        Ok(SyntaxNode {
            own: self.own.try_clone(alloc)?,
            kids,
        })
    }

    /// The length of the node's text in bytes, or the largest `usize` if it is longer.
    #[cycle(len)]
    #[inline(always)]
    pub fn len(&self) -> usize
        ensures { result ≡ saturated (length (text_of self.now)) }
    {
        let kept = self.own.len();
        if kept < Own::MOST {
            kept
        } else {
            self.added_len()
        }
    }

    /// The length of the text, added up from the leaves.
    #[cycle(len)]
    #[cold]
    fn added_len(&self) -> usize
        ensures { result ≡ saturated (length (text_of self.now)) }
    {
        let mut len: usize = 0;
        let mut node = self;
        loop {
            len = len.saturating_add(node.leaf_text().len());
            if node.kids.is_empty() {
                return len;
            }
            let last = heaviest(&node.kids);
            for i in 0..node.kids.len() {
                if i != last {
                    len = len.saturating_add(node.kids[i].len());
                }
            }
            node = &node.kids[last];
        }
    }

    /// How many nodes the tree has, this one counted, or the largest `usize` if they are more.
    #[cycle(descendants)]
    #[inline(always)]
    pub fn descendants(&self) -> usize
        ensures { result ≡ saturated (nodes self.now) }
    {
        let kept = self.own.descendants();
        if kept < Own::MOST {
            kept
        } else {
            self.added_descendants()
        }
    }

    /// The number of nodes, added up.
    #[cycle(descendants)]
    #[cold]
    fn added_descendants(&self) -> usize
        ensures { result ≡ saturated (nodes self.now) }
    {
        let mut descendants: usize = 0;
        let mut node = self;
        loop {
            descendants = descendants.saturating_add(1);
            if node.kids.is_empty() {
                return descendants;
            }
            let last = heaviest(&node.kids);
            for i in 0..node.kids.len() {
                if i != last {
                    descendants = descendants.saturating_add(node.kids[i].descendants());
                }
            }
            node = &node.kids[last];
        }
    }

    /// The node's kind.
    pub fn kind(&self) -> SyntaxKind
        ensures { result ≡ self.now.head.kind }
    {
        self.own.kind()
    }

    /// The children, none for a leaf.
    pub fn children(&self) -> &[SyntaxNode]
        ensures { forest result.now ≡ self.now.kids }
    {
        self.kids.as_slice()
    }

    /// Whether the node's text is empty.
    pub fn is_empty(&self) -> bool
        ensures { IsTrue result ↔ (text_of self.now ≡ []) }
    {
        self.own.len() == 0
    }

    /// Whether it is an inner node.
    pub fn is_inner(&self) -> bool
        ensures { result ≡ self.now.head.is_inner }
    {
        self.own.is_inner()
    }

    /// The text of a leaf, empty for an inner node.
    pub fn leaf_text(&self) -> &str
        ensures { result.now ≡ self.now.head.text }
    {
        self.own.text()
    }

    /// The node's file and number, or the detached span.
    pub fn span(&self) -> Span
        ensures { result ≡ self.now.head.span }
    {
        self.own.span()
    }

    /// The first number past those of the tree.
    pub(crate) fn upper(&self) -> u64
        ensures value { result ≡ upper_of self.now }
        ensures small { result ≤ 2 ^ 47 }
    {
        if self.is_inner() {
            self.own.upper()
        } else {
            self.own.number() + 1
        }
    }

    /// The errors and warnings about this node itself, in the order in which they were given.
    pub fn diagnostics(&self) -> &[Diagnostic]
        ensures { result.now ≡ self.now.head.diagnostics }
    {
        self.own.diagnostics()
    }

    /// Whether the node itself has an error or a warning.
    pub(crate) fn is_diagnosed(&self) -> bool
        ensures { result ≡ has_any self.now.head.diagnostics }
    {
        !self.diagnostics().is_empty()
    }

    /// Whether the node or a node below it has an error or a warning. Each node keeps the answer, so that it takes a
    /// constant time.
    #[inline(always)]
    pub fn has_diagnostics(&self) -> bool
        ensures { result ≡ has_diagnostics self.now }
    {
        self.own.is_marked()
    }

    /// Whether the text is as long as that of another node, and the nodes are as many, by the counts
    /// that both keep: if they aren't, nothing else needs a look.
    #[inline]
    fn is_as_large(&self, other: &SyntaxNode) -> bool
        ensures { bare self.now ≡ bare other.now → result ≡ true }
    {
        self.own.len() == other.own.len() && self.own.descendants() == other.own.descendants()
    }

    /// Whether kinds, texts, children and diagnostics are the same, whatever the spans.
    pub fn spanless_eq(&self, other: &SyntaxNode) -> bool
        ensures { IsTrue result ↔ (bare self.now ≡ bare other.now) }
    {
        let (mut left, mut right) = (self, other);
        loop {
            if !left.is_as_large(right) {
                return false;
            }
            if !left.own.same_bare(&right.own) {
                return false;
            }
            if left.kids.len() != right.kids.len() {
                return false;
            }
            let last = left.last_to_go();
            for i in 0..left.kids.len() {
                if i != last && !left.kids[i].spanless_eq(&right.kids[i]) {
                    return false;
                }
            }
            if last >= left.kids.len() {
                return true;
            }
            left = &left.kids[last];
            right = &right.kids[last];
        }
    }

    /// The index of the child that is left to the end: the heaviest one. No call nests for it, as a loop goes on
    /// with it, or a call in the last place, which compilers make a jump. In a small tree none is left, and the
    /// index is the number of the children.
    #[inline]
    pub(crate) fn last_to_go(&self) -> usize {
        if self.own.descendants() <= SMALL || self.kids.is_empty() {
            self.kids.len()
        } else {
            heaviest(&self.kids)
        }
    }
}

// What changes a node.
impl SyntaxNode {
    /// Gives every node of the tree this span.
    pub fn synthesize(&mut self, span: Span)
        ensures { self.new ≡ synthesized span self.old }
    {
        self.synthesize_as(&span);
    }

    fn synthesize_as(&mut self, span: &Span)
        ensures { self.new ≡ synthesized span.now self.old }
    {
        let last = self.last_to_go();
        self.own.set_span(*span);
        for i in 0..self.kids.len() {
            if i != last {
                let kid = &mut self.kids[i];
                kid.synthesize_as(span);
            }
        }
        if last < self.kids.len() {
            let kid = &mut self.kids[last];
            kid.synthesize_as(span);
        }
    }

    /// Changes the kind alone. An error stays as it is.
    pub fn convert_to_kind(&mut self, kind: SyntaxKind)
        requires { is_error kind ≡ false }
        ensures { self.new ≡ with_kind kind self.old }
    {
        if !self.kind().is_error() {
            self.own.set_kind(kind);
        }
    }

    /// Changes the kind of child `i` alone, if there is one. An error stays as it is.
    pub fn convert_child_to_kind(&mut self, i: usize, kind: SyntaxKind)
        requires { is_error kind ≡ false }
        ensures { self.new ≡ at_child (with_kind kind) i self.old }
    {
        if i >= self.kids.len() {
            return;
        }
        let kid = &mut self.kids[i];
        kid.convert_to_kind(kind);
    }

    /// Adds the texts of the leaves to `out`. Texts come in order, so that no child can be left to the end: the
    /// rows of nodes that are still to come wait in a list, the next one last.
    fn write_text(&self, out: &mut Text) -> Result<(), AllocError>
        ensures { OnOk result (out.new ≡ out.old ++ text_of self.now) }
    {
        out.push(self.leaf_text())?;
        if self.kids.is_empty() {
            return Ok(());
        }
        let mut waiting: Vec<&[SyntaxNode]> = Vec::new(*self.kids.allocator());
        waiting.push(self.children())?;
        while let Some(row) = waiting.pop() {
            if let Some((node, behind)) = row.split_first() {
                out.push(node.leaf_text())?;
                waiting.push(behind)?;
                waiting.push(node.children())?;
            }
        }
        Ok(())
    }

    /// The texts of the leaves, joined.
    fn full_text(&self) -> Result<Text, AllocError>
        ensures { IfOk result (λ text. text ≡ text_of self.now) }
    {
        let mut text = Text::empty(*self.kids.allocator());
        self.write_text(&mut text)?;
        Ok(text)
    }

    /// Makes the node a detached error leaf of its text. An error stays as it is.
    pub fn convert_to_error(&mut self, message: &str) -> Result<(), AllocError>
        ensures ok { OnOk result (self.new ≡ made_error message.now self.old) }
        ensures err { OnErr result (self.new ≡ self.old) }
    {
        if self.kind().is_error() {
            return Ok(());
        }
        let said = Text::new(*self.kids.allocator(), message)?;
        self.become_error(said)?;
        Ok(())
    }

    /// Makes the node a detached error leaf of its text, with a message that is moved.
    fn become_error(&mut self, message: Text) -> Result<(), AllocError>
        ensures ok { OnOk result (self.new ≡ error_of message (text_of self.old)) }
        ensures err { OnErr result (self.new ≡ self.old) }
    {
        let alloc = *self.kids.allocator();
        let text = self.full_text()?;
        *self = SyntaxNode::error_from(alloc, message, text)?;
        Ok(())
    }

    /// Makes the node an error that says that `thing` was expected. An error stays as it is.
    pub fn expected(&mut self, thing: &str) -> Result<(), AllocError>
        ensures ok { OnOk result (self.new ≡ made_expected thing.now self.old) }
        ensures err { OnErr result (self.new ≡ self.old) }
    {
        let kind = self.kind();
        if kind.is_error() {
            return Ok(());
        }
        let alloc = *self.kids.allocator();
        let message = expected_message(alloc, thing, kind.name())?;
        if !is_lost_name(kind, thing) {
            self.become_error(message)?;
            return Ok(());
        }
        let text = self.full_text()?;
        let hint = keyword_hint(alloc, text.as_str())?;
        let mut error = SyntaxNode::error_from(alloc, message, text)?;
        error.advise(None, hint)?;
        *self = error;
        Ok(())
    }

    /// Makes the node an error that says that its kind was unexpected. An error stays as it is.
    pub fn unexpected(&mut self) -> Result<(), AllocError>
        ensures ok { OnOk result (self.new ≡ made_unexpected self.old) }
        ensures err { OnErr result (self.new ≡ self.old) }
    {
        let kind = self.kind();
        if kind.is_error() {
            return Ok(());
        }
        let message = unexpected_message(*self.kids.allocator(), kind.name())?;
        self.become_error(message)?;
        Ok(())
    }

    /// Adds a warning about the node.
    pub fn warn(&mut self, message: &str) -> Result<(), AllocError>
        ensures ok { OnOk result (self.new ≡ remarked (warning_with None message.now) self.old) }
        ensures err { OnErr result (self.new ≡ self.old) }
    {
        let message = Text::new(*self.kids.allocator(), message)?;
        self.add_warning(None, message)?;
        Ok(())
    }

    /// Adds a warning about some of the node's bytes.
    pub fn warn_at(&mut self, sub_range: SubRange, message: &str) -> Result<(), AllocError>
        ensures ok { OnOk result (self.new ≡ remarked (warning_with (Some sub_range) message.now) self.old) }
        ensures err { OnErr result (self.new ≡ self.old) }
    {
        let message = Text::new(*self.kids.allocator(), message)?;
        self.add_warning(Some(sub_range), message)?;
        Ok(())
    }

    /// Adds a hint to the node's last error or warning. Without one nothing happens.
    pub fn hint(&mut self, message: &str) -> Result<(), AllocError>
        ensures ok { OnOk result (self.new ≡ advised (hint_with None message.now) self.old) }
        ensures err { OnErr result (self.new ≡ self.old) }
    {
        let message = Text::new(*self.kids.allocator(), message)?;
        self.advise(None, message)?;
        Ok(())
    }

    /// Adds a hint about some of the node's bytes to its last error or warning. Without one
    /// nothing happens.
    pub fn hint_at(&mut self, sub_range: SubRange, message: &str) -> Result<(), AllocError>
        ensures ok { OnOk result (self.new ≡ advised (hint_with (Some sub_range) message.now) self.old) }
        ensures err { OnErr result (self.new ≡ self.old) }
    {
        let message = Text::new(*self.kids.allocator(), message)?;
        self.advise(Some(sub_range), message)?;
        Ok(())
    }

    /// Adds a warning, whose message is moved.
    fn add_warning(&mut self, sub_range: Option<SubRange>, message: Text) -> Result<(), AllocError>
        ensures ok { OnOk result (self.new ≡ remarked (warning_with sub_range message) self.old) }
        ensures err { OnErr result (self.new ≡ self.old) }
    {
        let alloc = *self.kids.allocator();
        let warning = Diagnostic::warning(alloc, sub_range, message);
        self.own.push_diagnostic(alloc, warning)?;
        Ok(())
    }

    /// Adds a hint, whose message is moved.
    fn advise(&mut self, sub_range: Option<SubRange>, message: Text) -> Result<(), AllocError>
        ensures ok { OnOk result (self.new ≡ advised (hint_with sub_range message) self.old) }
        ensures err { OnErr result (self.new ≡ self.old) }
    {
        self.own.push_hint(Hint::new(sub_range, message))?;
        Ok(())
    }
}
