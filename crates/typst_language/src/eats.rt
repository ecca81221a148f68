//! What takes the current token, and what is said of it.

ghost use Rattle.std.specs.Prelude.{Bool, ◌≡◌, [], ◌∷◌, codes, OnOk, IfOk, true, false};
ghost use Rattle.typst_kinds.specs.Kinds.{is_error, same};
ghost use Rattle.typst_kinds.specs.declared.kind.SyntaxKind.{SyntaxKind as Kind};
ghost use Rattle.typst_lines.specs.Place.{moved};
ghost use Rattle.typst_lines.specs.Classes.{CharClasses};
ghost use Rattle.typst_lexer.specs.Nodes.{is_leaf, token_node};
ghost use Rattle.typst_language.specs.Hand.{text_ahead};
ghost use Rattle.typst_language.specs.Shape.{Making};
ghost use Rattle.typst_language.specs.Shape.Making.{itself, surprise, wanted};
ghost use Rattle.typst_language.specs.Meaning.{Level, taken_node};
ghost use Rattle.typst_language.specs.Steps as spec;
ghost use Rattle.typst_language.specs.Syntax.Op.{advises, further, takes};
ghost use Rattle.typst_language.specs.Syntax.Parser.{does};
ghost use Rattle.typst_language.specs.Expected as expected;
ghost use Rattle.typst_language.specs.View.{Bare, Fills, Fits, Flushed, GoesIf, Means, MeansLast, Reads};

use crate::depth::Levels;
use crate::hint_last;
use crate::nodes::{give, is_none, push_all, trim};
use crate::parser::Parser;
use std::alloc::AllocError;
use typst_kinds::SyntaxKind;
use typst_lexer::lexer::token;
use typst_lexer::{is_leaf, leaf_node, make_node};
use typst_lines::Classes;
use typst_tree::SyntaxNode;

impl<'s> Parser<'s> {
    /// Whether the node of the current token is a leaf of its kind.
    #[inline(always)]
    fn has_leaf(&self) -> bool
        ensures { result ≡ is_leaf self.now.hand.token }
    {
        is_leaf(self.ahead.token)
    }

    /// The leaf that the node of the current token is.
    #[inline(always)]
    fn leaf(&self) -> Result<SyntaxNode, AllocError>
        requires { is_leaf self.now.hand.token ≡ true }
        ensures { (k : CharClasses) → IfOk result (λ t. t ≡ token_node k self.now.hand.token (text_ahead self.now.hand.len (moved self.now.hand.gap self.now.place))) }
    {
        leaf_node(
            self.alloc,
            self.ahead.token,
            self.ahead.after.since(&self.ahead.start),
            self.ahead.start.after(),
        )
    }

    /// The node of the current token.
    fn node<C: Classes>(&self, classes: &C) -> Result<SyntaxNode, AllocError>
        ensures { (k : CharClasses) → k ≡ C.classes classes.now → IfOk result (λ t. t ≡ token_node k self.now.hand.token (text_ahead self.now.hand.len (moved self.now.hand.gap self.now.place))) }
    {
        make_node(
            self.alloc,
            self.ahead.token,
            self.ahead.after.since(&self.ahead.start),
            classes,
        )
    }

    /// Takes the current token as this node, in place of the empty errors before it if `trims` says so. What comes
    /// after it isn't asked for.
    #[inline(always)]
    fn take(&mut self, trims: bool, node: SyntaxNode) -> Result<(), AllocError>
        ensures { (l : Level) (making : Making) → node ≡ taken_node l.classes making self.old.hand self.old.place → GoesIf l (Fits l) (Bare l) (does (takes trims making)) self.old result self.new }
    {
        let count = if trims { self.state.empties } else { 0 };
        self.state.empties = 0;
        trim(&mut self.nodes, count);
        push_all(&mut self.nodes, &mut self.trivia)?;
        give(&mut self.nodes, &mut self.state, node)?;
        self.state.held = self.state.reading;
        self.ahead.pass();
        Ok(())
    }

    /// Takes the current token as this node, in place of the empty errors before it if `trims` says so, and asks
    /// for the one after it.
    #[inline(always)]
    fn take_on<C: Classes>(
        &mut self,
        trims: bool,
        node: SyntaxNode,
        classes: &C,
    ) -> Result<(), AllocError>
        ensures { (l : Level) (making : Making) → l.classes ≡ C.classes classes.now → node ≡ taken_node l.classes making self.old.hand self.old.place → Reads l (spec.eat_making trims making) self.old result self.new }
    {
        self.take(trims, node)?;
        self.read(classes)?;
        Ok(())
    }

    /// Takes the current token as this node, as `take_on` does, apart from the common way.
    #[inline(never)]
    fn take_apart<C: Classes>(
        &mut self,
        trims: bool,
        node: SyntaxNode,
        classes: &C,
    ) -> Result<(), AllocError>
        ensures { (l : Level) (making : Making) → l.classes ≡ C.classes classes.now → node ≡ taken_node l.classes making self.old.hand self.old.place → Reads l (spec.eat_making trims making) self.old result self.new }
    {
        self.take_on(trims, node, classes)?;
        Ok(())
    }

    /// Takes the current token. What comes after it isn't asked for.
    pub fn pass<L: Levels>(&mut self, g: &L) -> Result<(), AllocError>
        ensures { (l : Level) → Fills l (L.frame g.now) → GoesIf l (Fits l) (Bare l) (does (takes false itself)) self.old result self.new }
    {
        let node = if self.has_leaf() {
            self.leaf()?
        } else {
            self.node(g)?
        };
        self.take(false, node)?;
        Ok(())
    }

    /// Takes the current token, and asks for the one after it.
    #[inline(never)]
    pub fn eat<L: Levels>(&mut self, g: &L) -> Result<(), AllocError>
        ensures { Means (L.frame g.now) spec.eat self.old result self.new }
    {
        if self.has_leaf() {
            let leaf = self.leaf()?;
            self.take_on(false, leaf, g)?;
            return Ok(());
        }
        let node = self.node(g)?;
        self.take_apart(false, node, g)?;
        Ok(())
    }

    /// Takes the current token as another kind.
    #[inline(never)]
    pub fn convert_and_eat<L: Levels>(&mut self, kind: SyntaxKind, g: &L) -> Result<(), AllocError>
        requires { is_error kind ≡ false }
        ensures { Means (L.frame g.now) (spec.convert_and_eat kind) self.old result self.new }
    {
        if self.has_leaf() {
            let mut leaf = self.leaf()?;
            leaf.convert_to_kind(kind);
            self.take_on(false, leaf, g)?;
            return Ok(());
        }
        let mut node = self.node(g)?;
        node.convert_to_kind(kind);
        self.take_apart(false, node, g)?;
        Ok(())
    }

    /// Takes the current token if `is` says so, and answers whether it did.
    pub fn eat_if<L: Levels>(&mut self, is: bool, g: &L) -> Result<bool, AllocError>
        ensures { (kinds : Kind → Bool) → is ≡ kinds self.old.hand.kind → Means (L.frame g.now) (spec.eat_if kinds) self.old result self.new }
    {
        if is {
            self.eat(g)?;
        }
        Ok(is)
    }

    /// Takes the current token if `is` says so, and answers whether it did. What comes after it isn't asked for.
    pub fn close_if<L: Levels>(&mut self, is: bool, g: &L) -> Result<bool, AllocError>
        ensures { (kinds : Kind → Bool) → is ≡ kinds self.old.hand.kind → MeansLast (L.frame g.now) (spec.close_if kinds) self.old result self.new }
    {
        if is {
            self.pass(g)?;
        }
        Ok(is)
    }

    /// Takes the current token as an error that it was not expected, in place of the empty errors before it.
    #[cold]
    pub fn unexpected<L: Levels>(&mut self, g: &L) -> Result<(), AllocError>
        ensures { Means (L.frame g.now) (spec.unexpected []) self.old result self.new }
    {
        let mut node = self.node(g)?;
        node.unexpected()?;
        self.take_apart(true, node, g)?;
        Ok(())
    }

    /// Takes the current token as an error that it was not expected, with a hint, in place of the empty errors
    /// before it.
    pub fn unexpected_with_hint<L: Levels>(&mut self, hint: &str, g: &L) -> Result<(), AllocError>
        ensures { Means (L.frame g.now) (spec.unexpected (hint.now ∷ [])) self.old result self.new }
    {
        self.eat_surprise(true, hint, g)?;
        Ok(())
    }

    /// Takes the current token as an error that it was not expected, with a hint. The empty errors before it stay.
    pub fn eat_unexpected<L: Levels>(&mut self, hint: &str, g: &L) -> Result<(), AllocError>
        ensures { Means (L.frame g.now) (spec.eat_making false (surprise (hint.now ∷ []))) self.old result self.new }
    {
        self.eat_surprise(false, hint, g)?;
        Ok(())
    }

    #[cold]
    fn eat_surprise<L: Levels>(&mut self, trims: bool, hint: &str, g: &L) -> Result<(), AllocError>
        ensures { Means (L.frame g.now) (spec.eat_making trims (surprise (hint.now ∷ []))) self.old result self.new }
    {
        let mut node = self.node(g)?;
        node.unexpected()?;
        node.hint(hint)?;
        self.take_apart(trims, node, g)?;
        Ok(())
    }

    /// Says that something was expected here, unless the node before is an error. An erroneous token is taken
    /// instead.
    pub fn expected<L: Levels>(&mut self, thing: &str, g: &L) -> Result<(), AllocError>
        ensures { Means (L.frame g.now) (spec.expected thing.now) self.old result self.new }
    {
        if self.ahead.kind.is_error() {
            let node = self.node(g)?;
            self.take_apart(true, node, g)?;
            return Ok(());
        }
        if self.state.is_after_error {
            return Ok(());
        }
        let mut message = String::from_str(self.alloc, "expected ")?;
        message.push_str(thing)?;
        let node = SyntaxNode::error_saying(self.alloc, message, "")?;
        self.nodes.push(node)?;
        self.state.empties += 1;
        self.state.is_after_error = true;
        Ok(())
    }

    /// Takes the current token if `is` says so, or says that `thing` was expected.
    pub fn expect<L: Levels>(&mut self, is: bool, thing: &str, g: &L) -> Result<(), AllocError>
        ensures { (kinds : Kind → Bool) → is ≡ kinds self.old.hand.kind → Means (L.frame g.now) (spec.expect kinds thing.now) self.old result self.new }
    {
        if is {
            self.eat(g)?;
        } else {
            self.expected(thing, g)?;
        }
        Ok(())
    }

    /// Takes the current token as an error that something else was expected there; `trims` says whether it
    /// takes the empty errors before it back.
    #[cold]
    pub fn eat_wanted<L: Levels>(
        &mut self,
        trims: bool,
        thing: &str,
        g: &L,
    ) -> Result<(), AllocError>
        ensures { Means (L.frame g.now) (spec.eat_making trims (wanted thing.now)) self.old result self.new }
    {
        let mut node = self.node(g)?;
        node.expected(thing)?;
        self.take_apart(trims, node, g)?;
        Ok(())
    }

    /// Takes the current token if `is` says so, or says that `thing` was expected; answers whether it took it.
    pub fn expects<L: Levels>(&mut self, is: bool, thing: &str, g: &L) -> Result<bool, AllocError>
        ensures { (kinds : Kind → Bool) → is ≡ kinds self.old.hand.kind → Means (L.frame g.now) (expected.expects kinds thing.now) self.old result self.new }
    {
        self.expect(is, thing, g)?;
        Ok(is)
    }

    /// Takes an identifier, or says that it was expected; answers whether it took it. A keyword is
    /// taken as the error that an identifier was expected there.
    pub fn expect_identifier<L: Levels>(&mut self, g: &L) -> Result<bool, AllocError>
        ensures { Means (L.frame g.now) expected.expect_identifier self.old result self.new }
    {
        if self.ahead.kind.is_keyword() {
            self.eat_wanted(true, "identifier", g)?;
            return Ok(false);
        }
        let is = self.ahead.kind == SyntaxKind::Ident;
        Ok(self.expects(is, "identifier", g)?)
    }

    /// Adds a hint to the node before the pending trivia, if that is an error.
    #[cold]
    pub fn hint(&mut self, hint: &str) -> Result<(), AllocError>
        ensures { (l : Level) → Reads l (does (advises hint.now)) self.old result self.new }
    {
        hint_last(&mut self.nodes, hint)?;
        Ok(())
    }

    /// The kind of the token directly after the current token.
    pub fn further<L: Levels>(&mut self, g: &L) -> Result<SyntaxKind, AllocError>
        ensures { Means (L.frame g.now) (does further) self.old result self.new }
    {
        let mode = self.state.reading.mode;
        let next = token(self.alloc, self.ahead.after, &mut self.ahead.line, mode, g)?;
        self.log.look(next.hull);
        Ok(next.token.kind)
    }

    /// Makes nodes of the pending trivia. The newlines in them stay known.
    pub fn flush_trivia(&mut self) -> Result<(), AllocError>
        ensures { (l : Level) → Reads l spec.flush_trivia self.old result self.new }
    {
        self.flush()?;
        Ok(())
    }

    /// Makes nodes of the pending trivia. The newlines in them stay known.
    pub(crate) fn flush(&mut self) -> Result<(), AllocError>
        ensures { (l : Level) → OnOk result (Fits l self.old → Flushed self.old self.new) }
    {
        self.ahead.before = self.ahead.start;
        if is_none(self.trivia.as_slice()) {
            return Ok(());
        }
        self.state.empties = 0;
        self.state.is_after_error = false;
        push_all(&mut self.nodes, &mut self.trivia)?;
        Ok(())
    }
}
