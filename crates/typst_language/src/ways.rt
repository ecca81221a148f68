//! The current token, read from its start in another way.

ghost use Rattle.std.specs.Prelude.{◌≡◌, IfOk, OnOk};
ghost use Rattle.typst_lines.specs.Scanner.{place};
ghost use Rattle.typst_tokens.specs.Reads.{Scans};
ghost use Rattle.typst_tokens.specs.Sight.{text_of};
ghost use Rattle.typst_language.specs.Calls.{token_so};
ghost use Rattle.typst_language.specs.Shape.Making.{itself, wanted};
ghost use Rattle.typst_language.specs.Steps as spec;
ghost use Rattle.typst_language.specs.Syntax.Op.{so};
ghost use Rattle.typst_language.specs.Syntax.Parser.{does};
ghost use Rattle.typst_language.specs.View.{Means};
ghost use Rattle.typst_language.specs.Ways.{GaveUpTo};

use crate::Way;
use crate::depth::Levels;
use crate::nodes::{give, push_all};
use crate::parser::Parser;
use std::alloc::{AllocError, Global};
use typst_kinds::SyntaxKind;
use typst_lexer::lexer::{named_argument, spread_argument, token};
use typst_lexer::{Read, make_node};
use typst_lines::{Classes, Scanner};
use typst_tokens::LineEnd;
use typst_tree::SyntaxNode;

impl<'s> Parser<'s> {
    /// Which kind the current token has if it is read from its start in another way.
    pub fn kind_so<L: Levels>(&mut self, way: Way, g: &L) -> Result<SyntaxKind, AllocError>
        ensures { Means (L.frame g.now) (does (so way)) self.old result self.new }
    {
        let found = read_so(self.alloc, self.ahead.start, &mut self.ahead.line, way, g)?;
        self.log.look(found.hull);
        Ok(found.token.kind)
    }

    /// Takes the token that is found in another way.
    pub fn eat_so<L: Levels>(&mut self, way: Way, g: &L) -> Result<(), AllocError>
        ensures { Means (L.frame g.now) (spec.eat_so way itself) self.old result self.new }
    {
        let found = read_so(self.alloc, self.ahead.start, &mut self.ahead.line, way, g)?;
        self.log.look(found.hull);
        let text = found.after.since(&self.ahead.start);
        let node = make_node(self.alloc, found.token, text, g)?;
        self.take_so(found.after, node)?;
        self.read(g)?;
        Ok(())
    }

    /// Takes the token that is found in another way, as an error that something else was expected there.
    #[cold]
    pub fn eat_wanted_so<L: Levels>(
        &mut self,
        way: Way,
        thing: &str,
        g: &L,
    ) -> Result<(), AllocError>
        ensures { Means (L.frame g.now) (spec.eat_so way (wanted thing.now)) self.old result self.new }
    {
        let found = read_so(self.alloc, self.ahead.start, &mut self.ahead.line, way, g)?;
        self.log.look(found.hull);
        let text = found.after.since(&self.ahead.start);
        let mut node = make_node(self.alloc, found.token, text, g)?;
        node.expected(thing)?;
        self.take_so(found.after, node)?;
        self.read(g)?;
        Ok(())
    }

    /// Takes what goes from the start of the current token up to a place as this node.
    fn take_so(&mut self, after: Scanner<'s>, node: SyntaxNode) -> Result<(), AllocError>
        requires { after.text.now ≡ text_of self.old.place }
        ensures { OnOk result (GaveUpTo (place after.entry) node self.old self.new) }
    {
        self.state.empties = 0;
        push_all(&mut self.nodes, &mut self.trivia)?;
        give(&mut self.nodes, &mut self.state, node)?;
        self.state.held = self.state.reading;
        self.ahead.after = after;
        self.ahead.pass();
        Ok(())
    }
}

/// Reads one token in another way.
fn read_so<'s, C: Classes>(
    alloc: Global,
    start: Scanner<'s>,
    line: &mut LineEnd<'s>,
    way: Way,
    classes: &C,
) -> Result<Read<'s>, AllocError>
    requires { line.old.text.now ≡ start.text.now }
    ensures scans { IfOk result (λ r. Scans (token_so (C.classes classes.now) way) start.entry r.token r.hull r.after) }
    ensures line_text { line.new.text.now ≡ line.old.text.now }
{
    match way {
        Way::InMode(mode) => {
            let found = token(alloc, start, line, mode, classes)?;
            Ok(found)
        }
        Way::NamedArgument => Ok(named_argument(start, classes)),
        Way::SpreadArgument => Ok(spread_argument(start)),
    }
}
