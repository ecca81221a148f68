//! Typing: each keystroke is one edit, and then positions are asked for what is shown.

use crate::digest::Outcome;
use crate::document::{Shape, document};
use crate::random::Random;
use std::alloc::Global;
use typst_parser::{LinkedNode, Source, SourceError, SyntaxKind, UnicodeClasses, parse};

/// What is typed letter by letter, of which the last letters are taken out again.
const WORDS: &[&str] = &[
    "revised",
    "chapter",
    "therefore",
    "two words",
    "sum",
    "x",
    "note",
    "Another",
    "item",
];

/// What is typed letter by letter and opens and closes something, each in its turn.
static MARKED: [&str; 9] = [
    "$a+b$", "*bold*", "_so_", "`raw`", "#f(x)", "[in]", "\"said\"", "// so", "= ",
];

/// How many keystrokes lie between two words that open and close something.
const BETWEEN_MARKED: usize = 300;

/// Types into documents of 20, 100 and 300 kilobytes.
pub fn typing(
    alloc: Global,
    random: &mut Random,
    round: usize,
    outcome: &mut Outcome,
) -> anyhow::Result<()> {
    for bytes in [20_000, 100_000, 300_000] {
        let task = Task {
            shape: Shape::Document,
            bytes,
            keystrokes: 1500,
            turn: round.wrapping_mul(5),
        };
        type_into(alloc, random, task, outcome)?;
    }
    Ok(())
}

/// Types into documents and packages that are one block as a whole, of 20 and 60 kilobytes.
pub fn blocks(
    alloc: Global,
    random: &mut Random,
    round: usize,
    outcome: &mut Outcome,
) -> anyhow::Result<()> {
    let mut turn = round.wrapping_mul(4);
    for bytes in [20_000, 60_000] {
        for shape in [Shape::OneBlock, Shape::OnePackage] {
            let task = Task {
                shape,
                bytes,
                keystrokes: 200,
                turn,
            };
            type_into(alloc, random, task, outcome)?;
            turn = turn.wrapping_add(1);
        }
    }
    Ok(())
}

/// A text into which one types, and how much.
#[derive(Clone, Copy)]
struct Task {
    shape: Shape,
    bytes: usize,
    keystrokes: usize,
    /// Which of the words that open and close something is the first.
    turn: usize,
}

/// Makes a source of a text, does so many keystrokes, and holds the tree against the one that is newly
/// parsed.
fn type_into(
    alloc: Global,
    random: &mut Random,
    task: Task,
    outcome: &mut Outcome,
) -> anyhow::Result<()> {
    let source = source(alloc, random, task.shape, task.bytes)?;
    let mut desk = Desk::new(source, task.keystrokes, task.turn);
    for _ in 0..task.keystrokes {
        if desk.left == 0 {
            break;
        }
        desk.session(random, outcome)?;
    }
    desk.hold(alloc, outcome)
}

/// A source of a text of a shape, of about a given number of bytes.
pub fn source(
    alloc: Global,
    random: &mut Random,
    shape: Shape,
    bytes: usize,
) -> anyhow::Result<Source<UnicodeClasses>> {
    let text = document(alloc, random, shape, bytes)?;
    Source::detached(alloc, text, UnicodeClasses).map_err(as_anyhow)
}

/// Holds a source's tree, which `what` names, against the one that is newly parsed.
pub fn hold_tree(
    alloc: Global,
    source: &Source<UnicodeClasses>,
    what: &'static str,
    outcome: &mut Outcome,
) -> anyhow::Result<()> {
    let fresh = parse(alloc, source.text(), &UnicodeClasses)?;
    outcome.hold(what, fresh.spanless_eq(source.root()));
    Ok(())
}

/// A source into which one types.
#[derive(Drop)]
pub struct Desk {
    source: Source<UnicodeClasses>,
    /// How many keystrokes are left.
    left: usize,
    /// How many keystrokes come before the next word that opens and closes something.
    until_marked: usize,
    /// Which word that is.
    turn: usize,
}

impl Desk {
    /// A source into which nothing was typed yet, how many keystrokes are to come, and which of the words
    /// that open and close something is the first.
    pub fn new(source: Source<UnicodeClasses>, left: usize, turn: usize) -> Desk {
        Desk {
            source,
            left,
            until_marked: BETWEEN_MARKED / 2,
            turn,
        }
    }

    /// Types a word somewhere, or what opens and closes something, which is taken out again as a whole. In plain
    /// text a word's last letters are taken out again, and elsewhere all of it, so that the text stays
    /// well-formed.
    fn session(&mut self, random: &mut Random, outcome: &mut Outcome) -> anyhow::Result<()> {
        let start = self.place(random);
        if self.until_marked == 0 {
            let word = MARKED[self.turn % MARKED.len()];
            self.until_marked = BETWEEN_MARKED;
            self.turn = self.turn.wrapping_add(1);
            let end = self.type_letters(start, word, outcome)?;
            self.keystroke(start, end, "", outcome)?;
            return Ok(());
        }
        let is_plain = match self.leaf_before(start) {
            None => false,
            Some(leaf) => leaf.kind() == SyntaxKind::Text,
        };
        let word = random.pick(WORDS);
        let end = self.type_letters(start, word, outcome)?;
        let letters = if is_plain {
            random.below(word.len())
        } else {
            word.len()
        };
        self.take_out(end, letters, outcome)?;
        Ok(())
    }

    /// Types a word letter by letter, and gives where it ends.
    pub fn type_letters(
        &mut self,
        start: usize,
        word: &str,
        outcome: &mut Outcome,
    ) -> anyhow::Result<usize> {
        let mut at = start;
        for letter in word.split("") {
            at = self.keystroke(at, at, letter, outcome)?;
        }
        Ok(at)
    }

    /// Takes out so many letters of one byte before a place, one by one, and gives where that leads.
    pub fn take_out(
        &mut self,
        end: usize,
        letters: usize,
        outcome: &mut Outcome,
    ) -> anyhow::Result<usize> {
        let mut at = end;
        for _ in 0..letters {
            at = self.keystroke(at.saturating_sub(1), at, "", outcome)?;
        }
        Ok(at)
    }

    /// Holds the tree against the one that is newly parsed, and digests both text and tree.
    pub fn hold(&self, alloc: Global, outcome: &mut Outcome) -> anyhow::Result<()> {
        outcome.digest.add_text(self.source.text());
        outcome.digest.add_tree(self.source.root());
        hold_tree(alloc, &self.source, "a tree after edits", outcome)
    }

    /// Where one types: at the front, at the end, before a formula's closing dollar sign, or anywhere.
    fn place(&self, random: &mut Random) -> usize {
        let text = self.source.text();
        let place = match random.below(8) {
            0 => random.below(200),
            1 => text.len().saturating_sub(random.below(200)),
            _ => random.below(text.len()),
        };
        let place = boundary(text, place);
        if !random.one_in(8) {
            return place;
        }
        match text.get(place..) {
            None => place,
            Some(after) => match after.find(" $\n") {
                None => place,
                Some(dollar) => place.saturating_add(dollar),
            },
        }
    }

    /// Puts a text in the place of a range, asks for positions, and gives where the text ends.
    fn keystroke(
        &mut self,
        start: usize,
        end: usize,
        with: &str,
        outcome: &mut Outcome,
    ) -> anyhow::Result<usize> {
        let text = self.source.text();
        if start > end
            || start == end && with.is_empty()
            || !text.is_char_boundary(start)
            || !text.is_char_boundary(end)
        {
            return Ok(start);
        }
        self.left = self.left.saturating_sub(1);
        self.until_marked = self.until_marked.saturating_sub(1);
        self.source.edit(start..end, with).map_err(as_anyhow)?;
        let at = start.saturating_add(with.len());
        self.ask(at, outcome);
        Ok(at)
    }

    /// Asks what an editor asks after a keystroke: the cursor's line, column and UTF-16 offset and the
    /// ways back, the leaf at the cursor, the bytes of its span, and the node of that.
    fn ask(&self, at: usize, outcome: &mut Outcome) {
        let (digest, lines) = (&mut outcome.digest, self.source.lines());
        let position = lines.byte_to_line_column(at);
        digest.add_line_column(position);
        if let Some((line, column)) = position {
            digest.add_place(lines.line_column_to_byte(line, column));
        }
        if let Some(units) = lines.byte_to_utf16(at) {
            digest.add_size(units);
            digest.add_place(lines.utf16_to_byte(units));
        }
        let Some(leaf) = self.leaf_before(at) else {
            return;
        };
        let Some(number) = leaf.get().span().number() else {
            return;
        };
        if let Some(range) = self.source.range(number, None) {
            digest.add_size(range.start);
            digest.add_size(range.end);
        }
        if let Some(found) = self.source.find(leaf.get().span()) {
            digest.add_size(found.offset());
            digest.add_kind(Some(found.kind()));
        }
    }

    /// The leaf that ends at a place or beyond it and begins before it.
    fn leaf_before(&self, at: usize) -> Option<LinkedNode<'_>> {
        if self.source.root().descendants() == usize::MAX {
            return None;
        }
        LinkedNode::new(self.source.root()).leaf_at(at.saturating_sub(1))
    }
}

/// The last boundary of a character up to a byte.
pub fn boundary(text: &str, byte: usize) -> usize {
    for at in (1..byte.saturating_add(1)).rev() {
        if text.is_char_boundary(at) {
            return at;
        }
    }
    0
}

/// An error of a source as one of the program.
pub fn as_anyhow(error: SourceError) -> anyhow::Error {
    match error {
        SourceError::OutOfMemory => anyhow::anyhow!("out of memory"),
        SourceError::SpanNumbers => anyhow::anyhow!("out of span numbers"),
    }
}
