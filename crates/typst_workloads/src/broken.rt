//! Typing after something that is open: till it is closed, what follows is read as a part of it.

use crate::digest::Outcome;
use crate::document::Shape;
use crate::random::Random;
use crate::typing::{Desk, source};
use std::alloc::Global;

/// What opens something, and what closes it.
#[derive(Clone, Copy)]
struct Marks {
    opening: &'static str,
    closing: &'static str,
}

/// The marks of a code block, a content block, a formula, a string and raw text in markup.
const IN_MARKUP: &[Marks] = &[
    Marks {
        opening: "#{",
        closing: "}",
    },
    Marks {
        opening: "#[",
        closing: "]",
    },
    Marks {
        opening: "$",
        closing: "$",
    },
    Marks {
        opening: "#\"",
        closing: "\"",
    },
    Marks {
        opening: "`",
        closing: "`",
    },
];

/// The marks of a code block, a content block, a formula, a string and raw text in code.
const IN_CODE: &[Marks] = &[
    Marks {
        opening: "{",
        closing: "}",
    },
    Marks {
        opening: "[",
        closing: "]",
    },
    Marks {
        opening: "$",
        closing: "$",
    },
    Marks {
        opening: "\"",
        closing: "\"",
    },
    Marks {
        opening: "`",
        closing: "`",
    },
];

/// What is typed before something is closed, of which the last letters are taken out again.
const TYPED: &str = "revised";

/// How many letters are taken out.
const TAKEN: usize = 3;

/// Opens a brace, a bracket, a dollar sign, a quote and a backtick near the front of documents and packages
/// of 20 and 60 kilobytes, types after each, and closes it.
pub fn broken(alloc: Global, random: &mut Random, outcome: &mut Outcome) -> anyhow::Result<()> {
    for bytes in [20_000, 60_000] {
        for marks in IN_MARKUP {
            type_after(alloc, random, Shape::Document, bytes, *marks, outcome)?;
        }
        for marks in IN_CODE {
            type_after(alloc, random, Shape::Package, bytes, *marks, outcome)?;
        }
    }
    Ok(())
}

/// Makes a source of a text of a shape and a size, types a mark that opens something, a word, and the
/// mark that closes it, and holds the tree while it is open and once it is closed.
fn type_after(
    alloc: Global,
    random: &mut Random,
    shape: Shape,
    bytes: usize,
    marks: Marks,
    outcome: &mut Outcome,
) -> anyhow::Result<()> {
    let source = source(alloc, random, shape, bytes)?;
    let start = front_place(source.text(), random, shape);
    let mut desk = Desk::new(source, 0, 0);
    open_and_close(alloc, &mut desk, start, marks, outcome)
}

/// Types a mark that opens something, a word, and the mark that closes it, and holds the tree before and
/// after the last.
fn open_and_close(
    alloc: Global,
    desk: &mut Desk,
    start: usize,
    marks: Marks,
    outcome: &mut Outcome,
) -> anyhow::Result<()> {
    let opened = desk.type_letters(start, marks.opening, outcome)?;
    let typed = desk.type_letters(opened, TYPED, outcome)?;
    let at = desk.take_out(typed, TAKEN, outcome)?;
    desk.hold(alloc, outcome)?;
    desk.type_letters(at, marks.closing, outcome)?;
    desk.hold(alloc, outcome)
}

/// A place near a text's front: in a package where a function's body begins, and else where a part of the
/// document begins.
fn front_place(text: &str, random: &mut Random, shape: Shape) -> usize {
    let mark = match shape {
        Shape::Package => "{\n",
        _ => "\n\n",
    };
    let least = random.below(500);
    let mut end = 0usize;
    for part in text.split_inclusive(mark) {
        end = end.saturating_add(part.len());
        if end > least {
            return end;
        }
    }
    end
}
