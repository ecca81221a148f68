//! Texts of the shapes that users have.

use crate::random::Random;
use std::alloc::{AllocError, Global};

/// Words of plain prose.
const PLAIN: &[&str] = &[
    "river", "stone", "market", "letter", "garden", "winter", "bridge", "paper", "morning",
    "harbour", "window", "answer", "journey", "village", "reason", "number", "under", "where",
    "after", "before", "while", "the", "a", "and", "of", "to", "in", "is", "for", "with", "that",
    "as", "result", "measure", "argument", "figure", "section", "evidence", "method", "model",
];

/// Words that bear markup, embedded code, a formula, a reference, or letters past ASCII.
const MARKED: &[&str] = &[
    "*strong*",
    "_leaning_",
    "`raw text`",
    "#variable",
    "$x_n$",
    "@reference",
    "#emph[called]",
    "café-noir",
    "here~--~there",
    "*two words*",
    "#calc.pow(2, 3)",
    "$alpha + beta$",
];

/// Words of Chinese, Japanese and Korean, of marks that join with what is before them, and emoji.
const WIDE: &[&str] = &[
    "排版系统",
    "文档",
    "标题",
    "数学公式",
    "日本語",
    "かな",
    "カタカナ",
    "한국어",
    "문서",
    "e\u{301}tude",
    "a\u{308}hnlich",
    "x\u{20d7}",
    "💛",
    "❤\u{fe0f}",
    "naïve",
    "Übung",
    "é",
];

/// Operands of formulas.
const OPERANDS: &[&str] = &[
    "x",
    "y",
    "n",
    "alpha",
    "beta",
    "pi",
    "2",
    "3.5",
    "f(x, y)",
    "sin(x)",
    "x_i^2",
    "a/b",
    "(a + b)",
    "sum_(i=0)^n",
    "vec(a, b)",
    "mat(1, 2; 3, 4)",
    "sqrt(x)",
    "arrow.r",
    "x'",
    "\"if\"",
];

/// Operators of formulas.
const OPERATORS: &[&str] = &[
    " + ", " - ", " <= ", " = ", " dot ", " ", " / ", " => ", ", ",
];

/// A given number of bytes of prose stand above a long table: more than 128 nodes.
const PROSE_BYTES: usize = 12_000;

/// What a text is like.
#[derive(Clone, Copy)]
pub enum Shape {
    /// Prose with headings, lists, formulas, figures and some code.
    Document,
    /// A document, all of it in one content block.
    OneBlock,
    /// A page of prose, and below it one long table.
    LongTable,
    /// Functions of code, one after another.
    Package,
    /// Functions of code, all of them in one code block.
    OnePackage,
    /// Lines that are only a comment, and some code.
    Comments,
    /// Formulas full of calls and attachments.
    Formulas,
    /// Lists and brackets in one another.
    Nested,
    /// Prose in scripts past ASCII.
    WideProse,
    /// Short lines of few words.
    ShortLines,
    /// One line of data.
    LongLine,
}

/// A text of a shape, of about a given number of bytes.
pub fn document(
    alloc: Global,
    random: &mut Random,
    shape: Shape,
    bytes: usize,
) -> Result<String, AllocError> {
    let mut text = String::new(alloc);
    text.push_str(match shape {
        Shape::OneBlock => "#show: body => [\n",
        Shape::OnePackage => "#let package = {\n",
        Shape::LongLine => "#let data = (",
        _ => "",
    })?;
    if matches!(shape, Shape::LongTable) {
        push_parts(&mut text, random, Shape::Document, PROSE_BYTES)?;
        text.push_str("#table(\n  columns: 3,\n")?;
    }
    push_parts(&mut text, random, shape, bytes)?;
    text.push_str(match shape {
        Shape::OneBlock => "]\n",
        Shape::OnePackage => "}\n",
        Shape::LongLine | Shape::LongTable => ")",
        _ => "",
    })?;
    Ok(text)
}

/// Writes parts of a shape until the text has a given number of bytes.
fn push_parts(
    text: &mut String,
    random: &mut Random,
    shape: Shape,
    bytes: usize,
) -> Result<(), AllocError> {
    for _ in 0..bytes {
        if text.len() >= bytes {
            return Ok(());
        }
        push_part(text, random, shape)?;
    }
    Ok(())
}

/// Writes a part of a shape.
fn push_part(text: &mut String, random: &mut Random, shape: Shape) -> Result<(), AllocError> {
    match shape {
        Shape::Document | Shape::OneBlock => push_mixed(text, random),
        Shape::LongTable => push_row(text, random),
        Shape::Package => {
            text.push_str("#let ")?;
            push_function(text, random)
        }
        Shape::OnePackage => {
            text.push_str("let ")?;
            push_function(text, random)
        }
        Shape::Comments => push_comment(text, random),
        Shape::Formulas => push_display(text, random),
        Shape::Nested => push_nested(text, random),
        Shape::WideProse => push_wide(text, random),
        Shape::ShortLines => push_short_line(text, random),
        Shape::LongLine => push_datum(text, random),
    }
}

/// Writes a part of a document: a paragraph in four of ten cases, else a heading, a list, a formula,
/// a function, a figure or a raw text.
fn push_mixed(text: &mut String, random: &mut Random) -> Result<(), AllocError> {
    match random.below(10) {
        0..4 => push_paragraph(text, random),
        4 => push_heading(text, random),
        5 => push_list(text, random),
        6 => push_display(text, random),
        7 => {
            text.push_str("#let ")?;
            push_function(text, random)
        }
        8 => push_figure(text, random),
        _ => push_raw(text, random),
    }
}

/// Writes some sentences and an empty line.
fn push_paragraph(text: &mut String, random: &mut Random) -> Result<(), AllocError> {
    for _ in 0..random.between(3, 7) {
        push_sentence(text, random)?;
        text.push_str(random.pick(&[" ", " ", "\n"]))?;
    }
    text.push_str("\n\n")
}

/// Writes some words and a full stop.
fn push_sentence(text: &mut String, random: &mut Random) -> Result<(), AllocError> {
    for _ in 0..random.between(6, 16) {
        let words = if random.one_in(10) { MARKED } else { PLAIN };
        text.push_str(random.pick(words))?;
        text.push_str(" ")?;
    }
    text.push_str("end.")
}

/// Writes a heading with a label.
fn push_heading(text: &mut String, random: &mut Random) -> Result<(), AllocError> {
    text.push_str(random.pick(&["= ", "== ", "=== "]))?;
    for _ in 0..random.between(1, 5) {
        text.push_str(random.pick(PLAIN))?;
        text.push_str(" ")?;
    }
    let number = random.below(1000);
    writeln!(text, "<sec-{number}>")
}

/// Writes some items of a list.
fn push_list(text: &mut String, random: &mut Random) -> Result<(), AllocError> {
    for _ in 0..random.between(2, 6) {
        text.push_str(random.pick(&["", "", "  "]))?;
        text.push_str(random.pick(&["- ", "+ ", "1. ", "/ Term: "]))?;
        push_sentence(text, random)?;
        text.push_str("\n")?;
    }
    text.push_str("\n")
}

/// Writes a formula that stands alone.
fn push_display(text: &mut String, random: &mut Random) -> Result<(), AllocError> {
    text.push_str("$ ")?;
    for _ in 0..random.between(4, 20) {
        text.push_str(random.pick(OPERANDS))?;
        text.push_str(random.pick(OPERATORS))?;
    }
    text.push_str("z $\n\n")
}

/// Writes a function of some statements of code after its `let`.
fn push_function(text: &mut String, random: &mut Random) -> Result<(), AllocError> {
    let number = random.below(1000);
    write!(text, "item{number}(first, second: 12pt, ..rest) = {{\n")?;
    for _ in 0..random.between(1, 6) {
        let number = random.below(100);
        match random.below(5) {
            0 => writeln!(
                text,
                "  let total = first * {number} + second.len() - 1 // a remark"
            )?,
            1 => writeln!(
                text,
                "  for (key, value) in rest.named() {{ if key == \"size\" and value > {number} {{ total += value }} else {{ continue }} }}"
            )?,
            2 => writeln!(text, "  set text(size: {number}pt, fill: rgb(\"#aa00cc\"))")?,
            3 => writeln!(
                text,
                "  let names = (first, second).map(it => it.at({number}, default: none)).filter(it => it != none)"
            )?,
            _ => writeln!(text, "  [The *total* of #first is $x_{number}$.]")?,
        }
    }
    text.push_str("  (total: total, list: (1, 2.5, 3em), name: \"x\\n\")\n}\n\n")
}

/// Writes a figure with a table.
fn push_figure(text: &mut String, random: &mut Random) -> Result<(), AllocError> {
    text.push_str("#figure(\n  table(columns: (auto, 1fr, 40%), align: center,\n")?;
    for _ in 0..random.between(1, 4) {
        push_row(text, random)?;
    }
    text.push_str("  ),\n  caption: [A table of ")?;
    text.push_str(random.pick(PLAIN))?;
    text.push_str("],\n) <tab>\n\n")
}

/// Writes a row of a table of three columns.
fn push_row(text: &mut String, random: &mut Random) -> Result<(), AllocError> {
    text.push_str("    [*")?;
    text.push_str(random.pick(PLAIN))?;
    text.push_str("*], [#calc.pow(2, 3)], [$x^2$],\n")
}

/// Writes a raw text of some lines.
fn push_raw(text: &mut String, random: &mut Random) -> Result<(), AllocError> {
    text.push_str("```rust\n")?;
    for _ in 0..random.between(2, 8) {
        let number = random.below(100);
        writeln!(text, "    let value = compute({number}, \"text\");")?;
    }
    text.push_str("```\n\n")
}

/// Writes a line of comment, or, in one of twenty cases, of code.
fn push_comment(text: &mut String, random: &mut Random) -> Result<(), AllocError> {
    if random.one_in(20) {
        let number = random.below(1000);
        return writeln!(text, "#let constant{number} = {number}");
    }
    text.push_str("// ")?;
    for _ in 0..random.between(0, 8) {
        text.push_str(random.pick(PLAIN))?;
        text.push_str(" ")?;
    }
    text.push_str("\n")
}

/// Writes a list in lists, or a text in brackets in brackets.
fn push_nested(text: &mut String, random: &mut Random) -> Result<(), AllocError> {
    let depth = random.between(3, 30);
    if random.one_in(2) {
        for level in 0..depth {
            for _ in 0..level {
                text.push_str("  ")?;
            }
            text.push_str("- ")?;
            text.push_str(random.pick(PLAIN))?;
            text.push_str("\n")?;
        }
        return text.push_str("\n");
    }
    for _ in 0..depth {
        text.push_str(random.pick(&["#box[", "#strong[", "#[", "#f(x)["]))?;
        text.push_str(random.pick(PLAIN))?;
        text.push_str(" ")?;
    }
    for _ in 0..depth {
        text.push_str("]")?;
    }
    text.push_str("\n\n")
}

/// Writes a paragraph of words past ASCII and some others.
fn push_wide(text: &mut String, random: &mut Random) -> Result<(), AllocError> {
    for _ in 0..random.between(20, 80) {
        let words = if random.one_in(5) { PLAIN } else { WIDE };
        text.push_str(random.pick(words))?;
        text.push_str(random.pick(&["", "", " ", "，", "。"]))?;
    }
    text.push_str("\n\n")
}

/// Writes a line of a few words.
fn push_short_line(text: &mut String, random: &mut Random) -> Result<(), AllocError> {
    for _ in 0..random.between(0, 5) {
        let words = if random.one_in(20) { WIDE } else { PLAIN };
        text.push_str(random.pick(words))?;
        text.push_str(" ")?;
    }
    text.push_str(random.pick(&["\n", "\n", "\n", "\r\n"]))
}

/// Writes a datum of a line of data.
fn push_datum(text: &mut String, random: &mut Random) -> Result<(), AllocError> {
    let number = random.below(100_000);
    if random.one_in(50) {
        text.push_str("\"")?;
        text.push_str(random.pick(WIDE))?;
        return text.push_str("\", ");
    }
    write!(text, "{number}, ")
}
