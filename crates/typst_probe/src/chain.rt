//! The word `chain`.

use crate::everywhere::fault_of_turn;
use std::alloc::{AllocError, Global};
use typst_edited::cli::{Command, Source, UnicodeClasses};
use typst_edited::{Edit, Wanted, source_of};

/// The name of a chain, what stands before its links, a link, and what stands after them.
type Parts = (&'static str, &'static str, &'static str, &'static str);

static CHAINS: [Parts; 13] = [
    ("call", "#f", "()", ""),
    ("field", "#a", ".b", ""),
    ("method", "#a", ".b()", ""),
    ("plus", "#(a", "+a", ")"),
    ("and", "#(a", " and a", ")"),
    ("equal", "#(a", "==a", ")"),
    ("assign", "#{a", "=a", "}"),
    ("else-if", "#if a {}", " else if a {}", ""),
    ("subscript", "$a", "_b", "$"),
    ("power", "$a", "^b", "$"),
    ("fraction", "$a", "/b", "$"),
    ("factorial", "$a", "!", "$"),
    ("math-field", "$aa", ".bb", "$"),
];

/// Links of one kind, one after the other.
#[derive(Clone, Copy)]
struct Chain {
    /// What stands before the links.
    front: &'static str,
    link: &'static str,
    /// What stands after them.
    rear: &'static str,
    links: usize,
}

/// Prints of a chain of links, whose kind and number are the text, where its lines start, how many bytes its HTML
/// has and its tree how many nodes; and whether a source is as it has to be after a keystroke and after what takes it
/// back, before the first link, between two in the middle and after the last.
pub fn print(alloc: Global, printed: &mut String, text: &str) -> Result<(), AllocError> {
    let Some(chain) = chain_of(text) else {
        return printed.push_str("no chain\n");
    };
    let text = chain.text(alloc)?;
    print_answers(alloc, printed, text.as_str())?;
    print_edits(alloc, printed, text.as_str(), chain)
}

/// Prints where the lines of a text start, and how many bytes its HTML has.
fn print_answers(alloc: Global, printed: &mut String, text: &str) -> Result<(), AllocError> {
    let lines = Command::Lines.answer(alloc, text)?;
    printed.push_str(lines.as_str())?;
    let bytes = Command::Html.answer(alloc, text)?.len();
    writeln!(printed, "html {bytes}")
}

/// The chain that a text names, with so many links.
fn chain_of(text: &str) -> Option<Chain> {
    let (kind, links) = text.trim_end().split_once(' ')?;
    let links = links.parse().ok()?;
    for parts in &CHAINS {
        let (name, front, link, rear) = *parts;
        if name == kind {
            return Some(Chain {
                front,
                link,
                rear,
                links,
            });
        }
    }
    None
}

impl Chain {
    /// The text.
    fn text(self, alloc: Global) -> Result<String, AllocError> {
        let (front, links) = (self.front, self.link.repeat(alloc, self.links)?);
        let rear = self.rear;
        format!(in alloc; "{front}{links}{rear}")
    }
}

/// Prints how many nodes the tree of a text has, and a line for each keystroke.
fn print_edits(
    alloc: Global,
    printed: &mut String,
    text: &str,
    chain: Chain,
) -> Result<(), AllocError> {
    let mut source = source_of(alloc, text, UnicodeClasses)?;
    let nodes = source.root().descendants();
    writeln!(printed, "nodes {nodes}")?;
    print_keystrokes(alloc, printed, &mut source, text, chain)
}

/// Prints a line for each keystroke.
fn print_keystrokes(
    alloc: Global,
    printed: &mut String,
    source: &mut Source<UnicodeClasses>,
    text: &str,
    chain: Chain,
) -> Result<(), AllocError> {
    let wanted = Wanted::of(alloc, text, &UnicodeClasses)?;
    for (name, links) in [
        ("front", 0),
        ("middle", chain.links / 2),
        ("rear", chain.links),
    ] {
        let before = links.saturating_mul(chain.link.len());
        let at = chain.front.len().saturating_add(before);
        let fault = fault_of_keystroke(alloc, source, text, at, &wanted)?;
        let told = fault.unwrap_or("agrees");
        writeln!(printed, "{name} {told}")?;
    }
    Ok(())
}

/// What isn't as it has to be after a keystroke at a byte of a text, or after what takes it back.
fn fault_of_keystroke(
    alloc: Global,
    source: &mut Source<UnicodeClasses>,
    text: &str,
    at: usize,
    wanted: &Wanted,
) -> Result<Option<&'static str>, AllocError> {
    let typed = Edit::new(at, at, "x");
    match Wanted::after(alloc, text, typed, &UnicodeClasses)? {
        Some(then) => fault_of_turn(alloc, source, text, typed, &then, wanted),
        None => Ok(Some("bad range")),
    }
}
