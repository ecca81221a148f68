//! Shows what a language server shows and offers of a text, has sessions of the server, and compares that with rows
//! of wanted answers.
#![tactic(auto)]

mod bound;
mod exchange;
mod offered;
mod refused;
mod sessions;
mod shown;
mod tokens;
mod word;

use std::alloc::Global;
use std::process::ExitCode;
use typst_rows::ended;
use word::Word;

const USAGE: &str =
    "usage: typst_probe_server rows FILE.. | outline | foldings | selections | mentions | problems |
    semantic-tokens | tokens-in | deltas | expansions | names | occurrences | shown-problems | quick-fixes | document-links |
    hover | completions | next-item | session | session-all-errors | session-cut | session-refused";

/// `rows FILE..` compares all rows of the files, and any other word answers about the text on
/// standard input. Ends with status 1 where a row disagrees or something fails, and with status 2
/// for other words.
fn main(rt: HostRuntime) -> ExitCode {
    let status = run(&rt, rt.alloc());
    ended(&rt, status)
}

fn run(rt: &HostRuntime, alloc: Global) -> anyhow::Result<u8> {
    let words = typst_rows::words(rt, alloc)?;
    typst_rows::run::<Word>(rt, alloc, words.as_slice(), USAGE)
}
