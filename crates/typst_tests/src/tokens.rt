//! What of tokens needs code: modes, columns, refused memory, long texts.
use std::alloc::Global;
use typst_kinds::{SyntaxKind, SyntaxMode};
use typst_lexer::Lexer;
use typst_lines::UnicodeClasses;

/// A mode, a text that is one token in it, that token's kind, and whether it has a newline.
type One = (SyntaxMode, &'static str, SyntaxKind, bool);

static ONES: [One; 7] = [
    (SyntaxMode::Markup, " \t", SyntaxKind::Space, false),
    (SyntaxMode::Markup, " \r\n", SyntaxKind::Space, true),
    (SyntaxMode::Markup, "\r\n\u{b}", SyntaxKind::Parbreak, true),
    (
        SyntaxMode::Markup,
        "/*\n*/",
        SyntaxKind::BlockComment,
        false,
    ),
    (SyntaxMode::Code, "\n\n", SyntaxKind::Space, true),
    (SyntaxMode::Code, "\u{3000}", SyntaxKind::Space, false),
    (SyntaxMode::Math, "\u{a0}\u{2028}", SyntaxKind::Space, true),
];

#[test]
fn knows_newlines_of_modes(rt: HostRuntime) {
    for (mode, text, kind, newline) in &ONES {
        let mut lexer = Lexer::new(text, *mode, &UnicodeClasses);
        let (token, taken) = lexer.scan(rt.alloc()).expect(&rt, "memory");
        assert!(rt; token.kind.same(*kind) && taken.len() == text.len());
        assert!(rt; lexer.newline() == *newline);
    }
}

/// Where a token begins, in bytes and in characters of its line.
type Start = (usize, usize);

static STARTS: [Start; 6] = [(0, 0), (2, 1), (3, 2), (4, 3), (7, 0), (12, 2)];

/// Tokens of the text begin there.
#[test]
fn counts_columns(rt: HostRuntime) {
    let text = "ä\tb\u{2028}\u{1f49b}c";
    let mut lexer = Lexer::new(text, SyntaxMode::Markup, &UnicodeClasses);
    for (index, column) in &STARTS {
        assert!(rt; lexer.cursor() == *index && lexer.column(*index) == *column);
        assert!(rt; lexer.scan(rt.alloc()).is_ok());
    }
}

/// Whether the end is reached; nothing where the lexer doesn't stand after the token that it read, or
/// where memory was refused not where it stood.
fn ends_here(alloc: Global, lexer: &mut Lexer<'_, UnicodeClasses>) -> Option<bool> {
    let (cursor, newline) = (lexer.cursor(), lexer.newline());
    match lexer.scan(alloc) {
        Ok((token, taken)) => {
            let is_after = lexer.cursor() == cursor.saturating_add(taken.len());
            is_after.then_some(token.kind.same(SyntaxKind::End))
        }
        Err(_) => {
            let stays = lexer.cursor() == cursor && lexer.newline() == newline;
            stays.then_some(false)
        }
    }
}

/// Where a lexer of the text ends, of which each token is read again where memory was refused.
fn end_of(alloc: Global, text: &str) -> Option<usize> {
    let mut lexer = Lexer::new(text, SyntaxMode::Markup, &UnicodeClasses);
    for _ in 0..40 {
        if ends_here(alloc, &mut lexer)? {
            return Some(lexer.cursor());
        }
    }
    None
}

/// Reads on where memory was refused, and finds what it would have found.
/// `rt try --test --fail-alloc N` refuses the Nth request.
#[test]
fn stays_where_memory_is_refused(rt: HostRuntime) {
    let text = "a text that is long */\\u{xyz}\n\nhttp://[a]";
    assert!(rt; end_of(rt.alloc(), text) == Some(41));
}

/// How many tokens a text has; one more than so many where there are more.
fn count(alloc: Global, text: &str, most: usize) -> Option<usize> {
    let mut lexer = Lexer::new(text, SyntaxMode::Markup, &UnicodeClasses);
    for n in 0..most {
        let (token, _) = lexer.scan(alloc).ok()?;
        if token.kind.same(SyntaxKind::End) {
            return Some(n);
        }
    }
    Some(most)
}

/// A character, and how many tokens 100,000 of it are.
type Run = (&'static str, usize);

static RUNS: [Run; 15] = [
    ("a", 1),
    (" ", 1),
    ("/", 1),
    ("\n", 1),
    ("é", 1),
    ("=", 1),
    ("0", 1),
    ("h", 1),
    ("`", 1),
    ("@", 1),
    ("-", 33_334),
    ("*", 100_000),
    ("[", 100_000),
    ("\\", 50_000),
    (".", 33_334),
];

#[test]
fn reads_runs(rt: HostRuntime) {
    for (one, tokens) in &RUNS {
        let text = one.repeat(rt.alloc(), 100_000).expect(&rt, "memory");
        assert!(rt;
            count(rt.alloc(), text.as_str(), 100_002) == Some(*tokens),
            "{one:?}"
        );
    }
}
