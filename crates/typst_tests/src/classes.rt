//! The answers of each class value, by the Unicode Character Database.

use std::cell::Cell;
use typst_fakes::{Counting, Narrow, Wide, first_cluster};
use typst_lines::MathClass::{self, Alphabetic, Closing, Opening};
use typst_lines::{
    Classes, UnicodeClasses, is_id_continue, is_id_start, is_ident, is_valid_label_literal_id,
};

/// Starts an identifier, continues one, is alphabetic, alphanumeric, numeric, of a word.
type Answers = [bool; 6];

const NONE: Answers = [false, false, false, false, false, false];

const LETTER: Answers = [true, true, true, true, false, true];

const UNSPACED_LETTER: Answers = [true, true, true, true, false, false];

const DIGIT: Answers = [false, true, false, true, true, true];

const OTHER_NUMBER: Answers = [false, false, false, true, true, true];

const LETTER_NUMBER: Answers = [true, true, true, true, true, true];

const UNSPACED_NUMBER: Answers = [true, true, true, true, true, false];

const CONTINUES: Answers = [false, true, false, false, false, false];

/// The characters White_Space except some of the spaces from U+2000 to U+200A.
const WHITE_SPACE: &str =
    "\t\n\r \u{85}\u{a0}\u{1680}\u{2000}\u{200a}\u{2028}\u{2029}\u{202f}\u{205f}\u{3000}";

fn answers<C: Classes>(classes: &C, c: char) -> Answers {
    [
        classes.is_xid_start(c),
        classes.is_xid_continue(c),
        classes.is_alphabetic(c),
        classes.is_alphanumeric(c),
        classes.is_numeric(c),
        classes.is_word(c),
    ]
}

/// Characters, their classes, and their class in formulas.
type Row = (&'static str, Answers, Option<MathClass>);

/// Whether all characters of the rows are in their classes.
fn has_rows<C: Classes>(classes: &C, rows: &[Row]) -> bool {
    for (chars, want, math) in rows {
        for c in chars.chars() {
            if answers(classes, c) != *want || classes.math_class(c) != *math {
                return false;
            }
        }
    }
    true
}

/// What each class value has to say.
const LAW: [Row; 7] = [
    ("azAZ", LETTER, Some(Alphabetic)),
    ("09", DIGIT, None),
    ("_", CONTINUES, None),
    ("([{", NONE, Some(Opening)),
    (")]}", NONE, Some(Closing)),
    ("-/:@`|\u{7f}", NONE, None),
    (WHITE_SPACE, NONE, None),
];

const UNICODE: [Row; 10] = [
    // Ll, Ll, Lu, Ll, Lo, a letter of formulas, and one of kana whose script is Common.
    ("éßΩжא𝑥ー", LETTER, None),
    // Han, Hiragana, Katakana, Hangul.
    ("中あア한", UNSPACED_LETTER, None),
    // Nd, then Nl, of which the second is of Han, then No.
    ("٣", DIGIT, None),
    ("Ⅷ", LETTER_NUMBER, None),
    ("〇", UNSPACED_NUMBER, None),
    ("½²", OTHER_NUMBER, None),
    // Mn, and Po with Other_ID_Continue.
    ("\u{301}·", CONTINUES, None),
    // Sc, So, Cf, Cn.
    ("€☃\u{200b}\u{ffff}", NONE, None),
    ("⌈⌊⟦⟨⟪⟬⟮", NONE, Some(Opening)),
    ("⌉⌋⟧⟩⟫⟭⟯", NONE, Some(Closing)),
];

/// Characters past ASCII, of which each class value that isn't by Unicode says the same.
const OTHERS: &str = "é中٣½€⌈";

const IN_WIDE: [Row; 1] = [(OTHERS, LETTER, None)];

const IN_NARROW: [Row; 1] = [(OTHERS, NONE, None)];

/// The law is kept, and characters past ASCII are in the classes of each class value.
#[test]
fn characters(rt: HostRuntime) {
    assert!(rt; has_rows(&UnicodeClasses, &LAW) && has_rows(&UnicodeClasses, &UNICODE));
    assert!(rt; has_rows(&Wide, &LAW) && has_rows(&Wide, &IN_WIDE));
    assert!(rt; has_rows(&Narrow, &LAW) && has_rows(&Narrow, &IN_NARROW));
}

/// A line, and how many bytes its first cluster has.
type Cluster = (&'static str, usize);

static CLUSTERS: [Cluster; 7] = [
    ("ab", 1),
    ("aé", 1),
    // A letter with its accent.
    ("e\u{301}x", 3),
    // A family: four people and the three joiners between them.
    ("👩\u{200d}👩\u{200d}👧\u{200d}👦 x", 25),
    // The first of two flags.
    ("🇩🇪🇫🇷", 8),
    // A syllable of three jamo.
    ("\u{1112}\u{1161}\u{11ab}x", 9),
    ("中文", 3),
];

/// Whether the lines have these first clusters.
fn has_clusters<C: Classes>(classes: &C, rows: &[Cluster]) -> bool {
    for (line, want) in rows {
        if first_cluster(classes, line) != Some(*want) {
            return false;
        }
    }
    true
}

static WIDE_CLUSTERS: [Cluster; 2] = [("ab", 1), ("x é", 4)];

static NARROW_CLUSTERS: [Cluster; 2] = [("e\u{301}", 1), ("中文", 3)];

#[test]
fn clusters(rt: HostRuntime) {
    assert!(rt; has_clusters(&UnicodeClasses, &CLUSTERS));
    assert!(rt; has_clusters(&Wide, &WIDE_CLUSTERS));
    assert!(rt; has_clusters(&Narrow, &NARROW_CLUSTERS));
}

/// A text, and whether it is an identifier by Unicode, where nearly all are letters, and where only
/// ASCII is.
type Identifier = (&'static str, [bool; 3]);

static IDENTIFIERS: [Identifier; 6] = [
    ("_a-1", [true, true, true]),
    ("", [false, false, false]),
    ("-a", [false, false, false]),
    ("1a", [false, false, false]),
    ("中-文", [true, true, false]),
    ("\u{301}", [false, true, false]),
];

/// A text, and whether a label can have this name by Unicode, where nearly all are letters, and where only
/// ASCII is.
type Name = (&'static str, [bool; 3]);

static NAMES: [Name; 7] = [
    (":a", [true, true, true]),
    ("a-b_1.c:d", [true, true, true]),
    ("é", [true, true, false]),
    ("", [false, false, false]),
    ("a b", [false, false, false]),
    ("a>", [false, false, false]),
    ("->", [false, false, false]),
];

#[test]
fn identifiers_and_names_of_labels(rt: HostRuntime) {
    for (id, wanted) in &NAMES {
        let found = [
            is_valid_label_literal_id(id, &UnicodeClasses),
            is_valid_label_literal_id(id, &Wide),
            is_valid_label_literal_id(id, &Narrow),
        ];
        assert!(rt; found == *wanted);
    }
    for (text, wanted) in &IDENTIFIERS {
        let found = [
            is_ident(text, &UnicodeClasses),
            is_ident(text, &Wide),
            is_ident(text, &Narrow),
        ];
        assert!(rt; found == *wanted);
    }
    assert!(rt; is_id_start('_', &Narrow) && !is_id_start('-', &Narrow));
    assert!(rt; is_id_continue('-', &Narrow) && !is_id_continue('.', &Narrow));
}

/// Eight calls are counted, and answered as by Unicode; a call is answered where no more can be counted.
#[test]
fn calls_are_counted(rt: HostRuntime) {
    let calls = Cell::new(0);
    let counting = Counting { calls: &calls };
    assert!(rt; answers(&counting, 'é') == LETTER && counting.math_class('⟨') == Some(Opening));
    assert!(rt; first_cluster(&counting, "é") == Some(2) && calls.get() == 8);
    calls.set(usize::MAX);
    assert!(rt; counting.is_word('a') && calls.get() == usize::MAX);
}
