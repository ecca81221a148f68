//! The rules that a log of SARIF names: kinds of messages, by the words with which these begin.

use super::finding::NdjsonFinding;

/// A kind of messages.
#[derive(Debug, Clone, Copy)]
pub struct Rule {
    /// The rule's name; messages of most kinds begin with it.
    pub id: &'static str,
    /// What messages of this kind say, in a sentence.
    pub meaning: &'static str,
}

/// The rule of all warnings.
const WARNING: Rule = Rule {
    id: "warning",
    meaning: "What stands here is allowed, and does something else than it seems to.",
};

/// The rule of errors whose messages begin with no rule's name.
const SYNTAX: Rule = Rule {
    id: "syntax",
    meaning: "What stands here is no syntax of Typst.",
};

/// All rules. The messages of those between the first and the last begin with their names.
pub static RULES: [Rule; 7] = [
    WARNING,
    Rule {
        id: "duplicate",
        meaning: "A name stands twice where it may stand once.",
    },
    Rule {
        id: "expected",
        meaning: "Something is missing, or something else stands in its place.",
    },
    Rule {
        id: "invalid",
        meaning: "A number or a code point is written wrongly.",
    },
    Rule {
        id: "unclosed",
        meaning: "A delimiter, a string, a raw text, a label or an escape has no end.",
    },
    Rule {
        id: "unexpected",
        meaning: "Something stands where it can't.",
    },
    SYNTAX,
];

/// The name of the rule of an error or a warning.
pub fn rule_of(finding: &NdjsonFinding) -> &'static str {
    if finding.severity == WARNING.id {
        return WARNING.id;
    }
    for rule in &RULES {
        if finding.message.starts_with(rule.id) {
            return rule.id;
        }
    }
    SYNTAX.id
}
