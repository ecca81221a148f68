//! How much was found in the files of a run.

ghost use Rattle.std.specs.Prelude.{◌≡◌, ◌++◌, IfOk, OnOk, string_bytes};
ghost use Rattle.typst_report.specs.Tally as spec;

use std::alloc::{AllocError, Global};

/// How many errors and warnings a text has.
#[derive(Debug, Clone, Copy, PartialEq, Eq)]
pub struct Counts {
    pub errors: usize,
    /// The errors and the warnings.
    pub findings: usize,
}

/// How many files were checked, and how many errors and warnings they have.
#[derive(Debug, Clone, Copy, PartialEq, Eq)]
pub struct Tally {
    pub files: usize,
    pub errors: usize,
    pub warnings: usize,
    /// Whether the reader of the output is gone.
    pub is_unheard: bool,
}

impl Tally {
    ghost use Rattle.std.specs.Prelude.{◌≡◌, IfOk, string_bytes};
    ghost use Rattle.typst_report.specs.Tally as spec;

    /// A tally of no files.
    pub fn new() -> Tally {
        Tally {
            files: 0,
            errors: 0,
            warnings: 0,
            is_unheard: false,
        }
    }

    /// Adds a file.
    pub fn add(&mut self, counts: Counts)
        ensures { self.new ≡ spec.with_file self.old counts.errors counts.findings }
    {
        let warnings = counts.findings.saturating_sub(counts.errors);
        self.files = self.files.saturating_add(1);
        self.errors = self.errors.saturating_add(counts.errors);
        self.warnings = self.warnings.saturating_add(warnings);
    }

    /// The line that sums up what was found.
    pub fn summary(&self, alloc: Global) -> Result<String, AllocError>
        ensures { IfOk result (λ line. string_bytes line ≡ spec.summary self.now) }
    {
        let mut line = String::new(alloc);
        push_counted(&mut line, self.errors, "error")?;
        line.push_str(", ")?;
        push_counted(&mut line, self.warnings, "warning")?;
        line.push_str(" in ")?;
        push_counted(&mut line, self.files, "file")?;
        line.push_str("\n")?;
        Ok(line)
    }
}

/// Writes how many there are of what the word says.
fn push_counted(line: &mut String, count: usize, word: &str) -> Result<(), AllocError>
    ensures { OnOk result (string_bytes line.new ≡ string_bytes line.old ++ spec.counted count word.now) }
{
    write!(line, "{count} {word}")?;
    line.push_str(plural(count))?;
    Ok(())
}

/// The ending of a word for so many.
fn plural(count: usize) -> &'static str
    ensures { result.now ≡ spec.plural count }
{
    if count == 1 { "" } else { "s" }
}
