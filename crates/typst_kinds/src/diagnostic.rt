ghost use Rattle.std.specs.Prelude.{◌≡◌, ◌↔◌, IfOk, OnOk, OnErr, IsTrue};
ghost use Rattle.typst_kinds.specs.Diagnostic.{hinted, error_with, warning_with, hint_with};

use crate::{Items, SubRange, Text};
use std::alloc::{AllocError, Global};
use std::marker::Model;

/// How grave a diagnostic is.
#[derive(Debug, Clone, Copy, PartialEq, Eq)]
pub enum Severity {
    /// The text is not valid.
    Error,
    /// The text is valid, and may mean something else than is thought.
    Warning,
}

/// A remark that says how to mend what a diagnostic is about.
#[derive(Drop)]
pub struct Hint {
    about: Option<SubRange>,
    said: Text,
}

impl Model for Hint {
    ghost use Rattle.typst_kinds.specs.Diagnostic.{Hint, hint_code};

    ghost Value = { Hint };

    ghost coded = { hint_code };

    ghost view = { λ h. record { sub_range = h.about; message = h.said } };
}

/// An error or a warning about a node, with its hints.
#[derive(Drop)]
pub struct Diagnostic {
    severity: Severity,
    sub_range: Option<SubRange>,
    message: Text,
    hints: Items<Hint>,
}

impl Model for Diagnostic {
    ghost use Rattle.typst_kinds.specs.Diagnostic.{Diagnostic, diagnostic_code};

    ghost Value = { Diagnostic };

    ghost coded = { diagnostic_code };

    ghost view = { λ d. record { severity = d.severity; sub_range = d.sub_range; message = d.message; hints = d.hints } };
}

impl Hint {
    /// A hint about all of a node, or about some of its bytes.
    pub fn new(sub_range: Option<SubRange>, message: Text) -> Hint
        ensures { result ≡ hint_with sub_range message }
    {
        Hint {
            about: sub_range,
            said: message,
        }
    }

    /// The bytes of the node that the hint is about, or `None` if it is about all of it.
    pub fn sub_range(&self) -> Option<SubRange>
        ensures { result ≡ self.now.sub_range }
    {
        self.about
    }

    /// What the hint says.
    pub fn message(&self) -> &str
        ensures { result.now ≡ self.now.message }
    {
        self.said.as_str()
    }

    /// A copy of the hint.
    pub fn try_clone(&self, alloc: Global) -> Result<Hint, AllocError>
        ensures { IfOk result (λ h. h ≡ self.now) }
    {
        Ok(Hint {
            about: self.about,
            said: self.said.try_clone(alloc)?,
        })
    }

    fn same(&self, other: &Hint) -> bool
        ensures { IsTrue result ↔ (self.now ≡ other.now) }
    {
        if self.about != other.about {
            return false;
        }
        self.said.same(&other.said)
    }
}

impl Diagnostic {
    /// An error about all of a node.
    pub fn error(alloc: Global, message: Text) -> Diagnostic
        ensures { result ≡ error_with message }
    {
        Diagnostic {
            severity: Severity::Error,
            sub_range: None,
            message,
            hints: Items::new(alloc),
        }
    }

    /// A warning about all of a node, or about some of its bytes.
    pub fn warning(alloc: Global, sub_range: Option<SubRange>, message: Text) -> Diagnostic
        ensures { result ≡ warning_with sub_range message }
    {
        Diagnostic {
            severity: Severity::Warning,
            sub_range,
            message,
            hints: Items::new(alloc),
        }
    }

    /// Whether the diagnostic is an error or a warning.
    pub fn severity(&self) -> Severity
        ensures { result ≡ self.now.severity }
    {
        self.severity
    }

    /// The bytes of the node that the diagnostic is about, or `None` if it is about all of the node.
    pub fn sub_range(&self) -> Option<SubRange>
        ensures { result ≡ self.now.sub_range }
    {
        self.sub_range
    }

    /// What the diagnostic says.
    pub fn message(&self) -> &str
        ensures { result.now ≡ self.now.message }
    {
        self.message.as_str()
    }

    /// The diagnostic's hints, in the order in which they were given.
    pub fn hints(&self) -> &[Hint]
        ensures { result.now ≡ self.now.hints }
    {
        self.hints.as_slice()
    }

    /// Adds a hint after the others. After an error nothing has changed.
    pub fn push_hint(&mut self, hint: Hint) -> Result<(), AllocError>
        ensures ok { OnOk result (self.new ≡ hinted hint self.old) }
        ensures err { OnErr result (self.new ≡ self.old) }
    {
        self.hints.push(hint)?;
        Ok(())
    }

    /// A copy of the diagnostic and its hints.
    pub fn try_clone(&self, alloc: Global) -> Result<Diagnostic, AllocError>
        ensures { IfOk result (λ d. d ≡ self.now) }
    {
        let hints = clone_hints(alloc, self.hints.as_slice())?;
        Ok(Diagnostic {
            severity: self.severity,
            sub_range: self.sub_range,
            message: self.message.try_clone(alloc)?,
            hints: Items::from_vec(hints),
        })
    }

    fn same(&self, other: &Diagnostic) -> bool
        ensures { IsTrue result ↔ (self.now ≡ other.now) }
    {
        if self.severity != other.severity {
            return false;
        }
        if self.sub_range != other.sub_range {
            return false;
        }
        if !self.message.same(&other.message) {
            return false;
        }
        same_hints(self.hints.as_slice(), other.hints.as_slice())
    }
}

fn clone_hints(alloc: Global, hints: &[Hint]) -> Result<Vec<Hint>, AllocError>
    ensures { IfOk result (λ v. v.items ≡ hints.now) }
{
    let mut all = Vec::new(alloc);
    for hint in hints {
        all.push(hint.try_clone(alloc)?)?;
    }
    Ok(all)
}

/// A copy of some diagnostics, in their order.
pub fn clone_diagnostics(
    alloc: Global,
    diagnostics: &[Diagnostic],
) -> Result<Vec<Diagnostic>, AllocError>
    ensures { IfOk result (λ v. v.items ≡ diagnostics.now) }
{
    let mut all = Vec::new(alloc);
    for diagnostic in diagnostics {
        all.push(diagnostic.try_clone(alloc)?)?;
    }
    Ok(all)
}

fn same_hints(a: &[Hint], b: &[Hint]) -> bool
    ensures { IsTrue result ↔ (a.now ≡ b.now) }
{
    if a.len() != b.len() {
        return false;
    }
    for i in 0..a.len() {
        if !a[i].same(&b[i]) {
            return false;
        }
    }
    true
}

/// Whether two lists have the same diagnostics in the same order.
pub fn same_diagnostics(a: &[Diagnostic], b: &[Diagnostic]) -> bool
    ensures { IsTrue result ↔ (a.now ≡ b.now) }
{
    if a.len() != b.len() {
        return false;
    }
    for i in 0..a.len() {
        if !a[i].same(&b[i]) {
            return false;
        }
    }
    true
}
