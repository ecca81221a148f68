//! Arrays of what is said of nodes.

ghost use Rattle.std.specs.Prelude.{◌≡◌, ◌+◌, ◌++◌, ◌^◌, ◌-◌, ◌<◌, ◌∷◌, [], IfOk, List, OnOk, length, map, take, ℕ};
ghost use Rattle.std.specs.List.{flat_map};
ghost use Rattle.typst_tree.specs.Tree.{nodes, saturated};
ghost use Rattle.typst_tree.specs.Linked.{linked};
ghost use Rattle.typst_flat.specs.Records.{filled};
ghost use Rattle.typst_flat.specs.Said as spec;
ghost use Rattle.typst_flat.specs.declared.records.Remark.{Remark};

use crate::bytes::put;
use crate::codes::narrow;
use crate::walk::{Place, Walk};
use crate::{Remark, Stretch};
use std::alloc::{AllocError, Global};
use std::ops::Range;
use typst_kinds::{Diagnostic, Severity, SubRange};
use typst_tree::SyntaxNode;

/// How many remarks a tree has, and how many bytes their messages.
#[repr(C)]
#[derive(Debug, Clone, Copy, PartialEq, Eq)]
pub struct Said {
    pub remarks: usize,
    pub messages: usize,
}

/// What a remark is about.
#[derive(Clone, Copy)]
struct About {
    node: usize,
    start: usize,
    end: usize,
    severity: u32,
}

/// Puts the remarks of a tree into an array, and their messages into another one, as many as fit, and tells
/// how many there are. They come node by node in preorder, each hint after the error or warning that it is on.
/// Where memory is refused, the arrays may hold some of them.
pub fn fill_remarks(
    alloc: Global,
    root: &SyntaxNode,
    remarks: &mut [Remark],
    messages: &mut [u8],
) -> Result<Said, AllocError>
    requires { nodes root.now < 2 ^ 64 - 1 }
    ensures count { IfOk result (λ said. said.remarks ≡ saturated (length (spec.all_said root.now))) }
    ensures bytes { IfOk result (λ said. said.messages ≡ saturated (length (spec.messages root.now))) }
    ensures remarks { OnOk result (remarks.new ≡ filled (spec.remarks root.now) remarks.old) }
    ensures messages { OnOk result (messages.new ≡ filled (spec.messages root.now) messages.old) }
{
    let mut walk = Walk::new(alloc, root, Stretch::ALL);
    let mut said = Said {
        remarks: 0,
        messages: 0,
    };
    'nodes: while let Some(place) = walk.next()? {
        said = say_all(said, &place, remarks, messages);
    }
    Ok(said)
}

/// Adds what is said of a node.
fn say_all(said: Said, place: &Place, remarks: &mut [Remark], messages: &mut [u8]) -> Said
    requires { place.now.number ≡ (linked place.now.node).number }
    ensures { (says : List spec.Saying) → (rs : List Remark) → (ms : List ℕ) → spec.IsWritten says said remarks.old rs messages.old ms → spec.IsWritten (says ++ spec.said_of (linked place.now.node)) result remarks.new rs messages.new ms }
{
    let mut all = said;
    for diagnostic in place.node.get().diagnostics() {
        all = say_one(all, place, diagnostic, remarks, messages);
    }
    all
}

/// Adds an error or a warning, and the hints on it.
fn say_one(
    said: Said,
    place: &Place,
    diagnostic: &Diagnostic,
    remarks: &mut [Remark],
    messages: &mut [u8],
) -> Said
    requires { place.now.number ≡ (linked place.now.node).number }
    ensures { (says : List spec.Saying) → (rs : List Remark) → (ms : List ℕ) → spec.IsWritten says said remarks.old rs messages.old ms → spec.IsWritten (says ++ spec.said_by (linked place.now.node) diagnostic.now) result remarks.new rs messages.new ms }
{
    let severity = grade(diagnostic.severity());
    let whole = part(place, diagnostic.sub_range(), severity);
    let mut all = say(said, whole, diagnostic.message(), remarks, messages);
    for hint in diagnostic.hints() {
        let on = part(place, hint.sub_range(), 3);
        all = say(all, on, hint.message(), remarks, messages);
    }
    all
}

/// How grave a diagnostic is.
fn grade(severity: Severity) -> u32
    ensures { result ≡ spec.severity_code severity }
{
    match severity {
        Severity::Error => 1,
        Severity::Warning => 2,
    }
}

/// Some bytes of a node, or all of them.
fn part(place: &Place, sub_range: Option<SubRange>, severity: u32) -> About
    ensures node { result.node ≡ place.now.number }
    ensures start { result.start ≡ spec.start_in (linked place.now.node) sub_range }
    ensures end { result.end ≡ spec.end_in (linked place.now.node) sub_range }
    ensures severity { result.severity ≡ severity }
{
    let Range { start, end } = place.node.range();
    match sub_range {
        None => About {
            node: place.number,
            start,
            end,
            severity,
        },
        Some(bytes) => About {
            node: place.number,
            start: start.saturating_add(bytes.start()),
            end: start.saturating_add(bytes.end()),
            severity,
        },
    }
}

/// Adds one remark.
fn say(said: Said, about: About, message: &str, remarks: &mut [Remark], messages: &mut [u8]) -> Said
    ensures { (says : List spec.Saying) → (rs : List Remark) → (ms : List ℕ) → spec.IsWritten says said remarks.old rs messages.old ms → spec.IsWritten (says ++ (record { node = about.node; start = about.start; end = about.end; severity = about.severity; message = message.now }) ∷ []) result remarks.new rs messages.new ms }
{
    if said.remarks < remarks.len() {
        remarks[said.remarks] = Remark {
            node: narrow(about.node),
            start: narrow(about.start),
            end: narrow(about.end),
            message: narrow(said.messages),
            message_len: narrow(message.len()),
            severity: about.severity,
        };
    }
    put(message.as_bytes(), said.messages, messages);
    Said {
        remarks: said.remarks.saturating_add(1),
        messages: said.messages.saturating_add(message.len()),
    }
}
