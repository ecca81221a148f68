ghost use Rattle.std.specs.Prelude.{◌≡◌, ◌≤◌, ◌<◌, ◌+◌, ◌*◌, ◌^◌, ◌↔◌, IfOk, OnOk, OnErr, IsTrue, MatchOption, length, take, false};
ghost use Rattle.typst_kinds.specs.Span.{SpanValue, number_of};
ghost use Rattle.typst_kinds.specs.Head.{bare_head, located, spanned, leaf_head, error_head, kept, leaf_own, inner_own, with_head, with_counts, diagnosed_own, helped};
ghost use Rattle.typst_kinds.specs.Diagnostic.{at_last, hinted};
ghost use Rattle.typst_kinds.specs.Repr.{own_of, plain_inner, upper_end, IsOwn};

use crate::diagnostic::{clone_diagnostics, same_diagnostics};
use crate::text::ShortText;
use crate::{Diagnostic, Hint, Span, SyntaxKind, Text};
use std::alloc::{AllocError, Global};
use std::marker::Model;

/// Where a node's numbers end, and what its children add up to.
#[derive(Clone, Copy)]
struct Extent {
    upper: u64,
    len: usize,
    descendants: usize,
}

/// The parts of a node that has diagnostics.
#[derive(Drop)]
struct Parts {
    is_inner: bool,
    text: Text,
    extent: Extent,
    diagnostics: Vec<Diagnostic>,
}

/// The usual nodes hold their parts in 16 bytes. An upper end takes 6 of them. A leaf whose text is elsewhere
/// keeps its length here, so that rows of nodes are added up without reading their texts. The parts of an inner
/// node fill the 16 bytes, so that a variant of its own tells that a node below it has diagnostics.
#[derive(Drop)]
enum Repr {
    ShortLeaf(SyntaxKind, ShortText<12>),
    BoxedLeaf(SyntaxKind, u16, Box<ShortText<70>>),
    LongLeaf(SyntaxKind, u32, Box<Text>),
    Inner {
        kind: SyntaxKind,
        upper_high: u16,
        upper_low: u32,
        len: u32,
        descendants: u32,
    },
    MarkedInner {
        kind: SyntaxKind,
        upper_high: u16,
        upper_low: u32,
        len: u32,
        descendants: u32,
    },
    Diagnosed(SyntaxKind, Box<Parts>),
}

/// A count as a node keeps it: the largest one means that many or more.
fn kept(count: usize) -> usize
    ensures { result ≡ kept count }
{
    count.min(Own::MOST)
}

/// An upper end, from its high and its low part.
fn upper_end(high: u16, low: u32) -> u64
    ensures { result ≡ upper_end high low }
{
    u64::from(high) * 0x1_0000_0000 + u64::from(low)
}

/// What a node keeps beside its children.
pub struct Own {
    span: Span,
    repr: Repr,
}

// The usual nodes hold no memory.
impl Drop for Own {
    #[inline(always)]
    fn drop(self) {
        let Own { span: _, repr } = self;
        match repr {
            Repr::ShortLeaf(_, _) => {}
            Repr::Inner { .. } => {}
            repr => drop_parts(repr),
        }
    }
}

/// Gives back the memory of a node's parts.
#[inline(never)]
fn drop_parts(repr: Repr) {
    drop(repr);
}

impl Model for Own {
    ghost use Rattle.typst_kinds.specs.Head.{Own, own_code};

    ghost Value = { Own };

    ghost coded = { own_code };

    ghost use Rattle.typst_kinds.specs.Repr.{own_of, IsOwn};

    ghost view = { λ o. own_of o.span o.repr };

    ghost invariant = { λ o. IsOwn o.repr };
}

impl Own {
    /// The largest count that a node keeps: it stands for all counts from there on.
    pub const MOST: usize = 0xffff_ffff;
}

/// A copy of a text of up to 70 bytes, which takes memory once.
#[inline(never)]
fn boxed(alloc: Global, text: &str) -> Result<Box<ShortText<70>>, AllocError>
    requires { length text.now ≤ 70 }
    ensures { IfOk result (λ b. b.value ≡ text.now) }
{
    let mut short = Box::new(alloc, ShortText::empty())?;
    short.set(text);
    Ok(short)
}

/// A copy of a text.
#[inline(never)]
fn long(alloc: Global, text: &str) -> Result<Box<Text>, AllocError>
    ensures { IfOk result (λ b. b.value ≡ text.now) }
{
    let long = Text::new(alloc, text)?;
    Ok(Box::new(alloc, long)?)
}

// Makers.
impl Own {
    /// What a new leaf keeps, with a copy of its text.
    #[inline(always)]
    pub fn leaf(alloc: Global, kind: SyntaxKind, text: &str) -> Result<Own, AllocError>
        ensures { IfOk result (λ o. o ≡ leaf_own (leaf_head kind text.now)) }
    {
        Own::leaf_of(alloc, kind, text, ShortText::new(text))
    }

    /// What a new leaf keeps, whose text `rest` begins with. A text of up to 12 bytes takes no memory, and one of
    /// up to 70 bytes takes it once.
    #[inline(always)]
    pub fn front_leaf(
        alloc: Global,
        kind: SyntaxKind,
        text: &str,
        rest: &str,
    ) -> Result<Own, AllocError>
        requires { take (length text.now) rest.now ≡ text.now }
        ensures { IfOk result (λ o. o ≡ leaf_own (leaf_head kind text.now)) }
    {
        Own::leaf_of(alloc, kind, text, ShortText::front(text, rest))
    }

    /// What a new leaf keeps, by its text and, if that is short enough, its copy in place.
    #[inline(always)]
    fn leaf_of(
        alloc: Global,
        kind: SyntaxKind,
        text: &str,
        short: Option<ShortText<12>>,
    ) -> Result<Own, AllocError>
        requires { MatchOption short (12 < length text.now) (λ t. t ≡ text.now) }
        ensures { IfOk result (λ o. o ≡ leaf_own (leaf_head kind text.now)) }
    {
        let repr = match short {
            Some(short) => Repr::ShortLeaf(kind, short),
            None if text.len() <= 70 => {
                Repr::BoxedLeaf(kind, text.len() as u16, boxed(alloc, text)?)
            }
            None => Repr::LongLeaf(kind, kept(text.len()) as u32, long(alloc, text)?),
        };
        Ok(Own {
            span: Span::detached(),
            repr,
        })
    }

    /// What a new inner node keeps, by the length of its text, the count of its nodes, and whether a node below it
    /// has diagnostics.
    pub fn inner(kind: SyntaxKind, len: usize, descendants: usize, is_marked: bool) -> Own
        ensures { result ≡ inner_own kind len descendants is_marked }
    {
        Own {
            span: Span::detached(),
            repr: Repr::inner(kind, 0, 0, len, descendants, is_marked),
        }
    }

    /// What a new error leaf keeps.
    pub fn error(alloc: Global, message: Text, text: Text) -> Result<Own, AllocError>
        ensures { IfOk result (λ o. o ≡ leaf_own (error_head message text)) }
    {
        let mut diagnostics = Vec::with_capacity(alloc, 1)?;
        diagnostics.push(Diagnostic::error(alloc, message))?;
        let extent = Extent {
            upper: 0,
            len: kept(text.len()),
            descendants: 1,
        };
        let parts = Parts {
            is_inner: false,
            text,
            extent,
            diagnostics,
        };
        Ok(Own {
            span: Span::detached(),
            repr: Repr::Diagnosed(SyntaxKind::Error, Box::new(alloc, parts)?),
        })
    }

    /// A copy. In place where a tree is copied, as most nodes take no memory.
    #[inline(always)]
    pub fn try_clone(&self, alloc: Global) -> Result<Own, AllocError>
        ensures { IfOk result (λ o. o ≡ self.now) }
    {
        let span = self.span;
        match &self.repr {
            Repr::ShortLeaf(kind, text) => Ok(Own {
                span,
                repr: Repr::ShortLeaf(*kind, text.copy()),
            }),
            Repr::BoxedLeaf(kind, len, text) => {
                let text = text.copy();
                Ok(Own {
                    span,
                    repr: Repr::BoxedLeaf(*kind, *len, Box::new(alloc, text)?),
                })
            }
            Repr::LongLeaf(kind, len, text) => {
                let text = text.try_clone(alloc)?;
                Ok(Own {
                    span,
                    repr: Repr::LongLeaf(*kind, *len, Box::new(alloc, text)?),
                })
            }
            Repr::Inner {
                kind,
                upper_high,
                upper_low,
                len,
                descendants,
            } => Ok(Own {
                span,
                repr: Repr::Inner {
                    kind: *kind,
                    upper_high: *upper_high,
                    upper_low: *upper_low,
                    len: *len,
                    descendants: *descendants,
                },
            }),
            Repr::MarkedInner {
                kind,
                upper_high,
                upper_low,
                len,
                descendants,
            } => Ok(Own {
                span,
                repr: Repr::MarkedInner {
                    kind: *kind,
                    upper_high: *upper_high,
                    upper_low: *upper_low,
                    len: *len,
                    descendants: *descendants,
                },
            }),
            Repr::Diagnosed(kind, parts) => {
                let parts = parts.try_clone(alloc)?;
                Ok(Own {
                    span,
                    repr: Repr::Diagnosed(*kind, Box::new(alloc, parts)?),
                })
            }
        }
    }
}

impl Repr {
    /// The parts of an inner node without diagnostics of its own, by the two parts of its upper end.
    #[inline(always)]
    fn inner(
        kind: SyntaxKind,
        upper_high: u16,
        upper_low: u32,
        len: usize,
        descendants: usize,
        is_marked: bool,
    ) -> Repr
        ensures view { (span : SpanValue) → own_of span result ≡ plain_inner span kind (upper_end upper_high upper_low) (kept len) (kept descendants) is_marked }
        ensures small { upper_end upper_high upper_low ≤ 2 ^ 47 → IsOwn result }
    {
        let len = kept(len) as u32;
        let descendants = kept(descendants) as u32;
        if is_marked {
            return Repr::MarkedInner {
                kind,
                upper_high,
                upper_low,
                len,
                descendants,
            };
        }
        Repr::Inner {
            kind,
            upper_high,
            upper_low,
            len,
            descendants,
        }
    }
}

impl Parts {
    fn try_clone(&self, alloc: Global) -> Result<Parts, AllocError>
        ensures { IfOk result (λ p. (p.is_inner ≡ self.now.is_inner) × (p.text ≡ self.now.text) × (p.extent ≡ self.now.extent) × (p.diagnostics.items ≡ self.now.diagnostics.items)) }
    {
        let text = self.text.try_clone(alloc)?;
        let diagnostics = clone_diagnostics(alloc, &self.diagnostics)?;
        Ok(Parts {
            is_inner: self.is_inner,
            text,
            extent: self.extent,
            diagnostics,
        })
    }
}

// Readers.
impl Own {
    /// The node's kind.
    pub fn kind(&self) -> SyntaxKind
        ensures { result ≡ self.now.head.kind }
    {
        match &self.repr {
            Repr::ShortLeaf(kind, _) => *kind,
            Repr::BoxedLeaf(kind, _, _) => *kind,
            Repr::LongLeaf(kind, _, _) => *kind,
            Repr::Inner { kind, .. } => *kind,
            Repr::MarkedInner { kind, .. } => *kind,
            Repr::Diagnosed(kind, _) => *kind,
        }
    }

    /// Whether the node is an inner one.
    pub fn is_inner(&self) -> bool
        ensures { result ≡ self.now.head.is_inner }
    {
        match &self.repr {
            Repr::ShortLeaf(_, _) => false,
            Repr::BoxedLeaf(_, _, _) => false,
            Repr::LongLeaf(_, _, _) => false,
            Repr::Inner { .. } => true,
            Repr::MarkedInner { .. } => true,
            Repr::Diagnosed(_, parts) => parts.is_inner,
        }
    }

    /// The text of a leaf, empty for an inner node.
    pub fn text(&self) -> &str
        ensures { result.now ≡ self.now.head.text }
    {
        match &self.repr {
            Repr::ShortLeaf(_, text) => text.as_str(),
            Repr::BoxedLeaf(_, _, text) => text.as_str(),
            Repr::LongLeaf(_, _, text) => text.as_str(),
            Repr::Inner { .. } => "",
            Repr::MarkedInner { .. } => "",
            Repr::Diagnosed(_, parts) => parts.text.as_str(),
        }
    }

    /// The node's span.
    pub fn span(&self) -> Span
        ensures { result ≡ self.now.head.span }
    {
        self.span
    }

    /// The node's number, or 0 if it is detached.
    pub fn number(&self) -> u64
        ensures value { result ≡ number_of self.now.head.span }
        ensures small { result < 2 ^ 47 }
    {
        self.span.number_or_zero()
    }

    /// The node's errors and warnings, in the order in which they were given.
    pub fn diagnostics(&self) -> &[Diagnostic]
        ensures { result.now ≡ self.now.head.diagnostics }
    {
        match &self.repr {
            Repr::ShortLeaf(_, _) => &[],
            Repr::BoxedLeaf(_, _, _) => &[],
            Repr::LongLeaf(_, _, _) => &[],
            Repr::Inner { .. } => &[],
            Repr::MarkedInner { .. } => &[],
            Repr::Diagnosed(_, parts) => parts.diagnostics.as_slice(),
        }
    }

    /// Whether the node is marked: it or a node below it has an error or a warning. The variants tell it.
    #[inline(always)]
    pub fn is_marked(&self) -> bool
        ensures { result ≡ self.now.is_marked }
    {
        match &self.repr {
            Repr::ShortLeaf(_, _) => false,
            Repr::BoxedLeaf(_, _, _) => false,
            Repr::LongLeaf(_, _, _) => false,
            Repr::Inner { .. } => false,
            Repr::MarkedInner { .. } => true,
            Repr::Diagnosed(_, _) => true,
        }
    }

    /// The length of the node's text, as it is kept. Short leaves and inner nodes, as most nodes are, are read in
    /// place: two comparisons take no table of jumps, as a `match` does.
    #[inline(always)]
    pub fn len(&self) -> usize
        ensures { result ≡ self.now.len }
    {
        if let Repr::ShortLeaf(_, text) = &self.repr {
            return text.len();
        }
        if let Repr::Inner { len, .. } = &self.repr {
            return *len as usize;
        }
        self.len_apart()
    }

    /// The length of the text that a node of any kind keeps.
    #[inline(never)]
    fn len_apart(&self) -> usize
        ensures { result ≡ self.now.len }
    {
        match &self.repr {
            Repr::ShortLeaf(_, text) => text.len(),
            Repr::BoxedLeaf(_, len, _) => *len as usize,
            Repr::LongLeaf(_, len, _) => *len as usize,
            Repr::Inner { len, .. } => *len as usize,
            Repr::MarkedInner { len, .. } => *len as usize,
            Repr::Diagnosed(_, parts) => parts.extent.len,
        }
    }

    /// The count of the node and those below it, as it is kept. Short leaves and inner nodes are read in place, by
    /// comparisons too.
    #[inline(always)]
    pub fn descendants(&self) -> usize
        ensures { result ≡ self.now.descendants }
    {
        if let Repr::ShortLeaf(_, _) = &self.repr {
            return 1;
        }
        if let Repr::Inner { descendants, .. } = &self.repr {
            return *descendants as usize;
        }
        self.descendants_apart()
    }

    /// The count of nodes that a node of any kind keeps.
    #[inline(never)]
    fn descendants_apart(&self) -> usize
        ensures { result ≡ self.now.descendants }
    {
        match &self.repr {
            Repr::ShortLeaf(_, _) => 1,
            Repr::BoxedLeaf(_, _, _) => 1,
            Repr::LongLeaf(_, _, _) => 1,
            Repr::Inner { descendants, .. } => *descendants as usize,
            Repr::MarkedInner { descendants, .. } => *descendants as usize,
            Repr::Diagnosed(_, parts) => parts.extent.descendants,
        }
    }

    /// The node's upper end: the bound of the numbers below it, or 0 for a leaf.
    pub fn upper(&self) -> u64
        ensures value { result ≡ self.now.head.upper }
        ensures small { result ≤ 2 ^ 47 }
    {
        match &self.repr {
            Repr::ShortLeaf(_, _) => 0,
            Repr::BoxedLeaf(_, _, _) => 0,
            Repr::LongLeaf(_, _, _) => 0,
            Repr::Inner {
                upper_high,
                upper_low,
                ..
            } => upper_end(*upper_high, *upper_low),
            Repr::MarkedInner {
                upper_high,
                upper_low,
                ..
            } => upper_end(*upper_high, *upper_low),
            Repr::Diagnosed(_, parts) => parts.extent.upper,
        }
    }

    /// Whether the heads are the same, spans and upper ends aside.
    pub fn same_bare(&self, other: &Own) -> bool
        ensures { IsTrue result ↔ (bare_head self.now.head ≡ bare_head other.now.head) }
    {
        if !self.kind().same(other.kind()) {
            return false;
        }
        if self.is_inner() != other.is_inner() {
            return false;
        }
        if self.text() != other.text() {
            return false;
        }
        same_diagnostics(self.diagnostics(), other.diagnostics())
    }
}

// What changes a node.
impl Own {
    /// Gives the node another kind.
    pub fn set_kind(&mut self, kind: SyntaxKind)
        ensures { self.new ≡ with_head self.old (record self.old.head { kind = kind }) }
    {
        match &mut self.repr {
            Repr::ShortLeaf(old, _) => *old = kind,
            Repr::BoxedLeaf(old, _, _) => *old = kind,
            Repr::LongLeaf(old, _, _) => *old = kind,
            Repr::Inner { kind: old, .. } => *old = kind,
            Repr::MarkedInner { kind: old, .. } => *old = kind,
            Repr::Diagnosed(old, _) => *old = kind,
        }
    }

    /// Gives the node a span, and the upper end if it is an inner node.
    pub fn locate(&mut self, span: Span, upper: u64)
        requires { upper ≤ 2 ^ 47 }
        ensures { self.new ≡ with_head self.old (located span upper self.old.head) }
    {
        self.span = span;
        match &mut self.repr {
            Repr::ShortLeaf(_, _) => {}
            Repr::BoxedLeaf(_, _, _) => {}
            Repr::LongLeaf(_, _, _) => {}
            Repr::Inner {
                upper_high,
                upper_low,
                ..
            } => {
                *upper_high = (upper / 0x1_0000_0000) as u16;
                *upper_low = (upper % 0x1_0000_0000) as u32;
            }
            Repr::MarkedInner {
                upper_high,
                upper_low,
                ..
            } => {
                *upper_high = (upper / 0x1_0000_0000) as u16;
                *upper_low = (upper % 0x1_0000_0000) as u32;
            }
            Repr::Diagnosed(_, parts) => parts.extent.upper = if parts.is_inner {
                upper
            } else {
                0
            },
        }
    }

    /// Gives an inner node the length of its text and the count of its nodes. It is marked if a node below it has
    /// diagnostics, and if it has some itself. Without diagnostics before and after, as in most nodes, both numbers
    /// are written in place.
    pub fn set_counts(&mut self, len: usize, descendants: usize, is_marked: bool)
        requires { self.old.head.is_inner ≡ false → 1 < self.old.descendants }
        ensures { self.new ≡ with_counts self.old len descendants is_marked }
    {
        if is_marked {
            self.set_counts_apart(len, descendants, is_marked);
        } else if let Repr::Inner {
            len: old_len,
            descendants: old_descendants,
            ..
        } = &mut self.repr
        {
            *old_len = kept(len) as u32;
            *old_descendants = kept(descendants) as u32;
        } else {
            self.set_counts_apart(len, descendants, is_marked);
        }
    }

    /// Sets the counts of a node of any kind, as set_counts does.
    #[inline(never)]
    fn set_counts_apart(&mut self, len: usize, descendants: usize, is_marked: bool)
        requires { self.old.head.is_inner ≡ false → 1 < self.old.descendants }
        ensures { self.new ≡ with_counts self.old len descendants is_marked }
    {
        match &mut self.repr {
            Repr::ShortLeaf(_, _) => {}
            Repr::BoxedLeaf(_, _, _) => {}
            Repr::LongLeaf(_, _, _) => {}
            Repr::Inner {
                kind,
                upper_high,
                upper_low,
                ..
            } => {
                let (kind, high, low) = (*kind, *upper_high, *upper_low);
                self.repr = Repr::inner(kind, high, low, len, descendants, is_marked);
            }
            Repr::MarkedInner {
                kind,
                upper_high,
                upper_low,
                ..
            } => {
                let (kind, high, low) = (*kind, *upper_high, *upper_low);
                self.repr = Repr::inner(kind, high, low, len, descendants, is_marked);
            }
            Repr::Diagnosed(_, parts) => {
                parts.extent.len = kept(len);
                parts.extent.descendants = kept(descendants);
            }
        }
    }

    /// Gives the node a span, whose number is its upper end.
    pub fn set_span(&mut self, span: Span)
        ensures { self.new ≡ with_head self.old (spanned span self.old.head) }
    {
        self.locate(span, span.number_or_zero());
    }

    /// Adds a diagnostic after the others. After an error nothing has changed.
    pub fn push_diagnostic(
        &mut self,
        alloc: Global,
        diagnostic: Diagnostic,
    ) -> Result<(), AllocError>
        ensures ok { OnOk result (self.new ≡ diagnosed_own diagnostic self.old) }
        ensures err { OnErr result (self.new ≡ self.old) }
    {
        if let Repr::Diagnosed(_, parts) = &mut self.repr {
            parts.diagnostics.push(diagnostic)?;
            return Ok(());
        }
        let mut diagnostics = Vec::with_capacity(alloc, 1)?;
        diagnostics.push(diagnostic)?;
        let parts = Parts {
            is_inner: self.is_inner(),
            text: Text::new(alloc, self.text())?,
            extent: Extent {
                upper: self.upper(),
                len: self.len(),
                descendants: self.descendants(),
            },
            diagnostics,
        };
        self.repr = Repr::Diagnosed(self.kind(), Box::new(alloc, parts)?);
        Ok(())
    }

    /// Adds a hint after those of the last diagnostic, if there is one. After an error nothing has changed.
    pub fn push_hint(&mut self, hint: Hint) -> Result<(), AllocError>
        ensures ok { OnOk result (self.new ≡ with_head self.old (helped hint self.old.head)) }
        ensures err { OnErr result (self.new ≡ self.old) }
    {
        if let Repr::Diagnosed(_, parts) = &mut self.repr {
            push_last(&mut parts.diagnostics, hint)?;
            return Ok(());
        }
        Ok(())
    }
}

/// Adds a hint to the last of the diagnostics, if there is one. After an error nothing has changed.
fn push_last(diagnostics: &mut Vec<Diagnostic>, hint: Hint) -> Result<(), AllocError>
    ensures ok { OnOk result (diagnostics.new.items ≡ at_last (hinted hint) diagnostics.old.items) }
    ensures err { OnErr result (diagnostics.new.items ≡ diagnostics.old.items) }
{
    let count = diagnostics.len();
    if count == 0 {
        return Ok(());
    }
    let last = &mut diagnostics[count - 1];
    last.push_hint(hint)?;
    Ok(())
}
