//! Kinds, tags and flags as numbers.

ghost use Rattle.std.specs.Prelude.{◌≡◌, ◌^◌, ◌<◌, IsTrue, true, if◌then◌else◌};
ghost use Rattle.typst_kinds.specs.Members.{place_of};
ghost use Rattle.typst_kinds.specs.Span.{packed};
ghost use Rattle.typst_flat.specs.Codes as spec;

use typst_highlight::Tag;
use typst_kinds::{FileId, Span, SpanNumber, SyntaxKind};
use typst_tree::SyntaxNode;

/// A kind as its place among all kinds, from 0 on.
#[tactic(auto, unfolding(typst_kinds::specs::Members::place_of))]
pub fn kind_code(kind: SyntaxKind) -> u8
    ensures { result ≡ place_of kind }
{
    kind as u8
}

/// A tag as its place among all tags, from 1 on, and none as 0.
pub fn tag_code(tag: Option<Tag>) -> u8
    ensures { result ≡ spec.tag_code tag }
{
    match tag {
        None => 0,
        Some(Tag::Comment) => 1,
        Some(Tag::Punctuation) => 2,
        Some(Tag::Escape) => 3,
        Some(Tag::Strong) => 4,
        Some(Tag::Emph) => 5,
        Some(Tag::Link) => 6,
        Some(Tag::Raw) => 7,
        Some(Tag::Label) => 8,
        Some(Tag::Ref) => 9,
        Some(Tag::Heading) => 10,
        Some(Tag::ListMarker) => 11,
        Some(Tag::ListTerm) => 12,
        Some(Tag::MathDelimiter) => 13,
        Some(Tag::MathOperator) => 14,
        Some(Tag::MathGroupingParens) => 15,
        Some(Tag::Keyword) => 16,
        Some(Tag::Operator) => 17,
        Some(Tag::Number) => 18,
        Some(Tag::String) => 19,
        Some(Tag::Function) => 20,
        Some(Tag::Interpolated) => 21,
        Some(Tag::Error) => 22,
    }
}

/// The file and the number of a span in one number, and 0 for a detached span.
pub(crate) fn span_code(span: Span) -> u64
    ensures { result ≡ packed span }
{
    match span.get() {
        None => 0,
        Some((file, number)) => u64::from(file.get()) * (1 << 48) + number.get(),
    }
}

/// The span of a file and a number in one number; the detached one where no node can have them.
pub fn span_of(bits: u64) -> Span
    ensures { result ≡ spec.span_of bits }
{
    let Some(file) = FileId::new((bits >> 48) as u16) else {
        return Span::detached();
    };
    let Some(number) = SpanNumber::new(bits % (1 << 48)) else {
        return Span::detached();
    };
    Span::new(file, number)
}

/// What single bits say of a node. Only that of a node that isn't usual is asked for so.
#[cold]
#[inline(never)]
pub(crate) fn flags(node: &SyntaxNode) -> u8
    ensures { result ≡ spec.flags_of node.now.head }
{
    let inner = if node.is_inner() { 1 } else { 0 };
    let error = if node.kind().is_error() { 2 } else { 0 };
    let remarked = if node.diagnostics().is_empty() { 0 } else { 4 };
    inner + error + remarked
}

/// Whether a node is no error, and has no diagnostics at it and below it, as most. Of such a node single bits tell
/// no more than whether it is an inner one.
#[tactic(auto, using(crate::proofs::Marks::usual_flags))]
#[inline(always)]
pub(crate) fn is_usual(node: &SyntaxNode) -> bool
    ensures { IsTrue result → spec.flags_of node.now.head ≡ (if node.now.head.is_inner then 1 else 0) }
{
    if node.has_diagnostics() {
        return false;
    }
    !node.kind().is_error()
}

/// A number in 32 bits.
pub(crate) fn narrow(n: usize) -> u32
    ensures { result ≡ spec.cut n }
{
    if n < 4_294_967_295 {
        n as u32
    } else {
        4_294_967_295
    }
}

/// A number in 32 bits. Of one that is known to fit that isn't asked.
#[inline(always)]
pub(crate) fn narrow_known(n: usize, fits: bool) -> u32
    requires { fits ≡ true → n < 2 ^ 32 }
    ensures { result ≡ spec.cut n }
{
    if fits { n as u32 } else { narrow(n) }
}
