//! The functions that C calls.
//!
//! C passes a source as the pointer that it was given, and keeps it: each call but `typst_source_free` takes the
//! source out of its handle and gives it back. No two calls have the same source at a time.

ghost use Rattle.std.specs.Prelude.{◌≡◌, ◌^◌, ◌-◌, ◌<◌, ◌≤◌, ◌↔◌, [], MatchResult, Some, length, ℕ};
ghost use Rattle.std.specs.Str.{IsCharBoundary, chars};
ghost use Rattle.typst_kinds.specs.Members.{place_of};
ghost use Rattle.typst_kinds.specs.Names.{name_of};
ghost use Rattle.typst_kinds.specs.declared.kind.SyntaxKind.{SyntaxKind};
ghost use Rattle.typst_highlight.specs.Tags.{class_of};
ghost use Rattle.typst_highlight.specs.declared.tags.Tag.{Tag};
ghost use Rattle.typst_parser.specs.Grammar.{tree};
ghost use Rattle.typst_parser.specs.Html.{html_of};
ghost use Rattle.typst_parser.specs.Tree.{Tree, nodes, saturated, text_of};
ghost use Rattle.typst_parser.specs.UnicodeTables.{unicode_classes};
ghost use Rattle.typst_flat.specs.Codes.{tag_code};
ghost use Rattle.typst_flat.specs.Records.{filled, records, records_in};
ghost use Rattle.typst_flat.specs.Said as flat;
ghost use Rattle.typst_c.specs.Edited.{IsEdited, IsReplaced};
ghost use Rattle.typst_c.specs.Names.{IsPut};
ghost use Rattle.typst_c.specs.Positions.{IsByteAt, position_of};
ghost use Rattle.typst_c.specs.Refusals.{RefusesByte, RefusesEdit, RefusesPage, RefusesParse, RefusesPosition, RefusesRecords, RefusesReplace, RefusesText};
ghost use Rattle.typst_c.specs.Refusals as spec;
ghost use Rattle.typst_c.specs.Trees.{IsTold, range_with, tree_as};
ghost use Rattle.typst_c.specs.declared.refusal.Refusal.{Refusal};

use crate::answers::{Sizes, put_all, put_nodes, put_nodes_in, put_remarks, sizes_of};
use crate::handle::Handle;
use crate::kept::{Kept, movable};
use crate::names::{number_of_kind, put_kind, put_tag};
use crate::opened::Opened;
use crate::positions::{Position, byte_at, position_of};
use crate::refusal::{OK, Refusal, code_of};
use crate::work::{copy, edit, make, page, parse_as, range_with, replace};
use std::alloc::Global;
use std::ops::Range;
use typst_flat::{Node, Remark, Said, Stretch, fill_text, kind_count};

/// The version of what this file exports, and of the records.
#[unsafe(no_mangle)]
pub extern "C" fn typst_abi_version() -> u32
    ensures { result ≡ 1 }
{
    1
}

/// How many kinds of nodes there are. The numbers below are theirs.
#[unsafe(no_mangle)]
pub extern "C" fn typst_kind_count() -> usize
    ensures { (code : ℕ) → (code < result) ↔ ((kind : SyntaxKind) × (place_of kind ≡ code)) }
{
    kind_count()
}

/// Puts the name of a kind into an array, as many bytes as fit, and answers how many there are: none where
/// there is no such kind.
#[unsafe(no_mangle)]
pub extern "C" fn typst_kind_name(code: u32, room: &mut [u8]) -> usize
    ensures named { (kind : SyntaxKind) → place_of kind ≡ code → IsPut (name_of kind) result room.old room.new }
    ensures none { ((kind : SyntaxKind) → place_of kind ≡ code → ⊥) → IsPut [] result room.old room.new }
{
    put_kind(code, room)
}

/// The number of the kind of a name, and the largest `u32` where there is none.
#[unsafe(no_mangle)]
pub extern "C" fn typst_kind_of(name: &[u8]) -> u32
    ensures named { result < 2 ^ 32 - 1 → ((kind : SyntaxKind) × ((place_of kind ≡ result) × (name_of kind ≡ name.now))) }
    ensures none { 2 ^ 32 - 1 ≤ result → (kind : SyntaxKind) → name_of kind ≡ name.now → ⊥ }
{
    number_of_kind(name)
}

/// Puts the class in HTML of a tag into an array, as many bytes as fit, and answers how many there are: none
/// where there is no such tag.
#[unsafe(no_mangle)]
pub extern "C" fn typst_tag_name(code: u32, room: &mut [u8]) -> usize
    ensures named { (tag : Tag) → tag_code (Some tag) ≡ code → IsPut (class_of tag) result room.old room.new }
    ensures none { ((tag : Tag) → tag_code (Some tag) ≡ code → ⊥) → IsPut [] result room.old room.new }
{
    put_tag(code, room)
}

/// Parses a text as markup (0), code (1) or a formula (2), puts the records of its nodes into an array, as many
/// as fit, and reports how many there are.
#[unsafe(no_mangle)]
pub extern "C" fn typst_parse(
    alloc: Global,
    mode: u32,
    text: &[u8],
    room: &mut [Node],
    count: &mut usize,
) -> u32
    ensures count { result ≡ 0 → (root : Tree) → tree_as mode text.now ≡ Some root → count.new ≡ nodes root }
    ensures room { result ≡ 0 → (root : Tree) → tree_as mode text.now ≡ Some root → room.new ≡ filled (records root) room.old }
    ensures refused { (refusal : Refusal) → result ≡ spec.code_of refusal → RefusesParse mode text.now refusal }
    ensures known { spec.IsCode result }
{
    match parse_as(alloc, mode, text) {
        Ok(root) => counted(put_nodes(alloc, &root, room), count),
        Err(refusal) => code_of(refusal),
    }
}

/// Parses a text as `typst_parse` does, puts the records of its nodes, the remarks and their messages into arrays,
/// as many as fit, and reports how much room all of it takes.
#[unsafe(no_mangle)]
pub extern "C" fn typst_parse_all(
    alloc: Global,
    mode: u32,
    text: &[u8],
    room: &mut [Node],
    remarks: &mut [Remark],
    messages: &mut [u8],
    sizes: &mut Sizes,
) -> u32
    ensures text { result ≡ 0 → (root : Tree) → tree_as mode text.now ≡ Some root → sizes.new.text ≡ saturated (length (text_of root)) }
    ensures nodes { result ≡ 0 → (root : Tree) → tree_as mode text.now ≡ Some root → sizes.new.nodes ≡ nodes root }
    ensures count { result ≡ 0 → (root : Tree) → tree_as mode text.now ≡ Some root → sizes.new.remarks ≡ saturated (length (flat.all_said root)) }
    ensures bytes { result ≡ 0 → (root : Tree) → tree_as mode text.now ≡ Some root → sizes.new.messages ≡ saturated (length (flat.messages root)) }
    ensures room { result ≡ 0 → (root : Tree) → tree_as mode text.now ≡ Some root → room.new ≡ filled (records root) room.old }
    ensures remarks { result ≡ 0 → (root : Tree) → tree_as mode text.now ≡ Some root → remarks.new ≡ filled (flat.remarks root) remarks.old }
    ensures messages { result ≡ 0 → (root : Tree) → tree_as mode text.now ≡ Some root → messages.new ≡ filled (flat.messages root) messages.old }
    ensures refused { (refusal : Refusal) → result ≡ spec.code_of refusal → RefusesParse mode text.now refusal }
    ensures known { spec.IsCode result }
{
    match parse_as(alloc, mode, text) {
        Ok(root) => sized(put_all(alloc, &root, room, remarks, messages), sizes),
        Err(refusal) => code_of(refusal),
    }
}

/// Puts a text of markup as HTML into an array, as many bytes as fit, and reports how many there are.
#[unsafe(no_mangle)]
pub extern "C" fn typst_highlight_html(
    alloc: Global,
    text: &[u8],
    room: &mut [u8],
    count: &mut usize,
) -> u32
    ensures page { result ≡ 0 → IsPut (html_of (tree unicode_classes (chars text.now))) count.new room.old room.new }
    ensures refused { (refusal : Refusal) → result ≡ spec.code_of refusal → RefusesPage text.now refusal }
    ensures known { spec.IsCode result }
{
    match page(alloc, text) {
        Ok(page) => {
            *count = fill_text(page.as_str(), room);
            OK
        }
        Err(refusal) => code_of(refusal),
    }
}

/// Makes a source of a text of a file, and gives it out.
#[unsafe(no_mangle)]
pub extern "C" fn typst_source_new(
    alloc: Global,
    file: u16,
    text: &[u8],
    source: &mut *mut u8,
) -> u32
    ensures refused { (refusal : Refusal) → result ≡ spec.code_of refusal → RefusesText file text.now refusal }
    ensures known { spec.IsCode result }
{
    match make(alloc, file, text) {
        Ok(kept) => give(alloc, kept, source),
        Err(refusal) => code_of(refusal),
    }
}

/// Frees a source.
#[unsafe(no_mangle)]
pub extern "C" fn typst_source_free(source: Handle) {
    let _ = source.take();
}

/// Gives out a copy of a source.
#[unsafe(no_mangle)]
pub extern "C" fn typst_source_clone(alloc: Global, source: Handle, copied: &mut *mut u8) -> u32
    ensures refused { (refusal : Refusal) → result ≡ spec.code_of refusal → refusal ≡ spec.no_memory }
    ensures known { spec.IsCode result }
{
    let kept = source.take();
    let answer = copy(&kept);
    let _ = Handle::give(Opened::open(kept));
    match answer {
        Ok(kept) => give(alloc, kept, copied),
        Err(refusal) => code_of(refusal),
    }
}

/// Puts a text in the place of a range of bytes, and reports which bytes were read again.
#[unsafe(no_mangle)]
pub extern "C" fn typst_source_edit(
    source: Handle,
    start: usize,
    end: usize,
    with: &[u8],
    changed: &mut Stretch,
) -> u32
    ensures refused { (refusal : Refusal) → result ≡ spec.code_of refusal → RefusesEdit source.home.source (record { start = start; end = end }) with.now refusal }
    ensures edited { result ≡ 0 → IsEdited source.home.source (record { start = start; end = end }) with.now changed.new }
    ensures known { spec.IsCode result }
{
    let mut kept = source.take();
    let answer = edit(&mut kept.source, start..end, with);
    let _ = Handle::give(Opened::open(kept));
    read_anew(answer, changed)
}

/// Makes another text the text of a source, and reports which bytes were read again.
#[unsafe(no_mangle)]
pub extern "C" fn typst_source_replace(source: Handle, text: &[u8], changed: &mut Stretch) -> u32
    ensures refused { (refusal : Refusal) → result ≡ spec.code_of refusal → RefusesReplace source.home.source text.now refusal }
    ensures replaced { result ≡ 0 → IsReplaced source.home.source text.now changed.new }
    ensures known { spec.IsCode result }
{
    let mut kept = source.take();
    let answer = replace(&mut kept.source, text);
    let _ = Handle::give(Opened::open(kept));
    read_anew(answer, changed)
}

/// Reports how much room the records of a source take.
#[unsafe(no_mangle)]
pub extern "C" fn typst_source_sizes(alloc: Global, source: Handle, room: &mut Sizes) -> u32
    ensures text { result ≡ 0 → room.new.text ≡ saturated (length (text_of source.home.source.root)) }
    ensures nodes { result ≡ 0 → room.new.nodes ≡ nodes source.home.source.root }
    ensures remarks { result ≡ 0 → room.new.remarks ≡ saturated (length (flat.all_said source.home.source.root)) }
    ensures messages { result ≡ 0 → room.new.messages ≡ saturated (length (flat.messages source.home.source.root)) }
    ensures refused { (refusal : Refusal) → result ≡ spec.code_of refusal → RefusesRecords source.home.source.root refusal }
    ensures known { spec.IsCode result }
{
    let kept = source.take();
    let answer = sizes_of(alloc, kept.source.root());
    let _ = Handle::give(Opened::open(kept));
    sized(answer, room)
}

/// Puts the text into an array, as many bytes as fit, and answers how many there are.
#[unsafe(no_mangle)]
pub extern "C" fn typst_source_text(source: Handle, room: &mut [u8]) -> usize
    ensures count { result ≡ length source.home.source.text }
    ensures room { room.new ≡ filled source.home.source.text room.old }
{
    let kept = source.take();
    let count = fill_text(kept.source.text(), room);
    let _ = Handle::give(Opened::open(kept));
    count
}

/// Puts the records of all nodes into an array, as many as fit, and reports how many there are.
#[unsafe(no_mangle)]
pub extern "C" fn typst_source_nodes(
    alloc: Global,
    source: Handle,
    room: &mut [Node],
    count: &mut usize,
) -> u32
    ensures count { result ≡ 0 → count.new ≡ nodes source.home.source.root }
    ensures room { result ≡ 0 → room.new ≡ filled (records source.home.source.root) room.old }
    ensures refused { (refusal : Refusal) → result ≡ spec.code_of refusal → RefusesRecords source.home.source.root refusal }
    ensures known { spec.IsCode result }
{
    let kept = source.take();
    let answer = put_nodes(alloc, kept.source.root(), room);
    let _ = Handle::give(Opened::open(kept));
    counted(answer, count)
}

/// Puts the records of the nodes that meet a stretch of bytes into an array, as many as fit, and reports how many
/// there are.
#[unsafe(no_mangle)]
pub extern "C" fn typst_source_nodes_in(
    alloc: Global,
    source: Handle,
    start: usize,
    end: usize,
    room: &mut [Node],
    count: &mut usize,
) -> u32
    ensures count { result ≡ 0 → count.new ≡ length (records_in (record { start = start; end = end }) source.home.source.root) }
    ensures room { result ≡ 0 → room.new ≡ filled (records_in (record { start = start; end = end }) source.home.source.root) room.old }
    ensures refused { (refusal : Refusal) → result ≡ spec.code_of refusal → RefusesRecords source.home.source.root refusal }
    ensures known { spec.IsCode result }
{
    let kept = source.take();
    let near = kept.source.boundary();
    let stretch = Stretch { start, end };
    let answer = put_nodes_in(alloc, kept.source.root(), stretch, near, room);
    let _ = Handle::give(Opened::open(kept));
    counted(answer, count)
}

/// Puts the remarks into an array and their messages into another one, as many as fit, and reports how many
/// there are.
#[unsafe(no_mangle)]
pub extern "C" fn typst_source_remarks(
    alloc: Global,
    source: Handle,
    room: &mut [Remark],
    messages: &mut [u8],
    count: &mut Said,
) -> u32
    ensures count { result ≡ 0 → count.new.remarks ≡ saturated (length (flat.all_said source.home.source.root)) }
    ensures bytes { result ≡ 0 → count.new.messages ≡ saturated (length (flat.messages source.home.source.root)) }
    ensures room { result ≡ 0 → room.new ≡ filled (flat.remarks source.home.source.root) room.old }
    ensures messages { result ≡ 0 → messages.new ≡ filled (flat.messages source.home.source.root) messages.old }
    ensures refused { (refusal : Refusal) → result ≡ spec.code_of refusal → RefusesRecords source.home.source.root refusal }
    ensures known { spec.IsCode result }
{
    let kept = source.take();
    let answer = put_remarks(alloc, kept.source.root(), room, messages);
    let _ = Handle::give(Opened::open(kept));
    told(answer, count)
}

/// Reports the bytes of the first node with a span, which is given as a record gives it, and whether there is one.
#[unsafe(no_mangle)]
pub extern "C" fn typst_source_range(
    source: Handle,
    span: u64,
    found: &mut u8,
    range: &mut Stretch,
) -> u32
    ensures code { result ≡ 0 }
    ensures range { IsTold (range_with source.home.source span) found.new range.old range.new }
{
    let kept = source.take();
    let answer = range_with(&kept.source, span);
    let _ = Handle::give(Opened::open(kept));
    *found = tell(answer, range);
    OK
}

/// Reports the line and the columns of a byte.
#[unsafe(no_mangle)]
pub extern "C" fn typst_source_position(source: Handle, byte: usize, position: &mut Position) -> u32
    ensures position { result ≡ 0 → position.new ≡ position_of source.home.source.text byte }
    ensures boundary { result ≡ 0 → IsCharBoundary source.home.source.text byte }
    ensures refused { (refusal : Refusal) → result ≡ spec.code_of refusal → RefusesPosition source.home.source.text byte refusal }
    ensures known { spec.IsCode result }
{
    let kept = source.take();
    let answer = position_of(kept.source.lines(), byte);
    let _ = Handle::give(Opened::open(kept));
    placed(answer, position)
}

/// Reports the byte at a column of a line, which is counted in characters (0), UTF-16 units (1) or bytes (2).
#[unsafe(no_mangle)]
pub extern "C" fn typst_source_byte(
    source: Handle,
    line: usize,
    column: usize,
    unit: u32,
    byte: &mut usize,
) -> u32
    ensures byte { result ≡ 0 → IsByteAt unit source.home.source.text line column byte.new }
    ensures refused { (refusal : Refusal) → result ≡ spec.code_of refusal → RefusesByte unit source.home.source.text line column refusal }
    ensures known { spec.IsCode result }
{
    let kept = source.take();
    let answer = byte_at(kept.source.lines(), line, column, unit);
    let _ = Handle::give(Opened::open(kept));
    counted(answer, byte)
}

/// Gives a source to C, which is refused only for lack of memory. C may pass it on to another thread.
fn give(alloc: Global, kept: Kept, source: &mut *mut u8) -> u32
    ensures refused { (refusal : Refusal) → result ≡ spec.code_of refusal → refusal ≡ spec.no_memory }
    ensures known { spec.IsCode result }
{
    match Box::new(alloc, movable(kept)) {
        Ok(boxed) => {
            *source = Handle::give(Opened::open(boxed));
            OK
        }
        Err(_) => code_of(Refusal::NoMemory),
    }
}

/// Writes a count where C wants it, and answers the code.
fn counted(answer: Result<usize, Refusal>, count: &mut usize) -> u32
    ensures told { MatchResult answer (λ many. (result ≡ 0) × (count.new ≡ many)) (λ refusal. (result ≡ spec.code_of refusal) × (count.new ≡ count.old)) }
    ensures known { spec.IsCode result }
{
    match answer {
        Ok(many) => {
            *count = many;
            OK
        }
        Err(refusal) => code_of(refusal),
    }
}

/// Writes counts of remarks where C wants them, and answers the code.
fn told(answer: Result<Said, Refusal>, room: &mut Said) -> u32
    ensures told { MatchResult answer (λ many. (result ≡ 0) × (room.new ≡ many)) (λ refusal. (result ≡ spec.code_of refusal) × (room.new ≡ room.old)) }
    ensures known { spec.IsCode result }
{
    match answer {
        Ok(many) => {
            *room = many;
            OK
        }
        Err(refusal) => code_of(refusal),
    }
}

/// Writes sizes where C wants them, and answers the code.
fn sized(answer: Result<Sizes, Refusal>, room: &mut Sizes) -> u32
    ensures told { MatchResult answer (λ many. (result ≡ 0) × (room.new ≡ many)) (λ refusal. (result ≡ spec.code_of refusal) × (room.new ≡ room.old)) }
    ensures known { spec.IsCode result }
{
    match answer {
        Ok(many) => {
            *room = many;
            OK
        }
        Err(refusal) => code_of(refusal),
    }
}

/// Writes a range where C wants it, and answers the code.
fn read_anew(answer: Result<Range<usize>, Refusal>, room: &mut Stretch) -> u32
    ensures told { MatchResult answer (λ range. (result ≡ 0) × ((room.new.start ≡ range.start) × (room.new.end ≡ range.end))) (λ refusal. (result ≡ spec.code_of refusal) × (room.new ≡ room.old)) }
    ensures known { spec.IsCode result }
{
    match answer {
        Ok(range) => {
            *room = Stretch {
                start: range.start,
                end: range.end,
            };
            OK
        }
        Err(refusal) => code_of(refusal),
    }
}

/// Writes a position where C wants it, and answers the code.
fn placed(answer: Result<Position, Refusal>, room: &mut Position) -> u32
    ensures told { MatchResult answer (λ position. (result ≡ 0) × (room.new ≡ position)) (λ refusal. (result ≡ spec.code_of refusal) × (room.new ≡ room.old)) }
    ensures known { spec.IsCode result }
{
    match answer {
        Ok(position) => {
            *room = position;
            OK
        }
        Err(refusal) => code_of(refusal),
    }
}

/// Writes a range where C wants it, if there is one, and answers whether there is.
fn tell(answer: Option<Range<usize>>, room: &mut Stretch) -> u8
    ensures { IsTold answer result room.old room.new }
{
    match answer {
        Some(range) => {
            *room = Stretch {
                start: range.start,
                end: range.end,
            };
            1
        }
        None => 0,
    }
}
