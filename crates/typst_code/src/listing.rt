//! What is known of the items in parens.

ghost use Rattle.std.specs.Prelude.{◌≡◌, Some, IfOk, OnOk, IsTrue, false};
ghost use Rattle.typst_kinds.specs.Kinds.{is_error};
ghost use Rattle.typst_code.specs.Groups as spec;

use std::alloc::{AllocError, Global};
use typst_kinds::{Names, SyntaxKind};
use typst_markup::Key;

/// What is known of the items in parens so far, which decides what the parens are: an array, a dictionary or an
/// expression in parens.
#[derive(Drop)]
pub struct ParenItems {
    /// Whether there is any.
    pub any: bool,
    /// Whether they may be one expression in parens: no comma, no spread, no pair, no second item.
    pub is_plain: bool,
    /// Whether they are pairs, once that is decided.
    pub are_pairs: Option<bool>,
    /// The keys that were seen.
    pub keys: Names,
}

impl ParenItems {
    /// What is known before the first item; a colon first makes the items a dictionary's.
    pub(crate) fn new(alloc: Global, colon: bool) -> ParenItems
        ensures { result ≡ spec.no_items colon }
    {
        ParenItems {
            any: false,
            is_plain: true,
            are_pairs: if colon { Some(true) } else { None },
            keys: Names::new(alloc),
        }
    }

    /// What was found, with a spread.
    pub(crate) fn with_spread(self) -> ParenItems
        ensures { result ≡ spec.with_spread self }
    {
        let mut items = self;
        items.any = true;
        items.is_plain = false;
        items
    }

    /// What was found, with one more item, which has a key if it is a pair.
    pub(crate) fn with_item(self, key: Option<Key>) -> Result<ParenItems, AllocError>
        ensures { IfOk result (λ items. items ≡ spec.with_item self key) }
    {
        let mut items = self;
        items.is_plain = items.is_plain && !items.any && key.is_none();
        items.any = true;
        if items.are_pairs.is_none() {
            items.are_pairs = Some(key.is_some());
        }
        if let Some(key) = key {
            add_key(&mut items.keys, key)?;
        }
        Ok(items)
    }

    /// What was found, after a comma or none.
    pub(crate) fn with_comma(self, comma: bool) -> ParenItems
        ensures { result ≡ spec.with_comma comma self }
    {
        let mut items = self;
        items.is_plain = items.is_plain && !comma;
        items
    }

    /// What the items in parens are.
    pub(crate) fn kind(&self) -> SyntaxKind
        ensures kind { result ≡ spec.group_kind self.now }
        ensures fine { is_error result ≡ false }
    {
        if self.any && self.is_plain {
            return SyntaxKind::Parenthesized;
        }
        match self.are_pairs {
            Some(true) => SyntaxKind::Dict,
            Some(false) => SyntaxKind::Array,
            None => SyntaxKind::Array,
        }
    }
}

fn add_key(keys: &mut Names, key: Key) -> Result<(), AllocError>
    ensures { OnOk result (keys.new ≡ spec.with_key keys.old key) }
{
    match key {
        Key::Name(name) => keys.add(name)?,
        Key::Str(text) => keys.add(text)?,
        Key::Other => {}
    }
    Ok(())
}
