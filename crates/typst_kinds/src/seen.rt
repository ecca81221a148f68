//! The names that were seen so far, as of arguments or parameters.

ghost use Rattle.std.specs.Prelude.{◌≡◌, [], OnOk};
ghost use Rattle.typst_kinds.specs.SeenNames as spec;

use crate::Text;
use std::alloc::{AllocError, Global};
use std::marker::Model;

/// The names that were seen so far, each once.
#[derive(Drop)]
pub struct Names {
    names: Vec<Text>,
}

impl Model for Names {
    ghost use Rattle.std.specs.Prelude.{List, ℕ};

    ghost Value = { List (List ℕ) };

    ghost view = { λ n. n.names.items };
}

impl Names {
    /// No names, for which no memory is taken.
    pub fn new(alloc: Global) -> Names
        ensures { result ≡ [] }
    {
        Names {
            names: Vec::new(alloc),
        }
    }

    /// Whether the name was seen. Goes through the names.
    pub fn has(&self, name: &str) -> bool
        ensures { result ≡ spec.has_name self.now name.now }
    {
        self.names.as_slice().iter().any(|n| n.as_str() == name)
    }

    /// Adds the name, which is moved, unless it was seen.
    pub fn add(&mut self, name: Text) -> Result<(), AllocError>
        ensures { OnOk result (self.new ≡ spec.with_name self.old name) }
    {
        if self.has(name.as_str()) {
            return Ok(());
        }
        self.names.push(name)?;
        Ok(())
    }
}
