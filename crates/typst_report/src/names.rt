//! Names of files that are in a list.

ghost use Rattle.std.specs.Prelude.{◌≡◌, ◌++◌, IfOk, OnOk, map};
ghost use Rattle.typst_report.specs.Names as spec;

use std::alloc::{AllocError, Global};

/// The names in a list. NUL bytes end them if there is one, as `git` and `find` write it, and else newlines. What
/// is empty isn't a name.
pub fn names_in(alloc: Global, list: &[u8]) -> Result<Vec<Vec<u8>>, AllocError>
    ensures { IfOk result (λ names. map (λ name. name.items) names.items ≡ spec.names_in list.now) }
{
    let end = end_of_names(list);
    let mut names = Vec::new(alloc);
    let mut name = Vec::new(alloc);
    for byte in list {
        if *byte == end {
            push_name(&mut names, name)?;
            name = Vec::new(alloc);
        } else {
            name.push(*byte)?;
        }
    }
    push_name(&mut names, name)?;
    Ok(names)
}

/// The byte that ends names in the list.
fn end_of_names(list: &[u8]) -> u8
    ensures { result ≡ spec.end_of_names list.now }
{
    if list.contains(&0) { 0 } else { b'\n' }
}

/// Adds what was read of a name, unless it is empty.
fn push_name(names: &mut Vec<Vec<u8>>, name: Vec<u8>) -> Result<(), AllocError>
    ensures { OnOk result (map (λ name. name.items) names.new.items ≡ map (λ name. name.items) names.old.items ++ spec.named name.items) }
{
    if !name.is_empty() {
        names.push(name)?;
    }
    Ok(())
}
