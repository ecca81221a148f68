//! Laws of replacing, each the contract of a function that does nothing.
ghost use Rattle.typst_tree.specs.Laws as law;

/// The new tree is, spans aside, the old one with the children replaced.
pub fn replaces_children()
    ensures { law.ReplacesChildren }
{}

/// The text of the new tree is the old text with the stretch of the children replaced.
pub fn replaces_text()
    ensures { law.ReplacesText }
{}

/// A node outside the stretch of children that is numbered again keeps its number.
pub fn keeps_others()
    ensures { law.KeepsOthers }
{}

/// Numbers that were distinct and in order stay so.
pub fn keeps_order()
    ensures { law.KeepsOrder }
{}

/// Replacing is refused only at a node without a file, or with fewer numbers than nodes below it.
pub fn refuses_full()
    ensures { law.RefusesFull }
{}
