//! Laws of operands.

ghost use Rattle.typst_lines.specs.Classes.{CharClasses};
ghost use Rattle.typst_grammar.specs.Binding.{BindingLaw, Bindings, CodeBindingLaw, MathBindingLaw};

/// In the tree of a text, of a text of code and of the text of a formula, if it has no errors, the left operand of
/// each binary operator binds at least as tightly as the operator, and the right one more tightly, or at least as
/// tightly if the operator is taken from the right.
pub fn binding_law()
    ensures markup { BindingLaw }
    ensures code { CodeBindingLaw }
    ensures math { MathBindingLaw }
{}

/// Which operands bind as their operators ask for, by examples.
pub fn bindings_of_texts()
    ensures { (beyond : CharClasses) → Bindings beyond }
{}
