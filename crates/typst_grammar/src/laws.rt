//! Laws of the grammar.

ghost use Rattle.typst_lines.specs.Classes.{CharClasses};
ghost use Rattle.typst_grammar.specs.Examples.{CodeTrees, MathTrees, NamedTrees, PatternTrees, Trees};
ghost use Rattle.typst_grammar.specs.Laws.{BlockLaws, CallLaws, CodeLeavesLaw, CountedLaws, DestructuringLaws, GroupLaws, LeavesLaw, MathLeavesLaw, ParamsLaws, PieceLaws, RestLaws, RunLaws, SequenceLaws};
ghost use Rattle.typst_grammar.specs.Notes.{Notes};

/// What holds of every part of the grammar: of a piece, of a text's own run or a content block's, of a run, of
/// another sequence, of a block, and of what is read one level deeper. If all that was asked shows the same at two
/// places, the same is read there from the same state: the value, the characters taken, the state, the nodes, what
/// was asked and noted, and whether the limit of depth was met. Two readings at different depths that meet no
/// limit are the same. The nodes that are given hold the characters that are taken, and no more is taken than
/// there is.
pub fn grammar_laws()
    ensures piece { PieceLaws }
    ensures sequence { SequenceLaws }
    ensures run { RunLaws }
    ensures block { BlockLaws }
    ensures call { CallLaws }
{}

/// What `grammar_laws` says of parts, of each reading of what begins with a paren: as a group, also from after its
/// paren on, as parameters, as a destructuring, and the one of them that counts. So at two depths that meet no
/// limit a first reading finds the same after its parens.
pub fn reading_laws()
    ensures group { GroupLaws }
    ensures rest { RestLaws }
    ensures params { ParamsLaws }
    ensures destructuring { DestructuringLaws }
    ensures counted { CountedLaws }
{}

/// The leaves of the tree of a text, joined, are the text.
pub fn leaves_law()
    ensures markup { LeavesLaw }
    ensures code { CodeLeavesLaw }
    ensures math { MathLeavesLaw }
{}

/// Trees of short texts, which follow from the definitions.
pub fn trees_of_texts()
    ensures { (beyond : CharClasses) → Trees beyond }
{}

/// Trees of short texts with raw texts, links, labels and references.
pub fn trees_of_names()
    ensures { (beyond : CharClasses) → NamedTrees beyond }
{}

/// Trees of short texts with code.
pub fn trees_of_code()
    ensures { (beyond : CharClasses) → CodeTrees beyond }
{}

/// Trees of short texts of code with patterns.
pub fn trees_of_patterns()
    ensures { (beyond : CharClasses) → PatternTrees beyond }
{}

/// Trees of short formulas.
pub fn trees_of_formulas()
    ensures { (beyond : CharClasses) → MathTrees beyond }
{}

/// What is noted of short texts.
pub fn notes_of_texts()
    ensures { (beyond : CharClasses) → Notes beyond }
{}
