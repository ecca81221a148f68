//! Laws of candidates and of units.

ghost use Rattle.typst_candidates.specs.Examples.{Examples};
ghost use Rattle.typst_candidates.specs.Nested.{ClosingLaw, InnerRunLaw, TopRunLaw};
ghost use Rattle.typst_candidates.specs.RecordExamples.{RecordExamples};
ghost use Rattle.typst_candidates.specs.Records.{FrontLaw, RearLaw};

/// What edits of short texts may read again, in order.
pub fn candidates_of_texts()
    ensures { Examples }
{}

/// Two numbers decide what an edit asks of the looks around a part, from one note to another: how many of the
/// first notes are with their looks before the replaced bytes, and from which one on all looks begin
/// after them.
pub fn looks_law()
    ensures front { FrontLaw }
    ensures rear { RearLaw }
{}

/// The units of a short text, what decides an edit of it, and the pieces of its runs.
pub fn records_of_texts()
    ensures { RecordExamples }
{}

/// The entries of nested notes say without their levels where the pieces of each run begin, and where a
/// block ends.
pub fn nested_law()
    ensures top { TopRunLaw }
    ensures inner { InnerRunLaw }
    ensures closing { ClosingLaw }
{}
