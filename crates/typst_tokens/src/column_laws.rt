//! A law of the definitions, the contract of a function that does nothing.
ghost use Rattle.typst_tokens.specs.ColumnLaws as law;

/// The frame law of columns: a column depends on its look alone.
pub fn column_frame_law()
    ensures { law.ColumnFrame }
{}
