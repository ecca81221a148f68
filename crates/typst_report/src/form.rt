//! What can be printed about a text.

/// How errors and warnings are printed.
#[derive(Debug, Clone, Copy, PartialEq, Eq)]
pub enum Format {
    /// A line for each, as compilers print them, with colours or without.
    Short { color: bool },
    /// A JSON object a line for each.
    Ndjson,
    /// A workflow command of GitHub for each.
    Github,
}

/// What is printed about a file.
#[derive(Debug, Clone, Copy, PartialEq, Eq)]
pub enum Form {
    /// The file's errors and warnings.
    Findings(Format),
    /// The file's tree, a JSON object a line for each node.
    Tree,
    /// The file's text as an HTML page.
    Page,
    /// Nothing.
    Nothing,
}

/// How files are checked.
#[derive(Debug, Clone, Copy, PartialEq, Eq)]
pub struct Options {
    /// What is printed about each.
    pub form: Form,
    /// How many of the errors and warnings of each are printed at most, if there is a limit.
    pub most: Option<usize>,
    /// Whether warnings fail as errors do.
    pub denies_warnings: bool,
}
