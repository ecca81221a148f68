//! What the words ask for.

ghost use Rattle.std.specs.Prelude.{◌≡◌};
ghost use Rattle.typst_lsp.specs.Asked.{further, request_named, shown_by};

use typst_server::ShownErrors;

/// What the words after the program's name ask for.
#[derive(Debug, Clone, Copy, PartialEq, Eq)]
pub enum Request {
    /// A session on standard input and output, which shows these errors.
    Serve(ShownErrors),
    /// The version.
    Version,
    /// How the program is called.
    Help,
}

impl Request {
    /// What one word asks for. `--stdio` says what is done without it, too; editors give it, as the protocol
    /// recommends.
    pub fn from_word(word: &str) -> Option<Request>
        ensures { result ≡ request_named word.now }
    {
        match word {
            "--version" | "-V" => Some(Request::Version),
            "--help" | "-h" => Some(Request::Help),
            _ => session(ShownErrors::WithoutCascades, word),
        }
    }

    /// What is asked for with one more word: only a session has several.
    pub fn with(self, word: &str) -> Option<Request>
        ensures { result ≡ further self word.now }
    {
        match self {
            Request::Serve(errors) => session(errors, word),
            Request::Version => None,
            Request::Help => None,
        }
    }
}

/// A session that a word asks for, if it shows these errors without it.
fn session(errors: ShownErrors, word: &str) -> Option<Request>
    ensures { result ≡ shown_by errors word.now }
{
    match word {
        "--stdio" => Some(Request::Serve(errors)),
        "--all-errors" => Some(Request::Serve(ShownErrors::All)),
        _ => None,
    }
}
