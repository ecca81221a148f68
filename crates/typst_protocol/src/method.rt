//! What requests and notifications are about.

ghost use Rattle.std.specs.Prelude.{◌≡◌};
ghost use Rattle.typst_protocol.specs.Methods.{events, methods, named};

/// What a request asks.
#[derive(Debug, Clone, Copy, PartialEq, Eq)]
pub enum Method {
    /// To begin a session.
    Initialize,
    /// To end it.
    Shutdown,
    /// All tokens.
    TokensFull,
    /// What has changed of the tokens.
    TokensDelta,
    /// The tokens of a stretch.
    TokensRange,
    /// The outline.
    Symbols,
    /// What can be folded.
    Foldings,
    /// What can be selected around some positions.
    Selections,
    /// The labels of a name.
    Definition,
    /// The references to a name.
    References,
    /// The labels and references of a name.
    Highlights,
    /// To give a name another one.
    Rename,
    /// Whether the name at a position can be given another one.
    PrepareRename,
    /// What is known of what stands at a position.
    Hover,
    /// What a word may become.
    Completion,
    /// What leads elsewhere.
    DocumentLinks,
    /// What can be done about a stretch.
    CodeActions,
    /// The errors and warnings.
    Diagnostics,
    /// What is to be edited after a character that was typed.
    OnTypeFormatting,
    /// What all documents define by a name.
    WorkspaceSymbols,
}

impl Method {
    /// The request with a name.
    pub fn of(name: &str) -> Option<Method>
        ensures { result ≡ named methods name.now }
    {
        match name {
            "initialize" => Some(Method::Initialize),
            "shutdown" => Some(Method::Shutdown),
            "textDocument/semanticTokens/full" => Some(Method::TokensFull),
            "textDocument/semanticTokens/full/delta" => Some(Method::TokensDelta),
            "textDocument/semanticTokens/range" => Some(Method::TokensRange),
            "textDocument/documentSymbol" => Some(Method::Symbols),
            "textDocument/foldingRange" => Some(Method::Foldings),
            "textDocument/selectionRange" => Some(Method::Selections),
            "textDocument/definition" => Some(Method::Definition),
            "textDocument/references" => Some(Method::References),
            "textDocument/documentHighlight" => Some(Method::Highlights),
            "textDocument/rename" => Some(Method::Rename),
            "textDocument/prepareRename" => Some(Method::PrepareRename),
            "textDocument/hover" => Some(Method::Hover),
            "textDocument/completion" => Some(Method::Completion),
            "textDocument/documentLink" => Some(Method::DocumentLinks),
            "textDocument/codeAction" => Some(Method::CodeActions),
            "textDocument/diagnostic" => Some(Method::Diagnostics),
            "textDocument/onTypeFormatting" => Some(Method::OnTypeFormatting),
            "workspace/symbol" => Some(Method::WorkspaceSymbols),
            _ => None,
        }
    }
}

/// What a notification is about, where the server acts on it.
#[derive(Debug, Clone, Copy, PartialEq, Eq)]
pub enum Event {
    /// A document was opened.
    Opened,
    /// A document's text was changed.
    Changed,
    /// A document was closed.
    Closed,
    /// The server is to end.
    Exit,
}

impl Event {
    /// The notification with a name.
    pub fn of(name: &str) -> Option<Event>
        ensures { result ≡ named events name.now }
    {
        match name {
            "textDocument/didOpen" => Some(Event::Opened),
            "textDocument/didChange" => Some(Event::Changed),
            "textDocument/didClose" => Some(Event::Closed),
            "exit" => Some(Event::Exit),
            _ => None,
        }
    }
}
