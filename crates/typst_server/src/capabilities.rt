//! What the server says of itself.
ghost use Rattle.std.specs.Prelude.{◌≡◌, IfOk, OnOk};
ghost use Rattle.std.specs.String.{string_bytes};
ghost use Rattle.typst_protocol.specs.Parameters as parameters;
ghost use Rattle.typst_server.specs.Numbers as spec;
ghost use Rattle.typst_server.specs.Results.{Grows, Names, encoding_name};

use std::alloc::{AllocError, Global};
use typst_positions::Encoding;
use typst_protocol::Params;
use typst_styles::TokenKind;

/// The names of the types of tokens, each at the place of its number.
const TYPES: &str =
    "[\"comment\",\"keyword\",\"operator\",\"number\",\"string\",\"function\",\"variable\",\"punctuation\",\"escape\",\"strong\",\"emph\",\"link\",\"raw\",\"label\",\"ref\",\"heading\",\"marker\",\"term\",\"delimiter\",\"error\",\"parameter\",\"property\",\"namespace\"]";

/// The number of a type of token.
pub fn number_of(kind: TokenKind) -> u32
    ensures { result ≡ spec.number_of kind }
{
    match kind {
        TokenKind::Comment => 0,
        TokenKind::Keyword => 1,
        TokenKind::Operator => 2,
        TokenKind::Number => 3,
        TokenKind::String => 4,
        TokenKind::Function => 5,
        TokenKind::Variable => 6,
        TokenKind::Punctuation => 7,
        TokenKind::Escape => 8,
        TokenKind::Strong => 9,
        TokenKind::Emph => 10,
        TokenKind::Link => 11,
        TokenKind::Raw => 12,
        TokenKind::Label => 13,
        TokenKind::Ref => 14,
        TokenKind::Heading => 15,
        TokenKind::Marker => 16,
        TokenKind::Term => 17,
        TokenKind::Delimiter => 18,
        TokenKind::Error => 19,
        TokenKind::Parameter => 20,
        TokenKind::Property => 21,
        TokenKind::Namespace => 22,
    }
}

/// The modifiers of a token as bits: the only one says that it binds a name.
pub fn modifiers_of(is_declaration: bool) -> u32
    ensures { result ≡ spec.modifiers_of is_declaration }
{
    if is_declaration { 1 } else { 0 }
}

/// The name of an encoding.
fn name_of(encoding: Encoding) -> &'static str
    ensures { result.now ≡ encoding_name encoding }
{
    match encoding {
        Encoding::Utf8 => "utf-8",
        Encoding::Utf16 => "utf-16",
    }
}

/// The answer to `initialize`: what the server can do for a client with these parameters, and first the
/// encoding in which columns are counted.
pub fn capabilities(alloc: Global, params: Params<'_>) -> Result<String, AllocError>
    ensures { IfOk result (λ text. Names (parameters.encoding (parameters.seen params.entry)) (string_bytes text)) }
{
    let mut text = String::from_str(alloc, "{\"capabilities\":{\"positionEncoding\":\"")?;
    text.push_str(name_of(params.encoding()))?;
    text.push_str("\",")?;
    push_providers(&mut text, params)?;
    Ok(text)
}

/// What the server can do for every client, an entry or more in each part.
static PROVIDERS: [&str; 8] = [
    "\"textDocumentSync\":{\"openClose\":true,\"change\":2},",
    "\"documentSymbolProvider\":true,\"workspaceSymbolProvider\":true,",
    "\"foldingRangeProvider\":true,\"selectionRangeProvider\":true,",
    "\"definitionProvider\":true,\"referencesProvider\":true,\"documentHighlightProvider\":true,",
    "\"hoverProvider\":true,",
    "\"completionProvider\":{\"triggerCharacters\":[\"@\",\"<\",\"#\"]},",
    "\"documentLinkProvider\":{},",
    "\"documentOnTypeFormattingProvider\":{\"firstTriggerCharacter\":\"\\n\"},",
];

/// What can be done about a stretch, for clients that take it as edits.
const ACTIONS: &str = "\"codeActionProvider\":{\"codeActionKinds\":[\"quickfix\"]},";

/// Errors and warnings, for clients that ask for them.
const DIAGNOSTICS: &str =
    "\"diagnosticProvider\":{\"interFileDependencies\":false,\"workspaceDiagnostics\":false},";

/// An entry, for a client that takes it.
fn if_taken(is_taken: bool, entry: &'static str) -> &'static str {
    if is_taken { entry } else { "" }
}

/// Renames: a client that doesn't ask whether a name can be renamed isn't told that it may.
fn rename_provider(is_prepared: bool) -> &'static str {
    if is_prepared {
        "\"renameProvider\":{\"prepareProvider\":true},"
    } else {
        "\"renameProvider\":true,"
    }
}

/// Adds what the server can do in every encoding.
fn push_providers(text: &mut String, params: Params<'_>) -> Result<(), AllocError>
    ensures { OnOk result (Grows (string_bytes text.old) (string_bytes text.new)) }
{
    push_all(text, &PROVIDERS)?;
    text.push_str(rename_provider(params.prepares_renames()))?;
    text.push_str(if_taken(params.takes_actions(), ACTIONS))?;
    text.push_str(if_taken(params.asks_diagnostics(), DIAGNOSTICS))?;
    text.push_str("\"semanticTokensProvider\":{\"legend\":{\"tokenTypes\":")?;
    text.push_str(TYPES)?;
    text.push_str(
        ",\"tokenModifiers\":[\"declaration\"]},\"range\":true,\"full\":{\"delta\":true}}},",
    )?;
    text.push_str("\"serverInfo\":{\"name\":\"typst_lsp\"}}")?;
    Ok(())
}

/// Adds some texts, one after the other.
fn push_all(text: &mut String, parts: &[&str]) -> Result<(), AllocError>
    ensures { OnOk result (Grows (string_bytes text.old) (string_bytes text.new)) }
{
    for part in parts {
        text.push_str(part)?;
    }
    Ok(())
}
