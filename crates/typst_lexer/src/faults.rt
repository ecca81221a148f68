//! The nodes of tokens with faults: what is said of them.
ghost use Rattle.std.specs.Prelude.{◌≡◌, IfOk, OnOk, string_bytes};
ghost use Rattle.std.specs.Str.{chars};
ghost use Rattle.typst_tree.specs.Tree.{all_advised, error_of};
ghost use Rattle.typst_lexer.specs.Faults as spec;
ghost use Rattle.typst_lexer.specs.Nodes.{fault_node};
ghost use Rattle.typst_tokens.specs.declared.token.Fault.TheVariants as fault;

use crate::numbers::number_node;
use std::alloc::{AllocError, Global};
use typst_lines::Scanner;
use typst_tokens::Fault;
use typst_tokens::sets::AsciiAlphanumeric;
use typst_tree::SyntaxNode;

/// The node of a token that has a fault and took the text.
pub(crate) fn fault_node(alloc: Global, fault: Fault, text: &str) -> Result<SyntaxNode, AllocError>
    ensures { IfOk result (λ node. node ≡ fault_node fault (chars text.now)) }
{
    match fault {
        Fault::CommentEnd => comment_end_node(alloc, text),
        Fault::UnclosedRaw => SyntaxNode::error(alloc, "unclosed raw text", text),
        Fault::UnclosedEscape => SyntaxNode::error(alloc, "unclosed Unicode escape sequence", text),
        Fault::InvalidEscape => {
            let message = code_point_message(alloc, text)?;
            SyntaxNode::error_saying(alloc, message, text)
        }
        Fault::UnbalancedLink => SyntaxNode::error(
            alloc,
            "automatic links cannot contain unbalanced brackets, use the `link` function instead",
            text,
        ),
        Fault::UnclosedLabel => SyntaxNode::error(alloc, "unclosed label", text),
        Fault::UnclosedString => SyntaxNode::error(alloc, "unclosed string", text),
        Fault::Number(found) => number_node(alloc, found, text),
        Fault::InvalidCharacter => character_node(alloc, text),
        Fault::HashedCharacter => hashed_node(alloc, text),
        Fault::InvalidOperator => operator_node(alloc, text),
    }
}

fn comment_end_node(alloc: Global, text: &str) -> Result<SyntaxNode, AllocError>
    ensures { IfOk result (λ node. node ≡ fault_node fault.CommentEnd (chars text.now)) }
{
    let mut node = SyntaxNode::error(alloc, "unexpected end of block comment", text)?;
    node.hint("consider escaping the `*` with a backslash or opening the block comment with `/*`")?;
    Ok(node)
}

/// The message of an escape that names no character.
fn code_point_message(alloc: Global, text: &str) -> Result<String, AllocError>
    ensures { IfOk result (λ message. string_bytes message ≡ spec.message fault.InvalidEscape (chars text.now)) }
{
    let digits = escaped(text);
    format!(in alloc; "invalid Unicode codepoint: {digits}")
}

/// The letters and digits of an escape by a code point.
fn escaped(text: &str) -> &str
    ensures { chars result.now ≡ spec.escaped (chars text.now) }
{
    let mut s = Scanner::new(text);
    s.eat();
    s.eat();
    s.eat();
    s.eat_while(&AsciiAlphanumeric)
}

/// The node of a character that no token of code begins with.
fn character_node(alloc: Global, text: &str) -> Result<SyntaxNode, AllocError>
    ensures { IfOk result (λ node. node ≡ fault_node fault.InvalidCharacter (chars text.now)) }
{
    let mut node = invalid_character(alloc, text)?;
    hint_at_character(&mut node, text)?;
    Ok(node)
}

fn hint_at_character(node: &mut SyntaxNode, text: &str) -> Result<(), AllocError>
    ensures { OnOk result (node.new ≡ all_advised (spec.character_hints text.now) node.old) }
{
    match text {
        "#" => {
            node.hint("you are already in code mode")?;
            node.hint("try removing the `#`")
        }
        "!" => {
            node.hint("in Typst, `not` is used for negation")?;
            node.hint("or did you mean to write `!=` for not-equal?")
        }
        _ => Ok(()),
    }
}

/// The node of a character that no token of code begins with, directly after a hash.
fn hashed_node(alloc: Global, text: &str) -> Result<SyntaxNode, AllocError>
    ensures { IfOk result (λ node. node ≡ fault_node fault.HashedCharacter (chars text.now)) }
{
    let mut node = invalid_character(alloc, text)?;
    node.hint("the preceding hash is causing this to parse in code mode")?;
    node.hint("try escaping the preceding hash: `\\#`")?;
    Ok(node)
}

fn invalid_character(alloc: Global, text: &str) -> Result<SyntaxNode, AllocError>
    ensures { IfOk result (λ node. node ≡ error_of (spec.invalid_character text.now) text.now) }
{
    let message = format!(in alloc; "the character `{text}` is not valid in code")?;
    SyntaxNode::error_saying(alloc, message, text)
}

/// The node of an operator of other languages.
fn operator_node(alloc: Global, text: &str) -> Result<SyntaxNode, AllocError>
    ensures { IfOk result (λ node. node ≡ fault_node fault.InvalidOperator (chars text.now)) }
{
    let message = format!(in alloc; "`{text}` is not valid in code")?;
    let mut node = SyntaxNode::error_saying(alloc, message, text)?;
    hint_at_operator(&mut node, text)?;
    Ok(node)
}

fn hint_at_operator(node: &mut SyntaxNode, text: &str) -> Result<(), AllocError>
    ensures { OnOk result (node.new ≡ all_advised (spec.operator_hints text.now) node.old) }
{
    match text {
        "&&" => node.hint("in Typst, `and` is used for logical AND"),
        "||" => node.hint("in Typst, `or` is used for logical OR"),
        "~=" => node.hint("in Typst, `!=` is used for not-equal"),
        _ => Ok(()),
    }
}
