//! What the parameters of a message say.
ghost use Rattle.std.specs.Prelude.{◌≡◌, IfSome};
ghost use Rattle.serde_json.specs.View.{view};
ghost use Rattle.lrlex_lsp.specs.Edits.{IsPosition, IsRange, number_of};

use crate::started::Client;
use lrlex::PositionEncoding;
use serde_json::Value;

/// The text at this pointer.
pub(crate) fn text_at<'v>(message: &'v Value, pointer: &str) -> Option<&'v str> {
    message.pointer(pointer)?.as_str()
}

/// The URI of the document that a message is about.
pub(crate) fn uri_of(message: &Value) -> Option<&str> {
    text_at(message, "/params/textDocument/uri")
}

/// The number that a value is.
fn number_of(value: &Value) -> Option<usize>
    ensures { result ≡ number_of (view value.now) }
{
    match value.as_u64() {
        Some(number) => Some(number as usize),
        None => None,
    }
}

/// The version of the document that a message names.
pub(crate) fn version_of(message: &Value) -> Option<usize> {
    number_of(message.pointer("/params/textDocument/version")?)
}

/// Line and column of a position, both from 0.
fn place_of(position: &Value) -> Option<(usize, usize)>
    ensures { IfSome result (λ place. IsPosition (view position.now) place) }
{
    Some((
        number_of(position.get("line")?)?,
        number_of(position.get("character")?)?,
    ))
}

/// Both places of a range.
pub(crate) fn range_of(range: &Value) -> Option<((usize, usize), (usize, usize))>
    ensures { IfSome result (λ both. IsRange (view range.now) both.0 both.1) }
{
    Some((place_of(range.get("start")?)?, place_of(range.get("end")?)?))
}

/// Whether a document is a rule file: its name ends in `.l`, or its language is `lex` or `lrlex`.
pub(crate) fn is_rule_file(uri: &str, language: Option<&str>) -> bool {
    uri.ends_with(".l") || language == Some("lex") || language == Some("lrlex")
}

/// Whether the client offers to count columns in bytes.
fn offers_utf8(message: &Value) -> bool {
    let offered = message.pointer("/params/capabilities/general/positionEncodings");
    match offered.and_then(Value::as_array) {
        Some(names) => names.iter().any(|name| name.as_str() == Some("utf-8")),
        None => false,
    }
}

/// Whether the client takes the tag of what does nothing.
fn takes_tags(message: &Value) -> bool {
    let taken = message.pointer(
        "/params/capabilities/textDocument/publishDiagnostics/tagSupport/valueSet",
    );
    match taken.and_then(Value::as_array) {
        Some(tags) => tags.iter().any(|tag| tag.as_u64() == Some(1)),
        None => false,
    }
}

/// Whether the value at this pointer is `true`.
fn is_true_at(message: &Value, pointer: &str) -> bool {
    message.pointer(pointer).and_then(Value::as_bool) == Some(true)
}

/// What the client can do, as `initialize` says.
pub(crate) fn client_of(message: &Value) -> Client {
    let encoding = if offers_utf8(message) {
        PositionEncoding::Utf8
    } else {
        PositionEncoding::Utf16
    };
    Client {
        encoding,
        can_refresh: is_true_at(
            message,
            "/params/capabilities/workspace/semanticTokens/refreshSupport",
        ),
        takes_places: is_true_at(
            message,
            "/params/capabilities/textDocument/publishDiagnostics/relatedInformation",
        ),
        takes_tags: takes_tags(message),
    }
}
