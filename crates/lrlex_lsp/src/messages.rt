//! Messages of JSON-RPC: what one asks, and the text of an answer.
ghost use Rattle.serde_json.specs.View.{view};
ghost use Rattle.lrlex_lsp.specs.Messages.{IsCallOf};

use serde_json::Value;
use std::alloc::{AllocError, Global};

/// Why a request is refused: the code of an error, as the protocol has it, and what it means here.
#[derive(Clone, Copy)]
pub(crate) struct Fault {
    code: &'static str,
    message: &'static str,
}

/// `ParseError`.
pub(crate) const NO_JSON: Fault = Fault {
    code: "-32700",
    message: "The message isn't JSON",
};

/// `InvalidRequest`.
pub(crate) const NO_REQUEST: Fault = Fault {
    code: "-32600",
    message: "The message isn't a request that can be made now",
};

/// `InvalidRequest`.
pub(crate) const TOO_LONG: Fault = Fault {
    code: "-32600",
    message: "The message is too long",
};

/// `MethodNotFound`.
pub(crate) const NO_METHOD: Fault = Fault {
    code: "-32601",
    message: "There is no such method",
};

/// `InvalidParams`.
pub(crate) const BAD_PARAMS: Fault = Fault {
    code: "-32602",
    message: "The parameters name no open document, or no place",
};

/// `ServerNotInitialized`.
pub(crate) const NOT_INITIALIZED: Fault = Fault {
    code: "-32002",
    message: "The server isn't initialized",
};

/// What a message asks.
#[derive(Clone, Copy)]
pub(crate) enum Call<'v> {
    /// The answer names this id.
    Request(&'v Value, &'v str),
    Notification(&'v str),
    /// An answer to what the server asked. It may lack what it should have.
    Answer,
    /// The refusal names the message's id, if it has one.
    Malformed,
}

/// What a message asks.
pub(crate) fn call_of(message: &Value) -> Call<'_>
    ensures { IsCallOf result (view message.now) }
{
    let method = message.get("method").and_then(Value::as_str);
    match (message.get("id"), method) {
        (Some(id), Some(method)) => Call::Request(id, method),
        (None, Some(method)) => Call::Notification(method),
        (Some(_), None) if message.get("method").is_none() => Call::Answer,
        _ => Call::Malformed,
    }
}

/// An answer whose result is this text.
pub(crate) fn answer(alloc: Global, id: &Value, outcome: &str) -> Result<String, AllocError> {
    format!(in alloc; "{{\"jsonrpc\":\"2.0\",\"id\":{id},\"result\":{outcome}}}")
}

/// An answer that refuses a request.
pub(crate) fn refusal(
    alloc: Global,
    id: Option<&Value>,
    fault: Fault,
) -> Result<String, AllocError> {
    let (code, message) = (fault.code, fault.message);
    match id {
        Some(id) => format!(in alloc;
            "{{\"jsonrpc\":\"2.0\",\"id\":{id},\"error\":{{\"code\":{code},\"message\":\"{message}\"}}}}"
        ),
        None => format!(in alloc;
            "{{\"jsonrpc\":\"2.0\",\"id\":null,\"error\":{{\"code\":{code},\"message\":\"{message}\"}}}}"
        ),
    }
}

/// A warning, for the client's log by `window/logMessage`, or for its user by `window/showMessage`. The text is as JSON has it.
pub(crate) fn warning(alloc: Global, method: &str, text: &str) -> Result<String, AllocError> {
    format!(in alloc;
        "{{\"jsonrpc\":\"2.0\",\"method\":\"{method}\",\"params\":{{\"type\":2,\"message\":\"{text}\"}}}}"
    )
}

/// A request of the server's own, without parameters.
pub(crate) fn request(alloc: Global, id: usize, method: &str) -> Result<String, AllocError> {
    format!(in alloc; "{{\"jsonrpc\":\"2.0\",\"id\":{id},\"method\":\"{method}\"}}")
}
