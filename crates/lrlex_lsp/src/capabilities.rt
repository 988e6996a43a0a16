//! What the server can do, as it tells the client.
use crate::messages::answer;
use crate::token_types::legend;
use lrlex::PositionEncoding;
use serde_json::Value;
use std::alloc::{AllocError, Global};

/// What the server can do, with positions in this encoding.
fn capabilities(alloc: Global, encoding: PositionEncoding) -> Result<String, AllocError> {
    let types = legend(alloc)?;
    let encoding = match encoding {
        PositionEncoding::Utf8 => "utf-8",
        PositionEncoding::Utf16 => "utf-16",
    };
    format!(in alloc;
        "{{\"capabilities\":{{\"positionEncoding\":\"{encoding}\",\
        \"textDocumentSync\":{{\"openClose\":true,\"change\":2,\"save\":{{\"includeText\":false}}}},\
        \"semanticTokensProvider\":{{\"legend\":{{\"tokenTypes\":[\"{types}\"],\"tokenModifiers\":[]}},\
        \"full\":{{\"delta\":true}},\"range\":true}}}},\"serverInfo\":{{\"name\":\"rolgumzai\"}}}}"
    )
}

/// The answer to `initialize`.
pub(crate) fn initialized(
    alloc: Global,
    id: &Value,
    encoding: PositionEncoding,
) -> Result<String, AllocError> {
    let text = capabilities(alloc, encoding)?;
    answer(alloc, id, &text)
}
