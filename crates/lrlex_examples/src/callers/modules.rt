//! The text of a Rust module with the token ids of a definition.
use lrlex::{DefaultLexerTypes, LRNonStreamingLexerDef, LexerDef, TokenMapFault, ct_token_map};
use std::alloc::{AllocError, Global};
use std::collections::HashMap;

/// The text of a module `token_ids` with a constant for each named rule, as `T_NUMBER` for `'number'`. Or why there is none.
pub fn module_of(
    alloc: Global,
    definition: &LRNonStreamingLexerDef<DefaultLexerTypes<u32>>,
) -> Result<Result<String, TokenMapFault>, AllocError> {
    let mut ids = HashMap::new(alloc);
    for rule in definition.iter_rules() {
        if let (Some(name), Some(id)) = (rule.name(), rule.tok_id()) {
            ids.insert(String::from_str(alloc, name)?, id)?;
        }
    }
    ct_token_map(alloc, "token_ids", "u32", &ids, None)
}
