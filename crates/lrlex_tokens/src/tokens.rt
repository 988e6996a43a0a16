ghost use Rattle.std.specs.Prelude.{◌≡◌, IfOk, IfSome, All, IsPermutation, IsSortedByKey, map, unwrap_or};
ghost use Rattle.std.specs.Ordering.{nat_cmp};
ghost use Rattle.std.specs.Cmp.Lexicographic.{slice_cmp};
ghost use Rattle.std.specs.String.{string_bytes};
ghost use Rattle.lrlex_tokens.specs.TokenModule.{AreTokensOf, IsTokenOf, renamed};
ghost use Rattle.lrlex_tokens.specs.TokenMap.{entries_of, look_up, token_view};

use std::alloc::{AllocError, Allocator};
use std::cmp::Ordering;
use std::collections::HashMap;
use std::fmt::Display;

// A token: its own name, the name that it goes by, and its id as text.
#[derive(Drop)]
pub(crate) struct Token<A: Allocator> {
    pub(crate) name: String<A>,
    pub(crate) shown: String<A>,
    pub(crate) id: String<A>,
}

// Puts the tokens in the byte order of their names.
fn sort_tokens<A: Allocator>(tokens: &mut Vec<Token<A>, A>)
    ensures permutation { IsPermutation tokens.old.items tokens.new.items }
    ensures sorted { IsSortedByKey (λ t. string_bytes t.name) (slice_cmp nat_cmp) tokens.new.items }
{
    tokens.sort_unstable_by(
        |a: &Token<A>, b: &Token<A>| -> Ordering
            ensures { result
                ≡ slice_cmp nat_cmp (string_bytes a.now.name) (string_bytes b.now.name) }
        { a.name.as_str().cmp(b.name.as_str()) },
    );
}

// The token of an entry.
fn token_of<StorageT: Display, A: Allocator + Copy>(
    alloc: A,
    name: &str,
    id: &StorageT,
) -> Result<Token<A>, AllocError>
    ensures name { IfOk result (λ t. string_bytes t.name ≡ name.now) }
    ensures shown { IfOk result (λ t. string_bytes t.shown ≡ name.now) }
    ensures id { IfOk result (λ t. IfSome (StorageT.output id.now) (λ text. string_bytes t.id ≡ text)) }
{
    Ok(Token {
        name: String::from_str(alloc, name)?,
        shown: String::from_str(alloc, name)?,
        id: id.to_string(alloc)?,
    })
}

// The tokens of a map of tokens, as it gives them.
fn tokens_listed<StorageT: Display, A: Allocator + Copy>(
    alloc: A,
    token_map: &HashMap<String, StorageT>,
) -> Result<Vec<Token<A>, A>, AllocError>
    ensures names { IfOk result (λ v. map (λ t. string_bytes t.name) v.items
        ≡ map (λ e. string_bytes e.0) token_map.now.entries) }
    ensures each { IfOk result (λ v.
        All (λ t. IsTokenOf StorageT.output (entries_of token_map.now) (token_view t)) v.items) }
{
    let mut tokens: Vec<Token<A>, A> = Vec::new(alloc);
    for (name, id) in token_map {
        let token = token_of(alloc, name, id)?;
        tokens.push(token)?;
    }
    Ok(tokens)
}

// The tokens of a map of tokens, in the byte order of their names.
pub(crate) fn tokens_of<StorageT: Display, A: Allocator + Copy>(
    alloc: A,
    token_map: &HashMap<String, StorageT>,
) -> Result<Vec<Token<A>, A>, AllocError>
    ensures { IfOk result (λ v.
        AreTokensOf StorageT.output (entries_of token_map.now) (map token_view v.items)) }
{
    let mut tokens = tokens_listed(alloc, token_map)?;
    sort_tokens(&mut tokens);
    Ok(tokens)
}

// The name that a token goes by.
fn shown_as<'t>(name: &'t str, renames: Option<&HashMap<&'t str, &'t str>>) -> &'t str
    ensures { result.now ≡ unwrap_or (look_up renames.entry name.now) name.now }
{
    match renames {
        Some(renames) => match renames.get(name) {
            Some(shown) => shown,
            None => name,
        },
        None => name,
    }
}

// The tokens under the names that a map of renames has for them.
pub(crate) fn renamed_tokens<A: Allocator + Copy>(
    alloc: A,
    tokens: &[Token<A>],
    renames: Option<&HashMap<&str, &str>>,
) -> Result<Vec<Token<A>, A>, AllocError>
    ensures { IfOk result (λ v. map token_view v.items
        ≡ map (renamed (look_up renames.entry)) (map token_view tokens.now)) }
{
    let mut all: Vec<Token<A>, A> = Vec::new(alloc);
    for token in tokens {
        let shown = shown_as(&token.name, renames);
        all.push(Token {
            name: String::from_str(alloc, &token.name)?,
            shown: String::from_str(alloc, shown)?,
            id: String::from_str(alloc, &token.id)?,
        })?;
    }
    Ok(all)
}
