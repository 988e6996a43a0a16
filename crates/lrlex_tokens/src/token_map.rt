ghost use Rattle.std.specs.Prelude.{◌≡◌, List, true, false, IfOk, map};
ghost use Rattle.std.specs.List.{IsDistinct};
ghost use Rattle.std.specs.Str.{bytes_eq};
ghost use Rattle.lrlex_tokens.specs.TokenModule.{AreTokensOf, Token as NamedToken, constant_of, module_text, renamed};
ghost use Rattle.lrlex_tokens.specs.TokenMap.{entries_of, look_up, written};

use crate::token_map_fault::TokenMapFault;
use crate::token_text::{first_fault, is_identifier, lines_of};
use crate::tokens::{Token, renamed_tokens, tokens_of};
use std::alloc::{AllocError, Allocator, Global};
use std::collections::HashMap;
use std::fmt::Display;
use std::marker::{Model, PhantomData};

/// Makes the text of a Rust module that names the ids of a parser's tokens: a constant a token, and the list of all ids.
#[derive(Drop)]
pub struct CTTokenMapBuilder<StorageT, A: Allocator = Global> {
    mod_name: String<A>,
    type_name: String<A>,
    tokens: Vec<Token<A>, A>,
    dead_code: bool,
    phantom: PhantomData<StorageT>,
}

impl<StorageT, A: Allocator> Model for CTTokenMapBuilder<StorageT, A> {
    ghost use Rattle.std.specs.Prelude.{map};
    ghost use Rattle.std.specs.String.{string_bytes};
    ghost use Rattle.lrlex_tokens.specs.TokenModule.{Module};
    ghost use Rattle.lrlex_tokens.specs.TokenMap.{token_view};

    ghost Value = { Module };

    ghost view = { λ b. record {
      mod_name = string_bytes b.mod_name;
      type_name = string_bytes b.type_name;
      tokens = map token_view b.tokens.items;
      dead_code = b.dead_code;
    } };
}

impl<StorageT: Display, A: Allocator + Copy> CTTokenMapBuilder<StorageT, A> {
    /// A module of this name, with constants of this type for the tokens of a map from names to ids. It doesn't allow dead code.
    pub fn new(
        alloc: A,
        mod_name: &str,
        type_name: &str,
        token_map: &HashMap<String, StorageT>,
    ) -> Result<CTTokenMapBuilder<StorageT, A>, AllocError>
        ensures mod_name { IfOk result (λ b. b.mod_name ≡ mod_name.now) }
        ensures type_name { IfOk result (λ b. b.type_name ≡ type_name.now) }
        ensures tokens { IfOk result (λ b.
            AreTokensOf StorageT.output (entries_of token_map.now) b.tokens) }
        ensures dead_code { IfOk result (λ b. b.dead_code ≡ false) }
    {
        Ok(CTTokenMapBuilder {
            mod_name: String::from_str(alloc, mod_name)?,
            type_name: String::from_str(alloc, type_name)?,
            tokens: tokens_of(alloc, token_map)?,
            dead_code: false,
            phantom: PhantomData,
        })
    }
}

impl<StorageT, A: Allocator + Copy> CTTokenMapBuilder<StorageT, A> {
    /// Lets tokens go by other names: a token that the map has goes by the map's name for it, the others by their own. It replaces an
    /// earlier map.
    pub fn rename_map(
        self,
        alloc: A,
        rename_map: Option<&HashMap<&str, &str>>,
    ) -> Result<CTTokenMapBuilder<StorageT, A>, AllocError>
        ensures { IfOk result (λ b.
            b ≡ record self { tokens = map (renamed (look_up rename_map.entry)) self.tokens }) }
    {
        let tokens = renamed_tokens(alloc, &self.tokens, rename_map)?;
        Ok(CTTokenMapBuilder { tokens, ..self })
    }

    /// Whether the module is marked so that constants that nothing uses give no warning.
    pub fn allow_dead_code(self, allow: bool) -> CTTokenMapBuilder<StorageT, A>
        ensures { result ≡ record self { dead_code = allow } }
    {
        CTTokenMapBuilder {
            dead_code: allow,
            ..self
        }
    }

    /// The module's text, or why there is none. The module's name is tested first, then the type's, then token by token.
    pub fn build(&self, alloc: A) -> Result<Result<String<A>, TokenMapFault<A>>, AllocError>
        ensures module { IfOk result (λ r. written r ≡ module_text self.now) }
        ensures distinct { IfOk result (λ r.
            IfOk r (λ _. IsDistinct bytes_eq (map constant_of self.now.tokens))) }
    {
        if !is_identifier(&self.mod_name) {
            return Ok(Err(TokenMapFault::BadModuleName));
        }
        if !is_identifier(&self.type_name) {
            return Ok(Err(TokenMapFault::BadTypeName));
        }
        if let Some(fault) = first_fault(alloc, &self.tokens)? {
            return Ok(Err(fault));
        }
        let text = lines_of(
            alloc,
            &self.mod_name,
            &self.type_name,
            &self.tokens,
            self.dead_code,
        )?;
        Ok(Ok(text))
    }
}

/// The text of a module of token ids, with dead code allowed: the builder's calls in one.
pub fn ct_token_map<StorageT: Display, A: Allocator + Copy>(
    alloc: A,
    mod_name: &str,
    type_name: &str,
    token_map: &HashMap<String, StorageT>,
    rename_map: Option<&HashMap<&str, &str>>,
) -> Result<Result<String<A>, TokenMapFault<A>>, AllocError>
    ensures { IfOk result (λ r. (tokens : List NamedToken)
        × AreTokensOf StorageT.output (entries_of token_map.now) tokens
        × (written r ≡ module_text record {
          mod_name = mod_name.now;
          type_name = type_name.now;
          tokens = map (renamed (look_up rename_map.entry)) tokens;
          dead_code = true;
        })) }
{
    let named = CTTokenMapBuilder::new(alloc, mod_name, type_name, token_map)?;
    let shown = named.rename_map(alloc, rename_map)?;
    let whole = shown.allow_dead_code(true);
    whole.build(alloc)
}
