ghost use Rattle.std.specs.Prelude.{◌≡◌, ◌++◌, [], IfOk, OnOk, codes, map, option_map};
ghost use Rattle.std.specs.List.{list_all, list_any, flat_map, join_by};
ghost use Rattle.std.specs.Str.{chars, bytes_eq};
ghost use Rattle.std.specs.String.{string_bytes};
ghost use Rattle.std.specs.Char.{to_ascii_uppercase};
ghost use Rattle.unicode_ident.specs.Ident.{is_xid_continue};
ghost use Rattle.lrlex_tokens.specs.TokenModule.{constant_line, first_fault, is_identifier, module_lines};
ghost use Rattle.lrlex_tokens.specs.TokenMap.{fault_view, token_view};

use crate::token_map_fault::TokenMapFault;
use crate::tokens::Token;
use std::alloc::{AllocError, Allocator};
use unicode_ident::{is_xid_continue, is_xid_start};

// Whether an identifier may go on with each character.
fn all_continue(text: &str) -> bool
    ensures { result ≡ list_all is_xid_continue (chars text.now) }
{
    text.chars().all(
        |c: char| -> bool
            ensures { result ≡ is_xid_continue c }
        { is_xid_continue(c) },
    )
}

// Whether the text is an identifier.
pub(crate) fn is_identifier(name: &str) -> bool
    ensures { result ≡ is_identifier name.now }
{
    let mut chars = name.chars();
    match chars.next() {
        None => false,
        Some(first) => {
            let rest = chars.as_str();
            if rest.is_empty() {
                is_xid_start(first)
            } else {
                (is_xid_start(first) | (first == '_')) & all_continue(rest)
            }
        }
    }
}

// The constant of a token that goes by this name.
fn constant_of<A: Allocator + Copy>(alloc: A, shown: &str) -> Result<String<A>, AllocError>
    ensures { IfOk result (λ s. string_bytes s ≡ codes "T_" ++ map to_ascii_uppercase shown.now) }
{
    let upper = shown.to_ascii_uppercase(alloc)?;
    format!(in alloc; "T_{upper}")
}

// Whether one of the constants is this one.
fn holds<A: Allocator>(constants: &[String<A>], constant: &str) -> bool
    ensures { result ≡ list_any (bytes_eq constant.now) (map string_bytes constants.now) }
{
    for c in constants {
        if constant == c.as_str() {
            return true;
        }
    }
    false
}

// The first fault of the tokens, or none.
pub(crate) fn first_fault<A: Allocator + Copy>(
    alloc: A,
    tokens: &[Token<A>],
) -> Result<Option<TokenMapFault<A>>, AllocError>
    ensures { IfOk result (λ fault.
        option_map fault_view fault ≡ first_fault [] (map token_view tokens.now)) }
{
    let mut constants: Vec<String<A>, A> = Vec::new(alloc);
    for token in tokens {
        if !all_continue(&token.shown) {
            let name = String::from_str(alloc, &token.name)?;
            return Ok(Some(TokenMapFault::BadTokenName(name)));
        }
        let constant = constant_of(alloc, &token.shown)?;
        if holds(&constants, &constant) {
            let name = String::from_str(alloc, &token.name)?;
            return Ok(Some(TokenMapFault::SameConstant(name)));
        }
        constants.push(constant)?;
    }
    Ok(None)
}

// The line of a token.
fn line_of<A: Allocator + Copy>(
    alloc: A,
    type_name: &str,
    token: &Token<A>,
) -> Result<String<A>, AllocError>
    ensures { IfOk result (λ s.
        string_bytes s ≡ constant_line type_name.now (token_view token.now)) }
{
    let constant = constant_of(alloc, &token.shown)?;
    let id = token.id.as_str();
    format!(in alloc; "    pub const {constant}: {type_name} = {id};\n")
}

// Appends the lines of the tokens.
fn push_lines<A: Allocator + Copy>(
    alloc: A,
    text: &mut String<A>,
    type_name: &str,
    tokens: &[Token<A>],
) -> Result<(), AllocError>
    ensures { OnOk result (string_bytes text.new ≡ string_bytes text.old
        ++ flat_map (constant_line type_name.now) (map token_view tokens.now)) }
{
    for token in tokens {
        let line = line_of(alloc, type_name, token)?;
        text.push_str(&line)?;
    }
    Ok(())
}

// Appends the ids of the tokens, with a comma and a blank between each two.
fn push_ids<A: Allocator>(text: &mut String<A>, tokens: &[Token<A>]) -> Result<(), AllocError>
    ensures { OnOk result (string_bytes text.new ≡ string_bytes text.old
        ++ join_by (λ t. t.id) (codes ", ") (map token_view tokens.now)) }
{
    for (i, token) in tokens.iter().enumerate() {
        if i > 0 {
            text.push_str(", ")?;
        }
        text.push_str(&token.id)?;
    }
    Ok(())
}

// The text of a module whose names are good.
pub(crate) fn lines_of<A: Allocator + Copy>(
    alloc: A,
    mod_name: &str,
    type_name: &str,
    tokens: &[Token<A>],
    dead_code: bool,
) -> Result<String<A>, AllocError>
    ensures { IfOk result (λ s. string_bytes s ≡ module_lines record {
      mod_name = mod_name.now;
      type_name = type_name.now;
      tokens = map token_view tokens.now;
      dead_code = dead_code;
    }) }
{
    let opening = if dead_code {
        "#[allow(dead_code)]\nmod "
    } else {
        "mod "
    };
    let mut text = String::from_str(alloc, opening)?;
    text.push_str(mod_name)?;
    text.push_str(" {\n")?;
    push_lines(alloc, &mut text, type_name, tokens)?;
    text.push_str("    #[allow(dead_code)]\n    pub const TOK_IDS: &[")?;
    text.push_str(type_name)?;
    text.push_str("] = &[")?;
    push_ids(&mut text, tokens)?;
    text.push_str("];\n}\n")?;
    Ok(text)
}
