//! Lexing a text, and lexing it again after edits.
ghost use Rattle.std.specs.Prelude.{◌≡◌, ◌↔◌, List, IfOk, IfSome, IsSome, map};
ghost use Rattle.lrlex.specs.Lexer.{lexer_items, lexer_text};
ghost use Rattle.lrlex.specs.Boundaries.{Boundary};
ghost use Rattle.lrlex.specs.Reach.{IsRun};
ghost use Rattle.lrlex.specs.Views.{definition_of, items_by};
ghost use Rattle.lrlex.specs.Words.{lexeme_seen};
ghost use Rattle.lrlex_examples.specs.Lexing.{AreWords, shown, AreSteps, text_after};

use lrlex::{
    DefaultLexerTypes, Edit, LRNonStreamingLexer, LRNonStreamingLexerDef, Lexeme, Lexer,
    NonStreamingLexer,
};
use std::alloc::{AllocError, Global};

/// The lexemes of a text in order, each by the name of its rule and by its text.
pub fn words<'d, 't>(
    alloc: Global,
    definition: &'d LRNonStreamingLexerDef<DefaultLexerTypes<u32>>,
    text: &'t str,
) -> Result<Vec<(&'d str, &'t str)>, AllocError>
    ensures { IfOk result (λ words. AreWords (definition_of (λ n. n) definition.now) text.now
        (map shown words.items)) }
{
    let lexer = definition.lexer(alloc, text)?;
    let mut words = Vec::new(alloc);
    for item in lexer.iter() {
        if let Ok(lexeme) = item {
            let name = definition.name_of(lexeme.tok_id()).unwrap_or("");
            words.push((name, lexer.span_str(lexeme.span())))?;
        }
    }
    Ok(words)
}

/// Lexes a text, makes the edits one after the other, and gives the last run's items with their text. With each edit comes the
/// text that it makes. None where an edit doesn't make its text of the one before.
pub fn lexer_after<'d, 't>(
    alloc: Global,
    definition: &'d LRNonStreamingLexerDef<DefaultLexerTypes<u32>>,
    text: &'t str,
    steps: &[(Edit<'_>, &'t str)],
) -> Result<Option<LRNonStreamingLexer<'d, 't, DefaultLexerTypes<u32>>>, AllocError>
    ensures made { IfOk result (λ made. IsSome made ↔ AreSteps text.now steps.now) }
    ensures text { IfOk result (λ made. IfSome made (λ lexer. lexer_text lexer
        ≡ text_after text.now (map (λ s. s.0) steps.now))) }
    ensures run { IfOk result (λ made. IfSome made (λ lexer. (bounds : List Boundary)
        × IsRun (definition_of (λ n. n) definition.now)
        (text_after text.now (map (λ s. s.0) steps.now))
        (items_by (λ n. n) lexeme_seen (lexer_items lexer)) bounds)) }
{
    let mut now = text;
    let mut run = definition.run(alloc, now)?;
    for (edit, new) in steps {
        if !edit.gives(now, new) {
            return Ok(None);
        }
        run = run.relex(alloc, edit, new)?;
        now = new;
    }
    Ok(Some(run.into_lexer(alloc)?))
}
