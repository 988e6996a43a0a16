//! Times lexing a text.
use crate::timing::{
    Counts, Fault, Scanned, Sizes, Watch, lexemes, tell_bytes, tell_lines, tell_peak,
};
use lrlex::{
    Budget, DefaultLexerTypes, LRNonStreamingLexerDef, LexBuildResult, LexRun, LexerDef, Step,
    UNSPECIFIED_LEX_FLAGS,
};
use std::alloc::{AllocError, Global};

/// The definition that is timed.
pub type Definition = LRNonStreamingLexerDef<DefaultLexerTypes<u32>>;

/// A run by it.
pub type Run<'lexer, 'input> = LexRun<'lexer, 'input, DefaultLexerTypes<u32>>;

/// Reads a rule text, into a definition with tables or without any.
fn read(
    alloc: Global,
    rules: &str,
    tables: bool,
) -> Result<LexBuildResult<Definition>, AllocError> {
    if tables {
        Definition::from_str(alloc, rules)
    } else {
        Definition::new_with_budget(alloc, rules, UNSPECIFIED_LEX_FLAGS, Budget::new(0, 0))
    }
}

/// The definition that a rule text gives, with tables or without any.
pub fn definition_by(alloc: Global, rules: &str, tables: bool) -> Result<Definition, Fault> {
    match read(alloc, rules, tables)? {
        Ok(definition) => Ok(definition),
        Err(_) => Err(Fault::Refused),
    }
}

/// What the run counts.
fn counts_of(run: &Run<'_, '_>) -> Counts {
    Counts {
        end: run.end(),
        lexemes: lexemes(run.items()),
        tiles: run.tiles(),
        asked: run.asked(),
        peak: run.entries_peak(),
        looked: run.looked(),
        most: run.definition().most_cells(run.text().len()),
    }
}

/// Lexes the text once by `run`. What the run counts.
fn time_run(
    rt: &HostRuntime,
    definition: &Definition,
    text: &str,
    watch: &mut Watch,
) -> Result<Counts, Fault> {
    watch.start(rt);
    let run = definition.run(rt.alloc(), text)?;
    watch.stop(rt);
    Ok(counts_of(&run))
}

/// Goes over the text once by a scanner. What the scanner counts.
fn time_scan(
    rt: &HostRuntime,
    definition: &Definition,
    text: &str,
    watch: &mut Watch,
) -> Result<Scanned, Fault> {
    let alloc = rt.alloc();
    let mut lexemes = 0usize;
    watch.start(rt);
    let mut scanner = definition.scanner(alloc, text)?;
    for _ in 0..text.len() + 1 {
        match scanner.next(alloc)? {
            Step::Tile(tile) => lexemes = lexemes.wrapping_add(tile.id.is_some() as usize),
            Step::End(_) => break,
        }
    }
    watch.stop(rt);
    // at its end it looks at no more
    let _again = scanner.next(alloc)?;
    let looked = scanner.looked();
    Ok(Scanned { lexemes, looked })
}

/// Lexes the text once by `lexer`, which finds its lines too.
fn time_lexer(
    rt: &HostRuntime,
    definition: &Definition,
    text: &str,
    watch: &mut Watch,
) -> Result<(), Fault> {
    watch.start(rt);
    let _lexer = definition.lexer(rt.alloc(), text)?;
    watch.stop(rt);
    Ok(())
}

/// So many times `run`, once at the least: what the last run counts.
pub fn time_runs(
    rt: &HostRuntime,
    definition: &Definition,
    text: &str,
    times: u32,
    watch: &mut Watch,
) -> Result<Counts, Fault> {
    let mut counts = time_run(rt, definition, text, watch)?;
    for _ in 1..times {
        counts = time_run(rt, definition, text, watch)?;
    }
    Ok(counts)
}

/// Lexes the text so many times by `run`, and prints what the last run counts and what they took.
fn tell_runs(
    rt: &HostRuntime,
    definition: &Definition,
    text: &str,
    times: u32,
    watch: &mut Watch,
) -> Result<(), Fault> {
    let counts = time_runs(rt, definition, text, times, watch)?;
    counts.tell(rt, &watch.spread()?, text.len())
}

/// Goes over the text so many times by a scanner, and prints what the last one counts and what they took.
fn tell_scans(
    rt: &HostRuntime,
    definition: &Definition,
    text: &str,
    times: u32,
    watch: &mut Watch,
) -> Result<(), Fault> {
    let mut scanned = time_scan(rt, definition, text, watch)?;
    for _ in 1..times {
        scanned = time_scan(rt, definition, text, watch)?;
    }
    scanned.tell(rt, &watch.spread()?, text.len())
}

/// Lexes the text so many times by `lexer`, and prints what that took.
fn tell_lexers(
    rt: &HostRuntime,
    definition: &Definition,
    text: &str,
    times: u32,
    watch: &mut Watch,
) -> Result<(), Fault> {
    for _ in 0..times {
        time_lexer(rt, definition, text, watch)?;
    }
    tell_bytes(rt, "lexer", &watch.spread()?, text.len())
}

/// The sizes of the text and of the definition, whose build took so many nanoseconds.
fn sizes_of(definition: &Definition, built: u128, text: &str) -> Sizes {
    Sizes {
        bytes: text.len(),
        rules: definition.rules().len(),
        states: definition.iter_start_states().count(),
        tables: definition.tables(),
        rows: definition.table_rows(),
        asked: definition.asked_rules(),
        built,
    }
}

/// Lexes the text so many times by `run`, by a scanner and by `lexer`, finds its lines as often, and prints what that took.
pub fn tell_run(
    rt: &HostRuntime,
    definition: &Definition,
    built: u128,
    text: &str,
    times: u32,
    watch: &mut Watch,
) -> Result<(), Fault> {
    tell_peak(rt, " before lexing")?;
    sizes_of(definition, built, text).tell(rt)?;
    tell_runs(rt, definition, text, times, watch)?;
    tell_scans(rt, definition, text, times, watch)?;
    tell_lexers(rt, definition, text, times, watch)?;
    tell_lines(rt, text, times, watch)?;
    tell_peak(rt, "")
}
