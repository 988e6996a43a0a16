//! The program that README shows: `lrlex_bench --example first < TEXT` prints the place, the name and the text of each word and number.
use lrlex::{DefaultLexerTypes, LRNonStreamingLexerDef, Lexeme, Lexer, LexerDef, LineCursor};
use lrlex_report::{faults_text, stop_text};
use std::io;
use std::process::ExitCode;

const RULES: &str = r#"%%
[0-9]+ 'number'
[a-z]+ 'word'
[ \t\r\n]+ ;"#;

fn failed(rt: &HostRuntime, shown: &str) -> io::Result<ExitCode> {
    rt.eprint(shown).and(Ok(ExitCode::FAILURE))
}

pub fn main(rt: HostRuntime) -> io::Result<ExitCode> {
    let rules = match LRNonStreamingLexerDef::<DefaultLexerTypes>::from_str(rt.alloc(), RULES)? {
        Ok(rules) => rules,
        Err(faults) => return failed(&rt, &faults_text(rt.alloc(), "RULES", RULES, &faults)?),
    };
    let input = io::read_to_string(rt.alloc(), rt.reader())?;
    let lexer = rules.lexer(rt.alloc(), &input)?;
    let mut cursor = LineCursor::new(&input);
    for item in lexer.iter() {
        let lexeme = match item {
            Ok(lexeme) => lexeme,
            Err(error) => return failed(&rt, &stop_text(rt.alloc(), "stdin", &input, &error)?),
        };
        let (line, column) = cursor.place(lexeme.span().start());
        let name = rules.name_of(lexeme.tok_id()).unwrap_or("");
        println!(rt; "{line}:{column} {name} {}", lexer.text_of(lexeme.span()))?;
    }
    Ok(ExitCode::SUCCESS)
}
