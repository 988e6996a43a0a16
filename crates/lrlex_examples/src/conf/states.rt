//! The rules that cut a configuration.

/// `=` opens a value, which ends with its line, `{` a section, and a quote a text in a value. Each is pushed on the stack of
/// start states, and popped where it ends: so `}` is a token in a section alone, and a `#` in a text is no comment.
pub const RULES: &str = r##"%s section
%x value text
%%
[a-z][a-z0-9_]* 'WORD'
= <+value>'='
\{ <+section>'{'
<section>\} <-section>'}'
<value>[^ \t\r\n"#]+([ \t]+[^ \t\r\n"#]+)* 'BARE'
<value>" <+text>'QUOTE'
<value>\r?\n <-value>'END'
<text>[^"\\\n]+ 'PART'
<text>\\[nt"\\] 'ESCAPE'
<text>" <-text>;
<INITIAL,section,value>[ \t]+ ;
<INITIAL,section,value>#[^\n]* ;
\r?\n ;
"##;
