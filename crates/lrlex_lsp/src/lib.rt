//! A language server over `lrlex`: what is answered to each message, without a file or a socket of its own. `serve` reads messages
//! from any reader and writes the answers to any writer; `Server::handle` takes one message.
#![tactic(auto)]

mod capabilities;
mod changes;
mod diagnostics;
mod edits;
mod findings;
mod framing;
mod guesses;
mod json;
mod languages;
mod messages;
mod opened;
mod params;
mod renewal;
mod server;
mod session;
mod started;
mod surrogates;
mod texts;
mod token_types;
mod tokens;
mod uris;

pub use crate::framing::{Frame, read_frame, write_frame};
pub use crate::guesses::{Guess, guessed};
pub use crate::languages::{Definition, Language, LanguageFault, Types};
pub use crate::server::{Handled, Server};
pub use crate::session::{Options, serve};
pub use crate::started::{Given, Next, State};
pub use crate::token_types::is_token_type;
pub use crate::uris::{file_uri, is_same_file};
pub use lrlex_report::WarningKind;
