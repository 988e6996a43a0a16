//! Errors as people read them: what is wrong with a rule text, what its author hardly meant, where lexing an input stopped, and
//! where bytes aren't UTF-8. Each is shown with its place, its line and carets, as compilers show it.
#![tactic(auto)]

mod carets;
mod char_counts;
mod encoding;
mod faults;
mod listed;
mod notes;
mod pattern_notes;
mod places;
mod ranges;
mod reasons;
mod stops;
mod warnings;

pub use crate::carets::shown_char;
pub use crate::encoding::bad_byte_text;
pub use crate::faults::{fault_message, fault_name, fault_text, faults_text};
pub use crate::places::place_text;
pub use crate::ranges::fault_range;
pub use crate::stops::{stop_message_in, stop_text, stop_text_in};
pub use crate::warnings::kinds::{Warning, WarningKind};
pub use crate::warnings::texts::warnings_text;
pub use crate::warnings::warnings_of;
