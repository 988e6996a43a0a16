//! Lines and columns of a text's places, and the positions of the Language Server Protocol: of a place, and back.
#![tactic(auto)]

mod encoding;
mod line_cursor;
mod lines;
mod places;
mod positions;
mod walks;

pub use crate::encoding::PositionEncoding;
pub use crate::line_cursor::LineCursor;
pub use crate::lines::Lines;
pub use crate::places::{place_of, text_of};
pub use crate::positions::{offset_at, position_at};
