//! The one table of refusals: the name that a line prints, the code that a frame has, and the
//! fields of both; and the lines, as `refused O5 3` and `refused L10 _start`.
//!
//! A line is `refused`, the refusal's name and its fields, each after one space, and a newline. It
//! is made in place and needs no memory. Nothing here decides what is refused, or makes frames.
#![tactic(auto)]

mod line;
mod lines;
mod refused;
mod row;
mod table;

pub use line::Line;
pub use lines::{line_of, link_line, object_line, path_line, text_line};
pub use refused::Refused;
pub use row::{Field, Fields, Row};
pub use table::{link_row, object_row, path_row, row_of, text_row};
