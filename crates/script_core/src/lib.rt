//! Scripts: the lines that a text asks a store to do, one call or one power cut each.
#![tactic(auto)]

mod cut;
mod digits;
mod ends;
mod error;
mod fields;
mod laws;
mod line;
mod order_laws;
mod parse;
mod parts;
mod print;
mod reading;
mod script;
mod spelled;
#[cfg(test)]
mod tests;

pub use cut::read_cut;
pub use error::ScriptError;
pub use laws::{a_line_has_one_reading, a_text_has_one_reading, lines_end_in_line_feeds};
pub use line::{Act, Line, PowerCut, Side};
pub use order_laws::entries_are_calls;
pub use parse::parse_script;
pub use print::print_line;
pub use script::{Script, ScriptMode};
