//! The words of a command line: which command they are, with what options and what other words.
#![tactic(auto)]

mod command;
mod error;
mod forms;
mod items;
mod laws;
mod option_name;
mod session;
mod splits;
#[cfg(test)]
mod tests;
mod tools;
mod values;

pub use command::{Command, read_words};
pub use error::WrongWords;
pub use laws::{
    options_have_defaults, options_have_these_forms, options_stand_anywhere,
    words_have_one_meaning, wrong_words_mean_nothing,
};
pub use session::{Names, Session};
pub use tools::{Drawing, OneImage, Tool};
