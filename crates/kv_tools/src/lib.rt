//! What tools make and tell: the image of a formatted device, the keys and the health of an image,
//! and a script that is drawn from a number. Each is a definition in specs/.
//!
//! Every call refuses for want of memory alone.
#![tactic(auto)]

mod check;
mod format;
mod generate;
mod laws;
mod list;
mod live;
mod reading;
mod survey;
mod text;

pub use check::check_image;
pub use format::format_image;
pub use generate::gen_script;
pub use laws::{a_replayed_dump_makes_the_map, texts_are_one};
pub use list::{dump_image, list_image};

#[cfg(test)]
mod image_tests;
#[cfg(test)]
mod tests;
