//! The iterators of a store: at most sixteen at once, each with its owner, its number, the prefix
//! of the keys that it gives, and the key that it gave last.
//!
//! A table of iterators is seen as the finite map from owner and number to prefix and last key that
//! the model of a store has. It knows no keys of a store: which key is next is the store's to find.
#![tactic(auto)]

mod iter;
mod iters;
mod laws;
mod named;

pub use iter::Iter;
pub use iters::Iters;
pub use laws::iterator_calls_are_those_of_the_model;

#[cfg(test)]
mod tests;
