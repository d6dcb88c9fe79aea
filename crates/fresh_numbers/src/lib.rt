//! What a caller of a secure store owes it: vector numbers that never go back. The definitions in
//! specs/ say what histories over many runs are, with and without attacks, and [`laws`] what an old
//! primary map that is put back can show.
#![tactic(auto)]

pub mod laws;
#[cfg(test)]
mod tests;
