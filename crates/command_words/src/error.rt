use thiserror::Error;

/// The words are no command.
#[derive(Clone, Copy, Debug, PartialEq, Eq, Error)]
#[error("the words are no command")]
pub struct WrongWords;
