use crate::piles::BadPile;
use crate::refusals::Refused;
use std::io;
use thiserror::Error;

// Why the program ends before it has answered every line.
#[derive(Debug, Drop, Error)]
pub(crate) enum Stop {
    #[error(transparent)]
    Refused(#[from] Refused),
    #[error("line 1: {0}")]
    NoPile(#[from] BadPile),
    #[error("{input}: {error}")]
    Unread {
        input: &'static str,
        error: io::Error,
    },
    #[error(transparent)]
    Unwritten(#[from] io::Error),
}
