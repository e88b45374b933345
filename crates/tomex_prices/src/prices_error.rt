//! Why there is no table of prices.

ghost use Rattle.std.specs.Prelude.{◌≡◌};
ghost use Rattle.tomex_prices.specs.declared.prices_error.PricesError.TheVariants.{Memory};

use std::alloc::{AllocError, AllocFailed};

/// Why a study has no table of its prices.
#[derive(Clone, Copy, Debug, Drop, PartialEq, Eq)]
pub enum PricesError {
    /// Too many rows of the front times relevant prices.
    TooLarge,
    /// Out of memory.
    Memory,
}

impl From<AllocError> for PricesError {
    ghost from_gives = { λ _ e. e ≡ Memory };

    fn from(_error: AllocError) -> Self {
        PricesError::Memory
    }
}

impl<T: Drop> From<AllocFailed<T>> for PricesError {
    ghost from_gives = { λ _ e. e ≡ Memory };

    fn from(_error: AllocFailed<T>) -> Self {
        PricesError::Memory
    }
}
