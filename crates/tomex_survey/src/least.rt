//! The least of some numbers.

ghost use Rattle.std.specs.Prelude.{◌≡◌};
ghost use Rattle.tomex_survey.specs.Extremes.{lesser};

/// The lesser of a number and what is least so far.
pub fn lesser(number: u64, least: Option<u64>) -> u64
    ensures { result ≡ lesser number least }
{
    match least {
        None => number,
        Some(least) => number.min(least),
    }
}
