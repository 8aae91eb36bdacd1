//! The time in the arguments of a subcommand.

ghost use Rattle.std.specs.Prelude.{◌≡◌, ℕ, Option, Some, None, IfOk, IfErr, IfSome, codes};
ghost use Rattle.clap.specs.Words.{first_of, rows_of, found_of};
ghost use Rattle.mls_commands.specs.Orders.{IsTime, IsHelp, RefusesArguments};

use crate::arguments::{usage, value};
use crate::order::OrderFault;
use clap::ArgMatches;
use std::alloc::Global;

/// Returns the number of seconds that the text has in decimal digits, as the value of `--now` does. Returns `None` if it is
/// empty or has another character, as a sign, or if the number is over 18446744073709551615.
fn seconds(text: &str) -> Option<u64>
    ensures seconds { IfSome result (λ n. IsTime (Some text.now) (Some n)) }
    ensures refused { result ≡ None → (time : Option ℕ) → IsTime (Some text.now) time → ⊥ }
{
    if text.starts_with('+') {
        return None;
    }
    text.parse::<u64>().ok()
}

/// Returns the time at which lifetimes are judged, in seconds since 1970. Returns `None` without `--now`.
pub(crate) fn asked_time(alloc: Global, matches: &ArgMatches<'_>) -> Result<Option<u64>, OrderFault>
    ensures time { IfOk result (IsTime (first_of (codes "now") (rows_of (found_of matches.now)))) }
    ensures refused { IfErr result
        (RefusesArguments (IsTime (first_of (codes "now") (rows_of (found_of matches.now))))) }
    ensures never_help { IfErr result (λ e. IsHelp e → ⊥) }
{
    match value(matches, "now") {
        None => Ok(None),
        Some(text) => match seconds(text) {
            Some(time) => Ok(Some(time)),
            None => Err(usage(
                alloc,
                "usage: SECONDS is a number from 0 to 18446744073709551615\n",
            )),
        },
    }
}
