//! The arguments of a subcommand, and the usage faults of this program.

ghost use Rattle.std.specs.Prelude.{◌≡◌, ◌↔◌, IsTrue, Some, codes, map, option_map};
ghost use Rattle.clap.specs.Words.{all_of, first_of, rows_of, found_of};
ghost use Rattle.mls_commands.specs.Orders.{IsHelp};

use crate::order::OrderFault;
use clap::ArgMatches;
use std::alloc::Global;

/// Returns a usage fault of this program.
pub(crate) fn usage(alloc: Global, text: &str) -> OrderFault
    ensures { IsHelp result → ⊥ }
{
    match String::from_str(alloc, text) {
        Ok(text) => OrderFault::Usage(text),
        Err(_) => OrderFault::Memory,
    }
}

/// Returns the value of an argument.
pub(crate) fn value<'a>(matches: &ArgMatches<'a>, id: &str) -> Option<&'a str>
    ensures { option_map (λ s. s.now) result ≡ first_of id.now (rows_of (found_of matches.now)) }
{
    matches.get_str(id)
}

/// Returns the values of an argument that can have several.
pub(crate) fn values<'m, 'a>(matches: &'m ArgMatches<'a>, id: &str) -> Option<&'m [&'a str]>
    ensures { option_map (λ s. map (λ v. v.now) s.now) result
        ≡ all_of id.now (rows_of (found_of matches.now)) }
{
    matches.get_strs(id)
}

/// Returns whether an option without a value is given.
pub(crate) fn is_set(matches: &ArgMatches<'_>, id: &str) -> bool
    ensures { IsTrue result
        ↔ (first_of id.now (rows_of (found_of matches.now)) ≡ Some (codes "true")) }
{
    value(matches, id) == Some("true")
}
