//! The strict rules that the arguments of a subcommand ask.

ghost use Rattle.std.specs.Prelude.{◌≡◌, None, IfOk, IfErr, IfSome};
ghost use Rattle.clap.specs.Words.{rows_of, found_of};
ghost use Rattle.mls_msgs.specs.Rules.{strict_rules};
ghost use Rattle.mls_msgs.specs.declared.rules.Rules.{Rules};
ghost use Rattle.mls_commands.specs.Orders.{Allows, AreAsked, IsHelp, IsWithout, RefusesArguments};

use crate::arguments::{is_set, usage, value};
use crate::order::OrderFault;
use clap::ArgMatches;
use mls_msgs::Rules;
use std::alloc::Global;

/// Returns the set without the strict rule whose number has these two decimal digits, or `None` if they are no digits, or
/// the set has no such rule.
fn without_number(asked: Rules, tens: u8, ones: u8) -> Option<Rules>
    ensures without { IfSome result (IsWithout asked tens ones) }
    ensures refused { result ≡ None → (rules : Rules) → IsWithout asked tens ones rules → ⊥ }
{
    if !tens.is_ascii_digit() || !ones.is_ascii_digit() {
        return None;
    }
    let number = (tens - b'0') * 10 + (ones - b'0');
    if !asked.has(number) {
        return None;
    }
    asked.without(number)
}

/// Returns the set without the strict rules that the text names: each by its two digits, with commas between. Returns `None`
/// if the text has another form, is empty, or names a rule twice or one that the set lacks.
fn without_numbers(asked: Rules, text: &[u8]) -> Option<Rules>
    ensures without { IfSome result (Allows asked text.now) }
    ensures refused { result ≡ None → (rules : Rules) → Allows asked text.now rules → ⊥ }
{
    match text {
        [tens, ones] => without_number(asked, *tens, *ones),
        [tens, ones, b',', others @ ..] => {
            let fewer = without_number(asked, *tens, *ones)?;
            without_numbers(fewer, others)
        }
        _ => None,
    }
}

/// Returns all strict rules but those that the text names, as the value of `--allow` does.
fn allowed_rules(text: &str) -> Option<Rules>
    ensures without { IfSome result (Allows strict_rules text.now) }
    ensures refused { result ≡ None → (rules : Rules) → Allows strict_rules text.now rules → ⊥ }
{
    without_numbers(Rules::strict(), text.as_bytes())
}

/// Returns the strict rules that the arguments ask: none without `--strict`, and all with it but those that `--allow` names.
pub(crate) fn asked_rules(alloc: Global, matches: &ArgMatches<'_>) -> Result<Rules, OrderFault>
    ensures rules { IfOk result (AreAsked (rows_of (found_of matches.now))) }
    ensures refused { IfErr result (RefusesArguments (AreAsked (rows_of (found_of matches.now)))) }
    ensures never_help { IfErr result (λ e. IsHelp e → ⊥) }
{
    match (is_set(matches, "strict"), value(matches, "allow")) {
        (false, None) => Ok(Rules::plain()),
        (true, None) => Ok(Rules::strict()),
        (true, Some(numbers)) => match allowed_rules(numbers) {
            Some(rules) => Ok(rules),
            None => Err(usage(
                alloc,
                "usage: NUMBERS are rules from 40 to 52, with commas between, none twice\n",
            )),
        },
        (false, Some(_)) => Err(usage(alloc, "usage: --allow is for --strict\n")),
    }
}
