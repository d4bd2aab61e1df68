//! The seed and the policy of a run, as options.

ghost use Rattle.std.specs.Prelude.{◌≡◌, false, IfOk, IfErr, codes};
ghost use Rattle.std.specs.Option.{SomeIff};
ghost use Rattle.std.specs.Str.Parse.{digits_value};
ghost use Rattle.clap.specs.Words.{first_of, found_of, rows_of, rule_of};
ghost use Rattle.command_line.specs.CommandLine.{IsNumber, Refuses};
ghost use Rattle.command_line.specs.Parsers.{number_option, path_option};
ghost use Rattle.command_line.specs.Numerals.{IsNumeralWithin};
ghost use Rattle.command_line.specs.Policies.{IsPolicy, IsPolicyWord};

use crate::arguments::{number_argument, value_argument};
use crate::run_options::PolicyName;
use crate::usage::Usage;
use clap::{Arg, ArgMatches};
use std::alloc::Global;

/// The name of the option that takes a seed.
pub(crate) const SEED: &str = "seed";

/// The option that takes a seed, for the parser.
pub(crate) fn seed_argument<'a>(alloc: Global) -> Arg<'a>
    ensures rule { rule_of result ≡ number_option (codes "seed") 0 18446744073709551615 }
    ensures local { result.global ≡ false }
{
    number_argument(
        alloc,
        SEED,
        0,
        u64::MAX,
        "The seed of the policy, for the same run again [default: one that is drawn and told]",
    )
}

/// The option that takes a policy, for the parser, which takes any text for it.
pub(crate) fn policy_argument<'a>(alloc: Global) -> Arg<'a>
    ensures rule { rule_of result ≡ path_option (codes "policy") }
    ensures local { result.global ≡ false }
{
    value_argument(
        alloc,
        "policy",
        "POLICY",
        "How threads get turns: mixed, random or rotation [default: mixed]",
    )
}

/// The seed among what the parser found, and `None` where it isn't there.
pub(crate) fn seed_of(alloc: Global, matches: &ArgMatches<'_>) -> Result<Option<u64>, Usage>
    ensures number { IfOk result (IsNumber 0 18446744073709551615
        (first_of (codes "seed") (rows_of (found_of matches.now)))) }
    ensures none { IfErr result (λ usage. Refuses usage ((number : _) → IsNumber 0 18446744073709551615
        (first_of (codes "seed") (rows_of (found_of matches.now))) number → ⊥)) }
{
    match matches.get_str(SEED) {
        None => Ok(None),
        Some(text) => match seed_by(text) {
            Some(seed) => Ok(Some(seed)),
            None => Err(Usage::no_number(alloc, SEED, text)),
        },
    }
}

/// The seed that decimal digits spell. Digits alone do, and no sign.
pub(crate) fn seed_by(text: &str) -> Option<u64>
    ensures { SomeIff result (IsNumeralWithin 0 18446744073709551615 text.now) (digits_value 10 text.now) }
{
    if text.starts_with('+') {
        return None;
    }
    text.parse::<u64>().ok()
}

/// The policy among what the parser found, and `None` where it isn't there.
pub(crate) fn policy_of(
    alloc: Global,
    matches: &ArgMatches<'_>,
) -> Result<Option<PolicyName>, Usage>
    ensures policy { IfOk result (IsPolicy (first_of (codes "policy") (rows_of (found_of matches.now)))) }
    ensures none { IfErr result (λ usage. Refuses usage ((policy : _)
        → IsPolicy (first_of (codes "policy") (rows_of (found_of matches.now))) policy → ⊥)) }
{
    match matches.get_str("policy") {
        None => Ok(None),
        Some(word) => Ok(Some(policy_by(alloc, word)?)),
    }
}

/// The policy that a word names.
fn policy_by(alloc: Global, word: &str) -> Result<PolicyName, Usage>
    ensures named { IfOk result (IsPolicyWord word.now) }
    ensures none { IfErr result (λ usage. Refuses usage ((policy : _) → IsPolicyWord word.now policy → ⊥)) }
{
    if word == "mixed" {
        Ok(PolicyName::Mixed)
    } else if word == "random" {
        Ok(PolicyName::Random)
    } else if word == "rotation" {
        Ok(PolicyName::Rotation)
    } else {
        Err(Usage::no_policy(alloc, word))
    }
}
