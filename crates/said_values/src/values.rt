ghost use Rattle.std.specs.Prelude.{◌≡◌, ◌≤◌, ◌^◌, Some, IfOk, IfSome, IfNone, codes};
ghost use Rattle.clap.specs.Words.{first_value, found_of};
ghost use Rattle.said_values.specs.Values.{limits_of, made_of, number_between, number_or, within, workers_of};

use crate::number::number;
use clap::ArgMatches;
use serial_model::Limits;
use std::alloc::{AllocError, Global};
use value_core::Text;

/// The value of that name, if it has one.
pub fn text(alloc: Global, given: &ArgMatches<'_>, name: &str) -> Result<Option<Text>, AllocError>
    ensures { IfOk result (λ text. text ≡ first_value (found_of given.now) name.now) }
{
    match given.get_str(name) {
        Some(value) => Ok(Some(Text::from_bytes(alloc, value.as_bytes())?)),
        None => Ok(None),
    }
}

/// The number and the size of a made program, and `None` where a value is no number or is out of its range.
pub fn made(given: &ArgMatches<'_>) -> Option<(u32, u32)>
    ensures { result ≡ made_of (first_value (found_of given.now)) }
{
    let number = number_between(given, "number", 0, 2_147_483_647)?;
    let size = number_between(given, "size", 1, 10_000)?;
    Some((number, size))
}

/// How many workers there are to be, and `None` where the value spells no number from 1 to 64. There are 4 where no value says it.
pub fn workers(given: &ArgMatches<'_>) -> Option<u32>
    ensures { result ≡ workers_of (first_value (found_of given.now) (codes "workers")) }
{
    match given.get_str("workers") {
        Some(text) => number_within(text, 1, 64),
        None => Some(4),
    }
}

/// The limits, and `None` where a value is no number or is out of its range.
pub fn limits(given: &ArgMatches<'_>) -> Option<Limits>
    ensures { result ≡ limits_of (first_value (found_of given.now)) }
{
    let fuel = number_or(given, "fuel", Limits::default().fuel())?;
    let units = number_or(given, "units", u64::from(Limits::default().units()))?;
    Limits::checked(fuel, u32::try_from(units).ok()?)
}

/// The number that the value of that name spells, or `default` where it has none. `None` where the value spells none,
/// or one above a `u64`.
fn number_or(given: &ArgMatches<'_>, name: &str, default: u64) -> Option<u64>
    ensures some { IfSome result (λ n. number_or default (first_value (found_of given.now) name.now) ≡ Some n) }
    ensures none { IfNone result (IfSome (number_or default (first_value (found_of given.now) name.now))
        (λ n. 2 ^ 64 ≤ n)) }
{
    match given.get_str(name) {
        Some(text) => number(text),
        None => Some(default),
    }
}

/// The number from `least` to `most` that the value of that name spells. `None` where it has no value, and where the value
/// spells no such number.
fn number_between(given: &ArgMatches<'_>, name: &str, least: u32, most: u32) -> Option<u32>
    ensures { result ≡ number_between least most (first_value (found_of given.now) name.now) }
{
    match given.get_str(name) {
        Some(text) => number_within(text, least, most),
        None => None,
    }
}

/// The number from `least` to `most` that the text spells. `None` where it spells no such number.
fn number_within(text: &str, least: u32, most: u32) -> Option<u32>
    ensures { result ≡ number_between least most (Some text.now) }
{
    match number(text) {
        Some(number) => within(number, least, most),
        None => None,
    }
}

/// The number, if it is from `least` to `most`.
fn within(number: u64, least: u32, most: u32) -> Option<u32>
    ensures { result ≡ within least most number }
{
    if u64::from(least) <= number && number <= u64::from(most) {
        u32::try_from(number).ok()
    } else {
        None
    }
}
