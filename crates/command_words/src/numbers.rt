//! Numbers among the values of the options.
ghost use Rattle.std.specs.Prelude.{◌≡◌, ◌≤◌, IfOk, IfSome};
ghost use Rattle.std.specs.Option.{option_copied};
ghost use Rattle.command_words.specs.Usage.{number_within, number_or, number_if};

use crate::refusal::Refusal;

/// The number that digits write, where it is one from `least` to `most`.
pub(crate) fn number_within(least: u64, most: u64, value: &str) -> Option<u64>
    ensures { result ≡ number_within least most value.now }
{
    // `parse` takes a plus too.
    if value.starts_with('+') {
        return None;
    }
    match value.parse::<u64>() {
        Err(_) => None,
        Ok(number) if least <= number && number <= most => Some(number),
        Ok(_) => None,
    }
}

/// The number of an option, or its default where it isn't given.
pub(crate) fn number_or(
    refusal: Refusal,
    default: u64,
    least: u64,
    most: u64,
    value: Option<&str>,
) -> Result<u64, Refusal>
    requires low { least ≤ default }
    requires high { default ≤ most }
    ensures number { result ≡ number_or refusal default least most (option_copied value.entry) }
    ensures least { IfOk result (λ number. least ≤ number) }
    ensures most { IfOk result (λ number. number ≤ most) }
{
    match value {
        None => Ok(default),
        Some(value) => number_within(least, most, value).ok_or(refusal),
    }
}

/// The number of an option that may be absent.
pub(crate) fn number_if(
    refusal: Refusal,
    least: u64,
    most: u64,
    value: Option<&str>,
) -> Result<Option<u64>, Refusal>
    ensures number { result ≡ number_if refusal least most (option_copied value.entry) }
    ensures most { IfOk result (λ number. IfSome number (λ value. value ≤ most)) }
{
    match value {
        None => Ok(None),
        Some(value) => match number_within(least, most, value) {
            None => Err(refusal),
            Some(number) => Ok(Some(number)),
        },
    }
}
