//! The numbers that texts state.
ghost use Rattle.std.specs.Prelude.{◌≡◌, ◌≤◌, IfSome};
ghost use Rattle.a429_arguments.specs.CommandLine.{number_up_to};

/// The number that a text states. `None` if it states no whole number up to this one.
pub fn number_up_to(text: &str, most: u64) -> Option<u64>
    ensures number { result ≡ number_up_to most text.now }
    ensures most { IfSome result (λ number. number ≤ most) }
{
    match text.parse::<u64>() {
        Ok(number) => { if number <= most { Some(number) } else { None } }
        Err(_) => None,
    }
}

/// The same of a number below 2^32.
pub fn short_number_up_to(text: &str, most: u32) -> Option<u32>
    ensures { result ≡ number_up_to most text.now }
{
    Some(number_up_to(text, u64::from(most))? as u32)
}
