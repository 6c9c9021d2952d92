// Numbers among the arguments of a command line.
ghost use Rattle.std.specs.Prelude.{◌≡◌, ◌<◌, ◌^◌};
ghost use Rattle.std.specs.Str.{all_ascii_digits};
ghost use Rattle.tools_cli_spec.specs.Numbers.{is_number, number_within};

fn are_digits(bytes: &[u8]) -> bool
    ensures { result ≡ all_ascii_digits bytes.now }
{
    for byte in bytes {
        if !byte.is_ascii_digit() {
            return false;
        }
    }
    true
}

// Whether the text is one to ten decimal digits.
fn is_number(text: &str) -> bool
    ensures { result ≡ is_number text.now }
{
    are_digits(text.as_bytes()) && !text.is_empty() && text.len() < 11
}

/// Returns the number whose decimal digits the text is, if it is from `least` to `most`.
pub(crate) fn number_within(text: &str, least: u32, most: u32) -> Option<u32>
    ensures { result ≡ number_within least most text.now }
{
    if !is_number(text) {
        return None;
    }
    // a number that does not fit a u32 is above `most` too
    match text.parse::<u32>() {
        Ok(number) if least <= number && number <= most => Some(number),
        _ => None,
    }
}
