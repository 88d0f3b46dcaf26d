// Numbers in words.
ghost use Rattle.std.specs.Prelude.{◌≡◌, ◌≤◌, IfSome};
ghost use Rattle.std.specs.List.{list_all};
ghost use Rattle.sgml_text.specs.Characters.{is_digit};
ghost use Rattle.sgml_words.specs.Numbers.{begins_with_zero, is_decimal, number_in, selfcheck_number as number_of_selfcheck};

fn all_digits(bytes: &[u8]) -> bool
    ensures { result ≡ list_all is_digit bytes.now }
{
    bytes.iter().all(|b| b.is_ascii_digit())
}

fn is_number(bytes: &[u8]) -> bool
    ensures { result ≡ is_decimal bytes.now }
{
    match bytes {
        [] => false,
        [first, rest @ ..] => first.is_ascii_digit() && all_digits(rest),
    }
}

/// The number that the digits write, if it is in the range.
pub(crate) fn number(text: &str, least: u64, most: u64) -> Option<u64>
    ensures value { result ≡ number_in least most text.now }
    ensures within { IfSome result (λ n. n ≤ most) }
{
    if !is_number(text.as_bytes()) {
        return None;
    }
    match text.parse::<u64>() {
        Ok(n) if n >= least && n <= most => Some(n),
        _ => None,
    }
}

fn has_leading_zero(bytes: &[u8]) -> bool
    ensures { result ≡ begins_with_zero bytes.now }
{
    match bytes {
        [] => false,
        [first, ..] => *first == b'0',
    }
}

/// The number of a selfcheck.
pub(crate) fn selfcheck_number(text: &str) -> Option<u32>
    ensures { result ≡ number_of_selfcheck text.now }
{
    if has_leading_zero(text.as_bytes()) {
        return None;
    }
    let n = number(text, 1, 100_000)?;
    Some(n as u32)
}
