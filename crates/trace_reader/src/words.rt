//! Words and numbers of a line, each with the bytes behind it.

ghost use Rattle.std.specs.Prelude.{◌≡◌, ◌≤◌, ◌<◌, ◌^◌, length, IfSome, IfNone};
ghost use Rattle.std.specs.List.{prefix_len};
ghost use Rattle.std.specs.Char.{is_ascii_digit};
ghost use Rattle.std.specs.Str.Parse.{digits_value, AllDigits};
ghost use Rattle.hb_wire.specs.Reading.{Shows};
ghost use Rattle.trace_reader.specs.Reading.{after, is_plain, number_at, number_before};

// A field and the bytes behind it.
pub(crate) type Field<'a, T> = Option<(T, &'a [u8])>;

// The bytes behind a word, where they begin with it.
pub(crate) fn after<'a>(bytes: &'a [u8], word: &[u8]) -> Option<&'a [u8]>
    ensures { Shows (λ rest. rest.now) result (after word.now bytes.now) }
{
    bytes.strip_prefix(word)
}

// Whether digits are a single one, or begin with another than 0.
fn is_plain(digits: &[u8]) -> bool
    ensures { result ≡ is_plain digits.now }
{
    digits.len() == 1 || (!digits.is_empty() && digits[0] > b'0')
}

// The number that digits spell, where there are some and it is below 2 ^ 64.
fn value_of(digits: &[u8]) -> Option<u64>
    requires { AllDigits 10 digits.now }
    ensures found { IfSome result (λ number. number ≡ digits_value 10 digits.now) }
    ensures none { IfNone result (0 < length digits.now → 2 ^ 64 ≤ digits_value 10 digits.now) }
{
    match str::from_utf8(digits) {
        Ok(text) => text.parse::<u64>().ok(),
        Err(_) => None,
    }
}

// How many digits stand at the front.
fn count_digits(bytes: &[u8]) -> usize
    ensures { result ≡ prefix_len is_ascii_digit bytes.now }
{
    bytes
        .iter()
        .take_while(|byte| byte.is_ascii_digit())
        .count()
}

// A number in decimal without needless zeros, at most so large.
#[tactic(auto, unfolding(crate::specs::Reading::number_at))]
fn number_at(bytes: &[u8], most: u64) -> Field<'_, u64>
    ensures read { Shows (λ x. (x.0, x.1.now)) result (number_at most bytes.now) }
    ensures small { IfSome result (λ x. x.0 ≤ most) }
{
    let (digits, rest) = bytes.split_at(count_digits(bytes));
    if !is_plain(digits) {
        return None;
    }
    let number = value_of(digits)?;
    if number > most {
        return None;
    }
    Some((number, rest))
}

// A number that is at most so large, and a word behind it.
#[tactic(auto, unfolding(crate::specs::Reading::number_before))]
pub(crate) fn number_before<'a>(bytes: &'a [u8], most: u64, word: &[u8]) -> Field<'a, u64>
    ensures read { Shows (λ x. (x.0, x.1.now)) result (number_before word.now most bytes.now) }
    ensures small { IfSome result (λ x. x.0 ≤ most) }
{
    let (number, rest) = number_at(bytes, most)?;
    let rest = after(rest, word)?;
    Some((number, rest))
}

// A number of one byte, and a word behind it.
pub(crate) fn byte_before<'a>(bytes: &'a [u8], word: &[u8]) -> Field<'a, u8>
    ensures { Shows (λ x. (x.0, x.1.now)) result (number_before word.now 255 bytes.now) }
{
    let (number, rest) = number_before(bytes, 255, word)?;
    Some((number as u8, rest))
}
