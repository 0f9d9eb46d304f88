//! Numbers of one to ten decimal digits.

ghost use Rattle.std.specs.Prelude.{◌≡◌, ◌∷◌, []};
ghost use Rattle.std.specs.Char.{is_ascii_digit};
ghost use Rattle.std.specs.List.{list_all};
ghost use Rattle.gn_numbers.specs.Numbers.{number_below, number_of};

/// Whether it has decimal digits alone, as a field without bytes does.
fn is_digits(field: &[u8]) -> bool
    ensures { result ≡ list_all is_ascii_digit field.now }
{
    field.iter().all(|b| b.is_ascii_digit())
}

/// The number that a field of one byte says.
fn one_digit(digit: u8) -> Option<u32>
    ensures { result ≡ number_of (digit ∷ []) }
{
    match digit {
        b'0'..=b'9' => Some(u32::from(digit - b'0')),
        _ => None,
    }
}

/// The number that a field of any length says.
fn number_parsed(field: &[u8]) -> Option<u32>
    ensures { result ≡ number_of field.now }
{
    if field.is_empty() || field.len() > 10 || !is_digits(field) {
        return None;
    }
    match std::str::from_utf8(field) {
        Ok(text) => text.parse::<u32>().ok(),
        Err(_) => None,
    }
}

/// The number that one to ten digits say, leading zeros among them, where it is at most 4,294,967,295.
pub fn number(field: &[u8]) -> Option<u32>
    ensures { result ≡ number_of field.now }
{
    // Most numbers of a capture are connections and links, of one digit.
    match field {
        [digit] => one_digit(*digit),
        _ => number_parsed(field),
    }
}

/// The number, where it is at most 255, as a TTL or a part of an address is.
pub fn number_u8(field: &[u8]) -> Option<u8>
    ensures { result ≡ number_below 256 field.now }
{
    match number(field) {
        Some(n) => u8::try_from(n).ok(),
        None => None,
    }
}

/// The number, where it is at most 65,535, as a port or a speed is.
pub fn number_u16(field: &[u8]) -> Option<u16>
    ensures { result ≡ number_below 65536 field.now }
{
    match number(field) {
        Some(n) => u16::try_from(n).ok(),
        None => None,
    }
}
