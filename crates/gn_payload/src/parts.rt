//! The parts that payloads are made of.

ghost use Rattle.std.specs.Prelude.{◌≡◌, ◌≤◌, ◌==◌, length, take, option_map};
ghost use Rattle.std.specs.List.{position};
ghost use Rattle.gn_payload.specs.Reading.{text_reading};
ghost use Rattle.gn_payload.specs.Refusals as refusals;

/// The first `N` bytes.
pub(crate) fn first_bytes<const N: usize>(bytes: &[u8]) -> [u8; N]
    requires { N ≤ length bytes.now }
    ensures { result ≡ take N bytes.now }
{
    let mut first = [0u8; N];
    first.copy_from_slice(&bytes[..N]);
    first
}

/// Where the first zero byte stands.
fn first_zero(bytes: &[u8]) -> Option<usize>
    ensures { result ≡ position (λ b. b == 0) bytes.now }
{
    bytes.iter().position(|b| *b == 0)
}

/// The text before the first zero byte, and what follows that byte. `None` where no byte is zero.
#[tactic(auto, using(crate::proofs::TextLemmas::text_by_place))]
pub(crate) fn split_text(bytes: &[u8]) -> Option<(&[u8], &[u8])>
    ensures { option_map (λ x. (x.0.now, x.1.now)) result ≡ text_reading bytes.now }
{
    let zero = first_zero(bytes)?;
    Some((&bytes[..zero], &bytes[zero + 1..]))
}

/// Whether a zero byte stands in the text.
pub(crate) fn has_zero(text: &[u8]) -> bool
    ensures { result ≡ refusals.has_zero text.now }
{
    text.iter().any(|b| *b == 0)
}
