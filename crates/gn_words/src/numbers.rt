//! The numbers that options take.

ghost use Rattle.std.specs.Prelude.{◌≡◌, ◌&&◌, nat_le, option_and_then};
ghost use Rattle.clap.specs.Words.{found_of, rows_of};
ghost use Rattle.gn_words.specs.Options.{IsReadAs, limit_asked, number_asked, number_between};

use crate::unread::Unread;
use clap::ArgMatches;
use gn_text::number;

/// An option that takes a number.
#[derive(Clone, Copy)]
pub struct NumberOption {
    /// The option's name.
    pub name: &'static str,
    /// The least that it takes.
    pub least: u32,
    /// The most that it takes.
    pub most: u32,
    /// What is said of any other value.
    pub mistake: &'static str,
}

/// Whether a number is from one to another.
fn is_between(number: u32, least: u32, most: u32) -> bool
    ensures { result ≡ (nat_le least number && nat_le number most) }
{
    least <= number && number <= most
}

/// The number that a text says, where it is within these.
fn number_between(text: Option<&str>, least: u32, most: u32) -> Option<u32>
    ensures { result ≡ option_and_then (λ s. number_between least most s.now) text.entry }
{
    let number = number(text?.as_bytes())?;
    if is_between(number, least, most) {
        Some(number)
    } else {
        None
    }
}

/// The number that an option asks for, where it is within these.
fn number_asked(options: &ArgMatches<'_>, option: &str, least: u32, most: u32) -> Option<u32>
    ensures { result ≡ number_asked option.now least most (rows_of (found_of options.now)) }
{
    number_between(options.get_str(option), least, most)
}

/// The number that an option asks for; a mistake, where it isn't within its limits.
pub fn asked(options: &ArgMatches<'_>, number: &NumberOption) -> Result<u32, Unread>
    ensures { IsReadAs (λ n. n)
        (number_asked number.now.name.now number.now.least number.now.most (rows_of (found_of options.now))) result }
{
    match number_asked(options, number.name, number.least, number.most) {
        Some(asked) => Ok(asked),
        None => Err(Unread::Mistake(number.mistake)),
    }
}

/// The limit that an option asks for; `None`: none, as where its number is 0. A mistake, where another can't be read, or limits of its kind
/// are barred, which this text says.
pub fn limit_asked(
    options: &ArgMatches<'_>,
    number: &NumberOption,
    are_barred: bool,
    barred: &'static str,
) -> Result<Option<u32>, Unread>
    ensures { IsReadAs (λ limit. limit) (limit_asked number.now.name.now number.now.least number.now.most are_barred
        (rows_of (found_of options.now))) result }
{
    let limit = asked(options, number)?;
    if limit == 0 {
        return Ok(None);
    }
    if are_barred {
        return Err(Unread::Mistake(barred));
    }
    Ok(Some(limit))
}
