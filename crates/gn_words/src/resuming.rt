//! Whether a serve goes on with a history of before.

ghost use Rattle.clap.specs.Words.{found_of, rows_of};
ghost use Rattle.gn_words.specs.Options.{IsReadAs, resumes_by, resumes_of};

use crate::flags::is_set;
use crate::servent::Servent;
use crate::unread::Unread;
use clap::ArgMatches;

/// Whether it does, where it may: with any number of callers, by the same servent each time, and with a standard input that ends nothing.
fn resumes_by(
    accept: Option<u32>,
    until_eof: bool,
    servent: Servent,
    resumes: bool,
) -> Result<bool, Unread>
    ensures { IsReadAs (λ r. r) (resumes_by accept until_eof servent resumes) result }
{
    match (accept, until_eof, servent, resumes) {
        (_, _, _, false) => Ok(false),
        (Some(_), _, _, true) => Err(Unread::Mistake("--resume is taken only with --accept any")),
        (None, true, _, true) => Err(Unread::Mistake("--resume isn't taken with --until-eof")),
        (None, false, Servent::Random, true) => Err(Unread::Mistake(
            "--resume isn't taken with --servent random",
        )),
        (None, false, Servent::Given(_), true) => Ok(true),
    }
}

/// Whether `--resume` asks for that, of a serve of so many callers, or any number, and of this servent.
pub fn resumes_of(
    options: &ArgMatches<'_>,
    accept: Option<u32>,
    servent: Servent,
) -> Result<bool, Unread>
    ensures { IsReadAs (λ r. r) (resumes_of accept servent (rows_of (found_of options.now))) result }
{
    let until_eof = is_set(options, "until-eof");
    resumes_by(accept, until_eof, servent, is_set(options, "resume"))
}
