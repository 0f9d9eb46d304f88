//! The flags that are given.

ghost use Rattle.std.specs.Prelude.{◌≡◌, codes, false};
ghost use Rattle.std.specs.Option.{option_map_or};
ghost use Rattle.std.specs.Str.{bytes_eq};
ghost use Rattle.clap.specs.Words.{found_of, rows_of};
ghost use Rattle.gn_words.specs.Options.{is_set};

use clap::ArgMatches;

/// Whether a flag's value says that it is given.
fn is_true(value: Option<&str>) -> bool
    ensures { result ≡ option_map_or (λ s. bytes_eq s.now (codes "true")) value.entry false }
{
    match value {
        Some("true") => true,
        _ => false,
    }
}

/// Whether a flag is given.
pub fn is_set(options: &ArgMatches<'_>, flag: &str) -> bool
    ensures { result ≡ is_set flag.now (rows_of (found_of options.now)) }
{
    is_true(options.get_str(flag))
}
