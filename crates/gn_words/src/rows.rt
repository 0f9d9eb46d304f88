//! A command's options as rows of a table, and what clap is told of each.

ghost use Rattle.std.specs.Prelude.{◌≡◌, IfOk, map, false};
ghost use Rattle.clap.specs.Words.{app_of, rule_of};
ghost use Rattle.clap.specs.declared.builder.command.Command.TheViews.{out-Command as fields_of};
ghost use Rattle.gn_words.specs.Rows.{lettered, option_rule, taking, with_rules};

use clap::{Arg, ArgAction, Command};
use std::alloc::{AllocError, Global};

/// What stands behind an option, under the name that help gives it.
#[derive(Clone, Copy)]
pub enum Takes {
    /// Nothing: it is a flag.
    Nothing,
    /// A value, and the option has to be given.
    Value(&'static str),
    /// A value, which is the second text where the option isn't given.
    Usual(&'static str, &'static str),
    /// The same, and help doesn't show the usual value.
    Unshown(&'static str, &'static str),
    /// A value, each time that the option is given.
    Values(&'static str),
}

/// An option of a command.
#[derive(Clone, Copy)]
pub struct OptionRow {
    /// Its name, behind two hyphens.
    pub name: &'static str,
    /// The letter that stands for it behind one hyphen.
    pub letter: Option<char>,
    /// What stands behind it.
    pub takes: Takes,
    /// What help says of it.
    pub help: &'static str,
}

/// The same argument, with what stands behind it.
fn with_value<'a>(arg: Arg<'a>, takes: Takes) -> Arg<'a>
    ensures rule { rule_of result ≡ taking (rule_of arg.entry) takes }
    ensures local { result.global ≡ arg.entry.global }
{
    match takes {
        Takes::Nothing => arg.action(ArgAction::SetTrue),
        Takes::Value(shown) => arg.value_name(shown).required(true).action(ArgAction::Set),
        Takes::Usual(shown, usual) => arg
            .value_name(shown)
            .default_value(usual)
            .action(ArgAction::Set),
        Takes::Unshown(shown, usual) => arg
            .value_name(shown)
            .default_value(usual)
            .hide_default_value(true)
            .action(ArgAction::Set),
        Takes::Values(shown) => arg.value_name(shown).action(ArgAction::Append),
    }
}

/// The same argument, with its letter, where it has one.
fn with_letter<'a>(arg: Arg<'a>, letter: Option<char>) -> Arg<'a>
    ensures rule { rule_of result ≡ lettered (rule_of arg.entry) letter }
    ensures local { result.global ≡ arg.entry.global }
{
    match letter {
        Some(letter) => arg.short(letter),
        None => arg,
    }
}

/// The same argument, under this heading of help, where there is one.
fn under<'a>(arg: Arg<'a>, heading: Option<&'static str>) -> Arg<'a>
    ensures rule { rule_of result ≡ rule_of arg.entry }
    ensures local { result.global ≡ arg.entry.global }
{
    match heading {
        Some(heading) => arg.help_heading(heading),
        None => arg,
    }
}

/// The argument of a row.
fn arg_of<'a>(alloc: Global, row: &OptionRow) -> Arg<'a>
    ensures rule { rule_of result ≡ option_rule row.now }
    ensures local { result.global ≡ false }
{
    let named = Arg::new(alloc, row.name).long(row.name).help(row.help);
    with_value(with_letter(named, row.letter), row.takes)
}

/// A command with these options too, under this heading of help; under the usual one, where that is `None`.
pub(crate) fn with_options<'a>(
    alloc: Global,
    mut command: Command<'a>,
    heading: Option<&'static str>,
    rows: &[OptionRow],
) -> Result<Command<'a>, AllocError>
    requires globals { (fields_of command).has_globals ≡ false }
    ensures shape { IfOk result (λ made. app_of made ≡ with_rules (app_of command.entry) (map option_rule rows.now)) }
    ensures globals { IfOk result (λ made. (fields_of made).has_globals ≡ false) }
{
    for row in rows {
        command = command.arg(under(arg_of(alloc, row), heading))?;
    }
    Ok(command)
}
