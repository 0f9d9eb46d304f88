//! A command's page: its name, what help says of it, and its options, in groups.

ghost use Rattle.std.specs.Prelude.{◌≡◌, IfOk, false};
ghost use Rattle.clap.specs.Words.{app_of, new_app};
ghost use Rattle.clap.specs.declared.builder.command.Command.TheViews.{out-Command as fields_of};
ghost use Rattle.gn_words.specs.Pages.{page_app, with_groups};

use crate::rows::{OptionRow, with_options};
use clap::Command;
use std::alloc::{AllocError, Global};

/// Options under one heading of help; under the usual one, where it has none.
#[derive(Clone, Copy)]
pub struct Group {
    pub heading: Option<&'static str>,
    pub rows: &'static [OptionRow],
}

/// What help says of a command, and what it takes.
#[derive(Clone, Copy)]
pub struct Page {
    /// Its name.
    pub name: &'static str,
    /// What it does.
    pub about: &'static str,
    /// How it is called.
    pub usage: &'static str,
    /// What it reads and prints, with an example.
    pub texts: &'static str,
    /// What it takes.
    pub groups: &'static [Group],
}

/// A command before it has its options.
fn leaf<'a>(alloc: Global, page: &Page) -> Command<'a>
    ensures app { app_of result ≡ new_app page.now.name.now }
    ensures globals { (fields_of result).has_globals ≡ false }
{
    Command::new(alloc, page.name)
        .about(page.about)
        .override_usage(page.usage)
        .after_help(page.texts)
}

/// A command with the options of these groups, too.
fn with_groups<'a>(
    alloc: Global,
    mut command: Command<'a>,
    groups: &[Group],
) -> Result<Command<'a>, AllocError>
    requires globals { (fields_of command).has_globals ≡ false }
    ensures shape { IfOk result (λ made. app_of made ≡ with_groups (app_of command.entry) groups.now) }
    ensures globals { IfOk result (λ made. (fields_of made).has_globals ≡ false) }
{
    for group in groups {
        command = with_options(alloc, command, group.heading, group.rows)?;
    }
    Ok(command)
}

/// The command of a page.
pub fn command_of<'a>(alloc: Global, page: &Page) -> Result<Command<'a>, AllocError>
    ensures shape { IfOk result (λ command. app_of command ≡ page_app page.now) }
    ensures globals { IfOk result (λ command. (fields_of command).has_globals ≡ false) }
{
    let command = leaf(alloc, page);
    with_groups(alloc, command, page.groups)
}
