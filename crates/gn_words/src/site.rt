//! Where a serve listens, and at which address its own Pongs say that it is.

ghost use Rattle.std.specs.Prelude.{◌≡◌, IfOk, option_and_then};
ghost use Rattle.clap.specs.Words.{found_of, rows_of};
ghost use Rattle.gn_text.specs.Addresses.{ip_of, ip_text};
ghost use Rattle.gn_words.specs.Options.{IsReadAs, calls_far, ip_asked, is_all, is_near, site_at, site_of};

use crate::unread::Unread;
use crate::value::Value;
use clap::ArgMatches;
use gn_text::{ip, push_ip};
use std::alloc::{AllocError, Global};

/// Where a router is.
#[derive(Clone, Copy)]
pub struct Site {
    /// The address at which it listens; 0.0.0.0: all those of its machine.
    pub bind: [u8; 4],
    /// The address at which its own Pongs say that it is.
    pub address: [u8; 4],
}

impl Site {
    /// Whether it calls peers on other machines, too: where it listens at an address at which these can call it, which doesn't begin
    /// with 127.
    pub fn calls_far(&self) -> bool
        ensures { result ≡ calls_far self.now }
    {
        !is_near(self.bind)
    }
}

/// Whether an address is one of this machine that no other machine can call: 127 and three bytes more.
pub(crate) fn is_near(ip: [u8; 4]) -> bool
    ensures { result ≡ is_near ip }
{
    ip[0] == 127
}

/// An option that takes an address.
#[derive(Clone, Copy)]
struct AddressOption {
    name: &'static str,
    /// What is said of any other value.
    mistake: &'static str,
}

/// What `--bind` takes.
const BIND: AddressOption = AddressOption {
    name: "bind",
    mistake: "--bind takes an IPv4 address of this machine, or 0.0.0.0",
};

/// What `--address` takes.
const ADDRESS: AddressOption = AddressOption {
    name: "address",
    mistake: "--address takes an IPv4 address",
};

/// The address that a text says, where there is one.
fn ip_said(alloc: Global, text: Option<&str>) -> Result<Option<[u8; 4]>, AllocError>
    ensures { IfOk result (λ found. found ≡ option_and_then (λ s. ip_of s.now) text.entry) }
{
    match text {
        Some(text) => ip(alloc, text.as_bytes()),
        None => Ok(None),
    }
}

/// The address that an option asks for; a mistake, where what it says is none.
fn asked_ip(
    alloc: Global,
    options: &ArgMatches<'_>,
    option: &AddressOption,
) -> Result<[u8; 4], Unread>
    ensures { IsReadAs (λ ip. ip) (ip_asked option.now.name.now (rows_of (found_of options.now))) result }
{
    match ip_said(alloc, options.get_str(option.name))? {
        Some(ip) => Ok(ip),
        None => Err(Unread::Mistake(option.mistake)),
    }
}

/// Whether an address is 0.0.0.0.
fn is_all(ip: [u8; 4]) -> bool
    ensures { result ≡ is_all ip }
{
    (ip[0] == 0 && ip[1] == 0) && (ip[2] == 0 && ip[3] == 0)
}

/// Where a router is that listens at this address, and is asked to say that one. A mistake, where both are 0.0.0.0: nobody can call it there.
fn site_at(bind: [u8; 4], asked: [u8; 4]) -> Result<Site, Unread>
    ensures { IsReadAs (λ site. site) (site_at bind asked) result }
{
    if !is_all(asked) {
        return Ok(Site {
            bind,
            address: asked,
        });
    }
    if is_all(bind) {
        return Err(Unread::Mistake("--bind 0.0.0.0 is taken only with --address"));
    }
    Ok(Site {
        bind,
        address: bind,
    })
}

/// Where the router is that `--bind` and `--address` ask for.
pub fn site_of(alloc: Global, options: &ArgMatches<'_>) -> Result<Site, Unread>
    ensures { IsReadAs (λ site. site) (site_of (rows_of (found_of options.now))) result }
{
    let bind = asked_ip(alloc, options, &BIND)?;
    let asked = asked_ip(alloc, options, &ADDRESS)?;
    site_at(bind, asked)
}

/// An address, as it is printed.
#[derive(Clone, Copy)]
pub(crate) struct Address(pub(crate) [u8; 4]);

impl Value for Address {
    ghost text = { λ address. ip_text address.0 };

    fn push(&self, out: &mut Vec<u8>) -> Result<(), AllocError> {
        push_ip(out, self.0)
    }
}
