//! An option with what stands behind it, as it is printed.

ghost use Rattle.std.specs.Prelude.{◌≡◌, ◌++◌, OnOk, codes, map};
ghost use Rattle.gn_words.specs.ConfigTexts.{option_line, peers_lines, row_lines, rows_lines};
ghost use Rattle.gn_words.specs.Sayings.{row_seen, seen};

use crate::callers::Callers;
use crate::peers::Peer;
use crate::retrying::Retry;
use crate::servent::Servent;
use crate::site::Address;
use crate::value::Value;
use std::alloc::AllocError;

/// What stands behind an option.
#[derive(Clone, Copy)]
pub enum Said<'a> {
    /// A number.
    Number(u32),
    /// A limit; 0, where there is none.
    Limit(Option<u32>),
    /// A port; 0, where there is none.
    Port(Option<u16>),
    /// How many callers are taken; `any`, where that isn't limited.
    Callers(Option<u32>),
    /// An address.
    Ip([u8; 4]),
    /// Who a router is.
    Who(Servent),
    /// For how long a peer is called again.
    Again(Retry),
    /// Nothing: it is a flag, which stands there where it is set.
    Flag(bool),
    /// A peer, each time that the option is given: it is for each of these.
    Each(&'a Vec<Peer>),
}

/// Appends an option's name, behind two hyphens. An `Err` is out of memory.
fn push_name(out: &mut Vec<u8>, name: &str) -> Result<(), AllocError>
    ensures { OnOk result (out.new.items ≡ out.old.items ++ (codes "--" ++ name.now)) }
{
    out.extend_from_slice(b"--")?;
    out.extend_from_slice(name.as_bytes())
}

/// Appends an option with its value. An `Err` is out of memory.
fn push_option<V: Value>(out: &mut Vec<u8>, name: &str, value: &V) -> Result<(), AllocError>
    ensures { OnOk result (out.new.items ≡ out.old.items ++ option_line name.now (V.text value.now)) }
{
    push_name(out, name)?;
    out.extend_from_slice(b" ")?;
    value.push(out)?;
    out.extend_from_slice(b"\n")
}

/// Appends an option for each of these peers. An `Err` is out of memory.
fn push_each(out: &mut Vec<u8>, name: &str, peers: &[Peer]) -> Result<(), AllocError>
    ensures { OnOk result (out.new.items ≡ out.old.items ++ peers_lines name.now peers.now) }
{
    for peer in peers {
        push_option(out, name, peer)?;
    }
    Ok(())
}

/// Appends an option that is a flag. An `Err` is out of memory.
fn push_flag(out: &mut Vec<u8>, name: &str) -> Result<(), AllocError>
    ensures { OnOk result (out.new.items ≡ out.old.items ++ (codes "--" ++ name.now ++ codes "\n")) }
{
    push_name(out, name)?;
    out.extend_from_slice(b"\n")
}

/// Appends an option with what stands behind it. An `Err` is out of memory.
fn push_row(out: &mut Vec<u8>, name: &str, said: &Said<'_>) -> Result<(), AllocError>
    ensures { OnOk result (out.new.items ≡ out.old.items ++ row_lines name.now (seen said.now)) }
{
    match *said {
        Said::Number(number) => push_option(out, name, &number),
        Said::Limit(limit) => push_option(out, name, &limit.unwrap_or(0)),
        Said::Port(port) => push_option(out, name, &u32::from(port.unwrap_or(0))),
        Said::Callers(accept) => push_option(out, name, &Callers(accept)),
        Said::Ip(ip) => push_option(out, name, &Address(ip)),
        Said::Who(servent) => push_option(out, name, &servent),
        Said::Again(retry) => push_option(out, name, &retry),
        Said::Flag(false) => Ok(()),
        Said::Flag(true) => push_flag(out, name),
        Said::Each(peers) => push_each(out, name, peers),
    }
}

/// Appends options with what stands behind them. An `Err` is out of memory.
pub fn push_rows(out: &mut Vec<u8>, rows: &[(&str, Said<'_>)]) -> Result<(), AllocError>
    ensures { OnOk result (out.new.items ≡ out.old.items ++ rows_lines (map row_seen rows.now)) }
{
    for row in rows {
        push_row(out, row.0, &row.1)?;
    }
    Ok(())
}
