//! The two texts of a greeting.

use gn_shake::{consent, request};

/// `GNUTELLA CONNECT/0.4` and two line feeds, by their codes.
pub(crate) const CONNECT: &[u8] =
    b"\x47\x4e\x55\x54\x45\x4c\x4c\x41\x20\x43\x4f\x4e\x4e\x45\x43\x54\x2f\x30\x2e\x34\x0a\x0a";

/// `GNUTELLA OK` and two line feeds, by their codes.
pub(crate) const OK: &[u8] = b"\x47\x4e\x55\x54\x45\x4c\x4c\x41\x20\x4f\x4b\x0a\x0a";

#[test]
fn texts(rt: HostRuntime) {
    assert_eq!(rt; [request(), consent()], [CONNECT, OK]);
}
