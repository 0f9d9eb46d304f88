//! The two texts of the greeting.

ghost use Rattle.std.specs.Prelude.{◌≡◌};
ghost use Rattle.gn_shake.specs.Greeting.{consent_text, request_text};

/// What a calling servent sends, 22 bytes (Gnutella v0.4, "Protocol definition").
pub fn request() -> &'static [u8]
    ensures { result.now ≡ request_text }
{
    b"GNUTELLA CONNECT/0.4\n\n"
}

/// What an accepting servent answers where it is willing, 13 bytes (Gnutella v0.4, "Protocol definition").
pub fn consent() -> &'static [u8]
    ensures { result.now ≡ consent_text }
{
    b"GNUTELLA OK\n\n"
}
