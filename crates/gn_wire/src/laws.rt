//! Laws of encodings and headers that no one call proves.

ghost use Rattle.gn_wire.specs.Equality.{SameIsEqual};
ghost use Rattle.gn_wire.specs.Encoding.{HeadersReturn, EncodingsPart};

/// The law that a header is read back from its bytes, that the bytes which a header was read of are its own, and that what
/// 23 bytes are read as is a header.
pub fn headers_return()
    ensures { HeadersReturn }
{}

/// The law that IDs, keys and descriptors are the same exactly where they are equal.
pub fn same_is_equal()
    ensures { SameIsEqual }
{}

/// The law that no encoding begins another, so that a stream of descriptors is cut in one manner.
pub fn encodings_part()
    ensures { EncodingsPart }
{}
