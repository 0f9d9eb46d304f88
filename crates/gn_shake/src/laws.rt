//! Laws of the greeting that no one call proves.

ghost use Rattle.gn_shake.specs.Greeting.{GreetingIsKnown};
ghost use Rattle.gn_shake.specs.Shaking.{PiecesAreOneStream};

/// The law that the state of a stream is accepted where the greeting begins it, refused where the two differ, open otherwise.
pub fn greeting_is_known()
    ensures { GreetingIsKnown }
{}

/// The law that pieces fed one by one are answered as their bytes in one stream.
pub fn pieces_are_one_stream()
    ensures { PiecesAreOneStream }
{}
