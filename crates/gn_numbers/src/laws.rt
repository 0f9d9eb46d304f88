//! The law of the names.

ghost use Rattle.gn_numbers.specs.Names.{NamesAreRead};

/// The law that each name is read as what it names.
pub fn names_are_read()
    ensures { NamesAreRead }
{}
