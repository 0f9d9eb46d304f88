//! What is wrong with a line, and its names.

ghost use Rattle.std.specs.Prelude.{◌≡◌};
ghost use Rattle.gn_numbers.specs.Names.{cause_name};

/// What is wrong with a line, in the order in which the causes are looked at.
#[derive(Clone, Copy, Debug, PartialEq, Eq)]
pub enum Cause {
    /// The first line isn't the one of this text.
    Header,
    /// The second line isn't a configuration, or one of its numbers is out of its limit.
    Config,
    /// The third line doesn't name the own servent.
    Own,
    /// The first field isn't a word of a capture.
    Word,
    /// The word has another number of fields.
    Fields,
    /// A field, or the step of a history, can't be read.
    Field,
    /// Bytes for a link that isn't made yet, or one link too many.
    Link,
    /// A line of a capture that `load` doesn't take.
    Load,
    /// The line `end` is missing, or something stands after it.
    End,
}

/// The name of a cause.
pub fn cause_name(cause: Cause) -> &'static str
    ensures { result.now ≡ cause_name cause }
{
    match cause {
        Cause::Header => "header",
        Cause::Config => "config",
        Cause::Own => "own",
        Cause::Word => "word",
        Cause::Fields => "fields",
        Cause::Field => "field",
        Cause::Link => "link",
        Cause::Load => "load",
        Cause::End => "end",
    }
}
