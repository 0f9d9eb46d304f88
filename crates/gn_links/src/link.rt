//! A link and its two halves.

ghost use Rattle.std.specs.Prelude.{◌≡◌, ◌≤◌, Bool, false, length, true, IfOk, OnErr};
ghost use Rattle.gn_shake.specs.declared.role.Role.{Role};
ghost use Rattle.gn_links.specs.Halves.{HasRead, HasWritten, IsNewReader, IsNewWriter, IsReadFrom, ReadHalf, Source, WrittenHalf};

use gn_shake::Role;
use std::sync::Wait;

/// A read or a write of a link failed, or its split.
#[derive(Clone, Copy, Debug, PartialEq, Eq)]
pub struct LinkFault;

/// The half of a link that gives the bytes of its other side. Its counts go up to the last u64 and stay there.
pub trait LinkReader: Drop {
    /// What it says of the link that it was split from.
    type Origin;

    /// The link that it was split from.
    ghost made_of: { Self → Self.Origin };

    /// What the reader of such a link is to give. A link whose reader knows only what it has read isn't foretold.
    ghost gives: { Self.Origin → Source };

    /// The bytes that its reads gave so far, where they are known; how many reads failed, how many gave bytes, and whether
    /// one into a nonempty buffer gave none.
    ghost state: { Self → ReadHalf };

    /// Whether it was finished.
    ghost is_finished: { Self → Bool };

    /// Waits for bytes, puts them at the beginning of the buffer, and gives their number. 0 into a nonempty buffer says
    /// that there are no more.
    fn read<R: Wait>(&mut self, rt: &R, buffer: &mut [u8]) -> Result<usize, LinkFault>
        ensures within { IfOk result (λ n. n ≤ length buffer.old) }
        ensures made { made_of self.new ≡ made_of self.old }
        ensures state { HasRead result buffer.new (state self.old) (state self.new) }
        ensures prefix { IsReadFrom (gives (made_of self.new)) (state self.new) }
        ensures allowed { OnErr result ((gives (made_of self.new)).may_fail ≡ true) };

    /// There is nothing more to read.
    fn finish<R: Wait>(&mut self, rt: &R)
        ensures is_finished { is_finished self.new ≡ true }
        ensures made { made_of self.new ≡ made_of self.old }
        ensures state { state self.new ≡ state self.old };
}

/// The half of a link that takes the bytes for its other side. Its count goes up to the last u64 and stays there.
pub trait LinkWriter: Drop {
    /// What it says of the link that it was split from.
    type Origin;

    /// The link that it was split from.
    ghost made_of: { Self → Self.Origin };

    /// The bytes that it took so far, where they are known; how many writes failed, whether one of a nonempty piece took
    /// nothing, and whether it was finished.
    ghost state: { Self → WrittenHalf };

    /// Takes the first bytes of the piece, and gives their number.
    fn write<R: Wait>(&mut self, rt: &R, piece: &[u8]) -> Result<usize, LinkFault>
        ensures within { IfOk result (λ n. n ≤ length piece.now) }
        ensures made { made_of self.new ≡ made_of self.old }
        ensures state { HasWritten result piece.now (state self.old) (state self.new) };

    /// There is nothing more to write.
    fn finish<R: Wait>(&mut self, rt: &R)
        ensures made { made_of self.new ≡ made_of self.old }
        ensures state { state self.new ≡ record (state self.old) { is_finished = true } };
}

/// What a run reads from and writes to.
pub trait Link: Drop {
    /// What its halves say of it.
    type Origin;

    /// The half that reads. It goes to the thread of the link's reader.
    type Reader: LinkReader<Origin = Self::Origin>;

    /// The half that writes. It goes to the thread of the link's writer.
    type Writer: LinkWriter<Origin = Self::Origin>;

    /// How it begins.
    ghost role_of: { Self → Role };

    /// The link itself, as its halves say of it.
    ghost origin_of: { Self → Self.Origin };

    /// Whether its split may fail.
    ghost may_not_split: { Self → Bool };

    /// How it begins.
    fn role(&self) -> Role
        ensures { result ≡ role_of self.now };

    /// Its two halves, which are new.
    fn split(self) -> Result<(Self::Reader, Self::Writer), LinkFault>
    where
        Self: Sized,
        ensures reader { IfOk result (λ h. IsNewReader (Self.Reader.state h.0)) }
        ensures writer { IfOk result (λ h. IsNewWriter (Self.Writer.state h.1)) }
        ensures open { IfOk result (λ h. Self.Reader.is_finished h.0 ≡ false) }
        ensures made { IfOk result (λ h. (Self.Reader.made_of h.0 ≡ origin_of self)
            × (Self.Writer.made_of h.1 ≡ origin_of self)) }
        ensures allowed { OnErr result (may_not_split self ≡ true) };
}
