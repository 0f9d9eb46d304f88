//! Laws of frames that no one call proves.

ghost use Rattle.gn_frames.specs.Frames.{FramesAreCut, FramesAreOne};
ghost use Rattle.gn_frames.specs.Reassembly.{PiecesAreOneStream};

/// The law that a string of bytes has just one reading as descriptors and a rest, so that a stream's frames are stated by its
/// bytes alone.
pub fn frames_are_one()
    ensures { FramesAreOne }
{}

/// The law that the frames of a stream are those of what came first, and then those of its rest with what came later.
pub fn frames_are_cut()
    ensures { FramesAreCut }
{}

/// The law that pieces fed one by one give the frames of all their bytes, however the stream is cut.
pub fn pieces_are_one_stream()
    ensures { PiecesAreOneStream }
{}
