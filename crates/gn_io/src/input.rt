//! Input read whole.

ghost use Rattle.std.specs.Prelude.{◌≡◌, ◌≤◌, length, IfOk, IfErr, IfSome, OnOk};
ghost use Rattle.gn_io.specs.Input.{input_limit, IsInputFault};
ghost use Rattle.gn_io.specs.Streams.{NoReadFailed, text_between};

use crate::source::Source;
use std::alloc::Allocator;

/// Why no input was read.
#[derive(Clone, Copy, Debug, PartialEq, Eq)]
pub enum InputFault {
    /// A read failed.
    Read,
    /// There are more than 67,108,864 bytes.
    TooLarge,
    /// Out of memory.
    NoMemory,
}

/// The most bytes of an input.
const LIMIT: usize = 67_108_864;

/// Reads all there is, where that is at most 67,108,864 bytes. Too large an input is read no further than it takes to
/// see that.
pub fn read_input<A: Allocator, S: Source>(
    alloc: A,
    source: &mut S,
) -> Result<Vec<u8, A>, InputFault>
    ensures all { IfOk result (λ input. IfSome (text_between (S.state source.old) (S.state source.new))
        (λ bytes. input.items ≡ bytes)) }
    ensures short { IfOk result (λ input. length input.items ≤ input_limit) }
    ensures unfailed { OnOk result (NoReadFailed (S.state source.old) (S.state source.new)) }
    ensures fault { IfErr result (λ fault. IsInputFault fault (S.state source.old) (S.state source.new)) }
{
    let mut input = Vec::new(alloc);
    let mut room = [0u8; 4096];
    while input.len() <= LIMIT {
        let Ok(n) = source.read(&mut room) else {
            return Err(InputFault::Read);
        };
        if n == 0 {
            return Ok(input);
        }
        if input.extend_from_slice(&room[..n]).is_err() {
            return Err(InputFault::NoMemory);
        }
    }
    Err(InputFault::TooLarge)
}
