//! The input, read whole.

ghost use Rattle.std.specs.Prelude.{◌≡◌, ◌≤◌, true, length, IfOk, IsErrOf};
ghost use Rattle.dmn_outside.specs.Counts.{Rose};
ghost use Rattle.dmn_outside.specs.Later.{IsQuiet};
ghost use Rattle.dmn_init.specs.Input.{Inputs, ReadsSurely};

use dmn_bytes::Bytes;
use dmn_outside::{Failed, Line};
use std::alloc::Global;

/// As many bytes of the input are read at most. A start record has fewer.
pub const MOST_READ: usize = 59_768_880;

/// Why an input was not read.
#[derive(Clone, Copy, Debug, PartialEq, Eq)]
pub enum InputFault {
    LineFault,
    Memory,
}

/// The input, to its end or to the most bytes that are read.
pub fn read_input<L: Line>(alloc: Global, line: &mut L) -> Result<Bytes, InputFault>
    ensures input { L.tells ≡ true → Inputs result (L.line line.old).talk (L.line line.new).talk }
    ensures size { IfOk result (λ text. length text ≤ MOST_READ) }
    ensures quiet { IsQuiet L.tells_moments (L.time line.old) (L.time line.new) (L.line line.old) (L.line line.new) }
    ensures disk { L.disk line.new ≡ L.disk line.old }
    ensures sure { L.tells_room ≡ true → ReadsSurely result (L.room line.old) (L.room line.new) (L.line line.old) (L.line line.new) }
    ensures fault { IsErrOf result InputFault.LineFault → Rose (L.line line.old).faults (L.line line.new).faults }
{
    let mut buffer = [0; 4096];
    let mut text = Bytes::new(alloc);
    'read: while text.len() < MOST_READ {
        let room = (MOST_READ - text.len()).min(4096);
        match line.take(&mut buffer[..room]) {
            Err(Failed) => return Err(InputFault::LineFault),
            Ok(n) => {
                if n == 0 {
                    return Ok(text);
                }
                match text.extend(&buffer[..n]) {
                    Ok(()) => {}
                    Err(_) => return Err(InputFault::Memory),
                }
            }
        }
    }
    Ok(text)
}
