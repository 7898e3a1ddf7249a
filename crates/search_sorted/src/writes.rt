ghost use Rattle.std.specs.Prelude.{Some};
ghost use Rattle.search_sorted.specs.Writes.{Writes};
ghost use Rattle.search_sorted.specs.Shown.{no_room_text};

use std::error::Error;
use std::fmt;

/// There is no room for a number at the place.
#[derive(Clone, Copy, PartialEq, Eq, Debug)]
pub struct NoRoom;

impl fmt::Display for NoRoom {
    ghost output = { λ _. Some no_room_text };

    fn fmt<W: fmt::Write>(&self, f: &mut fmt::Formatter<W>) -> fmt::Result {
        f.write_str("no room for the number")
    }
}

impl Error for NoRoom {}

/// Writes a number of eight bytes at a place. Without room nothing is written.
pub fn write_number(out: &mut [u8], place: usize, number: u64) -> Result<(), NoRoom>
    ensures { Writes out.old out.new place number result }
{
    if place >= out.len() / 8 {
        return Err(NoRoom);
    }
    let from = 8 * place;
    out[from..from + 8].copy_from_slice(&number.to_le_bytes());
    Ok(())
}
