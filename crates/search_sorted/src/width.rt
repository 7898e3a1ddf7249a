ghost use Rattle.std.specs.Prelude.{◌≡◌, ◌+◌, ◌*◌, ◌≤◌, length, Some};
ghost use Rattle.search_sorted.specs.Packed.{size, number_at};
ghost use Rattle.search_sorted.specs.Widths.{WidthOf};
ghost use Rattle.search_sorted.specs.Shown.{unknown_width_text};

use std::error::Error;
use std::fmt;

/// How many bytes a packed number has: 1, 2, 4 or 8.
#[derive(Clone, Copy, PartialEq, Eq, Debug)]
pub enum Width {
    One = 1,
    Two = 2,
    Four = 4,
    Eight = 8,
}

/// A count of bytes that no width has.
#[derive(Clone, Copy, PartialEq, Eq, Debug)]
pub struct UnknownWidth(pub u64);

/// The width of so many bytes.
impl TryFrom<u64> for Width {
    type Error = UnknownWidth;

    ghost try_from_gives = { WidthOf };

    fn try_from(count: u64) -> Result<Self, UnknownWidth> {
        match count {
            1 => Ok(Width::One),
            2 => Ok(Width::Two),
            4 => Ok(Width::Four),
            8 => Ok(Width::Eight),
            _ => Err(UnknownWidth(count)),
        }
    }
}

impl Width {
    /// How many bytes a number of this width has.
    pub fn bytes(self) -> usize
        ensures { result ≡ size self }
    {
        self as usize
    }
}

impl fmt::Display for UnknownWidth {
    ghost output = { λ unknown. Some (unknown_width_text unknown) };

    fn fmt<W: fmt::Write>(&self, f: &mut fmt::Formatter<W>) -> fmt::Result {
        write!(f, "no width has {} bytes", self.0)
    }
}

impl Error for UnknownWidth {}

// The number at a place, where each has W bytes: eight bytes, its own and zeros after them.
pub(crate) fn read<const W: usize>(bytes: &[u8], place: usize) -> u64
    requires width { W ≤ 8 }
    requires within { W * place + W ≤ length bytes.now }
    ensures { result ≡ number_at bytes.now W place }
{
    let from = W * place;
    let mut digits = [0; 8];
    digits[..W].copy_from_slice(&bytes[from..from + W]);
    u64::from_le_bytes(digits)
}
