ghost use Rattle.std.specs.Prelude.{◌≡◌, ◌+◌, ◌*◌, ◌/◌, ◌^◌, ◌<◌, ◌≤◌, min, ◌&&◌, length, is_some, IfSome, ◌==◌, nat_lt, slice_index, sum_by};
ghost use lib.Count.{ones};
ghost use Rattle.search_sorted.specs.Naturals.{natural};
ghost use Rattle.search_sorted.specs.RowMasks.{is_set, set_below, set_rows_of, bytes_for};
ghost use Rattle.search_sorted.specs.RowMaskLaws.{rows_rise};

use crate::order::IndexOrd;
use std::cmp::Ordering;

/// A set of rows below a row count, told by a bit for each row: row `r` is bit `r % 8`, counted from the
/// least significant, of byte `r / 8`, as in Arrow's bitmaps. Bits past the last row never matter.
#[derive(Clone, Copy)]
pub struct RowMask<'a> {
    rows: u64,
    bytes: &'a [u8],
    ghost sized: { length bytes.now ≡ bytes_for rows },
}

impl<'a> RowMask<'a> {
    /// The mask of `rows` rows in `bytes`, or none where the bytes are not `rows / 8`, rounded up.
    pub fn new(rows: u64, bytes: &'a [u8]) -> Option<Self>
        ensures sized { is_some result ≡ (length bytes.now == bytes_for rows) }
        ensures rows { IfSome result (λ m. m.rows ≡ rows) }
        ensures bytes { IfSome result (λ m. m.bytes.now ≡ bytes.now) }
    {
        if bytes.len() as u64 == rows.div_ceil(8) {
            Some(RowMask { rows, bytes })
        } else {
            None
        }
    }

    /// How many rows the mask speaks of, set or not.
    pub fn rows(&self) -> u64
        ensures { result ≡ self.now.rows }
    {
        self.rows
    }

    /// Whether `row` is one of the rows, and set.
    pub fn contains(&self, row: u64) -> bool
        ensures { result ≡ (nat_lt row self.now.rows && is_set self.now.bytes.now row) }
    {
        row < self.rows && byte_at(self.bytes, row / 8) >> (row % 8) & 1 == 1
    }

    /// How many rows before `row` are set: all that are set where `row` is past the last row.
    pub fn rank(&self, row: u64) -> u64
        ensures { result ≡ set_below self.now.bytes.now (min row self.now.rows) }
    {
        count_below(self.bytes, row.min(self.rows))
    }

    /// How many rows are set.
    pub fn true_count(&self) -> u64
        ensures { result ≡ set_below self.now.bytes.now self.now.rows }
    {
        count_below(self.bytes, self.rows)
    }

    /// The set rows, as an ordered sequence.
    pub fn set_rows(self) -> SetRows<'a>
        ensures { result.mask ≡ self.entry }
    {
        SetRows { mask: self }
    }
}

/// The set rows of a mask, in rising order.
#[derive(Clone, Copy)]
pub struct SetRows<'a> {
    mask: RowMask<'a>,
}

impl<'a> IndexOrd for SetRows<'a> {
    type Key = u64;

    ghost keys = { λ s. set_rows_of s.mask.bytes.now s.mask.rows };

    ghost order = { natural };

    ghost rising = { λ s. rows_rise s.mask.bytes.now s.mask.rows };

    /// How many rows are set.
    fn index_len(&self) -> usize {
        self.mask.true_count() as usize
    }

    /// How the set row at a place compares with a row, or none past the last set row.
    fn index_cmp(&self, place: usize, needle: &u64) -> Option<Ordering> {
        let place = place as u64;
        if place >= self.mask.true_count() {
            return None;
        }
        let before = self.mask.rank(*needle);
        Some(match place.cmp(&before) {
            Ordering::Equal if self.mask.contains(*needle) => Ordering::Equal,
            Ordering::Equal => Ordering::Greater,
            order => order,
        })
    }
}

// How many rows before `row` are set: those of whole bytes, and those of a part of one.
fn count_below(bytes: &[u8], row: u64) -> u64
    requires { row / 8 ≤ length bytes.now }
    ensures { result ≡ set_below bytes.now row }
{
    let whole = (row / 8) as usize;
    count_ones(&bytes[..whole]) + count_in_byte(bytes, row)
}

// How many bits of the bytes are 1.
fn count_ones(bytes: &[u8]) -> u64
    requires { sum_by ones bytes.now < 2 ^ 64 }
    ensures { result ≡ sum_by ones bytes.now }
{
    bytes.iter().map(|byte| u64::from(byte.count_ones())).sum()
}

// How many rows before `row` are set in the byte that has the bit of `row`.
fn count_in_byte(bytes: &[u8], row: u64) -> u64
    ensures { set_below bytes.now (8 * (row / 8)) + result ≡ set_below bytes.now row }
{
    let below = (1 << (row % 8)) - 1;
    u64::from((byte_at(bytes, row / 8) & below).count_ones())
}

// The byte at a place, and 0 past the last byte: no row is set there.
fn byte_at(bytes: &[u8], place: u64) -> u8
    ensures { result ≡ slice_index bytes.now place }
{
    bytes.get(place as usize).copied().unwrap_or(0)
}
