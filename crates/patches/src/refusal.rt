ghost use Rattle.std.specs.Prelude.{◌≡◌};
ghost use Rattle.patches.specs.Refusals.{number_of};

use std::error::Error;
use std::fmt;

/// Why a call refuses. Each reason has its number; a call tests in rising order of number and names the first that fits.
#[derive(Clone, Copy, PartialEq, Eq, Debug)]
pub enum Reason {
    IndexWidth = 1,
    IndexBytes = 2,
    NoIndex = 3,
    ValueCount = 4,
    RowLimit = 5,
    IndexOrder = 6,
    IndexRange = 7,
    ChunkData = 8,
    RowRange = 9,
    MaskShape = 10,
    Position = 11,
    LaneCount = 12,
    LaneTable = 13,
    OutputRoom = 14,
    NoChunkData = 15,
    ChunkNumber = 16,
    CellCount = 17,
    SetRows = 18,
    ChunksLeft = 19,
}

/// Which part of the library refused.
#[derive(Clone, Copy, PartialEq, Eq, Debug)]
pub enum Part {
    Column,
    Selection,
    Lanes,
    Run,
}

/// A refusal: the reason, the part that refused, and the place that the reason is about (0 unless it names one).
#[derive(Clone, Copy, PartialEq, Eq, Debug)]
pub struct Refusal {
    pub reason: Reason,
    pub part: Part,
    pub place: u64,
}

impl Refusal {
    /// A refusal by a part, at a place.
    pub fn by(part: Part, reason: Reason, place: u64) -> Self
        ensures reason { result.reason ≡ reason }
        ensures part { result.part ≡ part }
        ensures place { result.place ≡ place }
    {
        Refusal {
            reason,
            part,
            place,
        }
    }
}

impl Reason {
    /// The number that stands for the reason in documents and messages.
    pub fn number(self) -> u64
        ensures { result ≡ number_of self }
    {
        self as u64
    }

    // What is wrong, and what to do about it.
    fn advice(self) -> &'static str {
        match self {
            Reason::IndexWidth =>
                "the index width is not 1, 2, 4 or 8 bytes; give the width that the file was written with",
            Reason::IndexBytes =>
                "the index bytes are no multiple of the width; the file is cut short or the width is wrong",
            Reason::NoIndex => "there is no index; a column without patches is cleared, not loaded",
            Reason::ValueCount =>
                "there are fewer or more values than indices; take both files from one delivery",
            Reason::RowLimit =>
                "there are more than 2147483648 rows, with the offset where there is one; split the work",
            Reason::IndexOrder =>
                "the index at this place is not above the one before; sort the indices and remove repeats",
            Reason::IndexRange =>
                "the index at this place lies outside the rows; check the offset and the number of rows",
            Reason::ChunkData =>
                "the chunk data do not fit the indices from this chunk on; load without them or have them made again",
            Reason::RowRange =>
                "the range ends before it begins or past the last row; name rows that are there",
            Reason::MaskShape =>
                "the mask is made for another number of rows; make it for the rows that are there",
            Reason::Position =>
                "the position at this place is not below the number of rows; name rows that are there",
            Reason::LaneCount => "the lane count is no power of two up to 1024; choose one that is",
            Reason::LaneTable =>
                "a lane table has a wrong length or breaks a lane rule at this entry; have the tables made again",
            Reason::OutputRoom =>
                "an output is too short for what is written to it; lend a longer one",
            Reason::NoChunkData =>
                "the column has no chunk data; load it with them or correct row by row",
            Reason::ChunkNumber => "there is no chunk of this number; chunks are counted from 0",
            Reason::CellCount =>
                "the cells are not as many as the chunk has rows; hand in exactly the chunk's cells",
            Reason::SetRows =>
                "the set has another number of rows than the run was opened for; hand in the run's own set",
            Reason::ChunksLeft =>
                "the run has chunks left; go through them first, or abandon the run",
        }
    }
}

impl fmt::Display for Part {
    fn fmt<W: fmt::Write>(&self, f: &mut fmt::Formatter<W>) -> fmt::Result {
        f.write_str(match self {
            Part::Column => "column",
            Part::Selection => "selection",
            Part::Lanes => "lanes",
            Part::Run => "run",
        })
    }
}

impl fmt::Display for Refusal {
    fn fmt<W: fmt::Write>(&self, f: &mut fmt::Formatter<W>) -> fmt::Result {
        let number = self.reason.number();
        let advice = self.reason.advice();
        write!(
            f,
            "refusal {number} ({}, place {}): {advice}",
            self.part, self.place
        )
    }
}

impl Error for Refusal {}
