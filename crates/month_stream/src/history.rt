//! The price history: files of cells that are read block by block, never whole.
ghost use Rattle.std.specs.Prelude.{◌≡◌, ◌+◌, ◌<◌, ◌≤◌, length, min, OnOk};
ghost use Rattle.std.specs.Slice.Iter.{iter_rest};

use crate::Stopped;
use crate::files::{say_line, stop};
use crate::steps::Month;
use month_job::cells::{CELL_BYTES, append, cell_count};
use month_job::correct::check_count;
use month_job::report;
use month_job::totals::add_total;
use std::fmt::Display;
use std::fs::File;
use std::io::{Read, Seek, SeekFrom};
use std::slice::Iter;
use stream_job::lookups::{Wanted, in_order, note};

/// How many cells a survey reads at once.
const SURVEY_CELLS: u64 = 8192;

/// What is said where a sum of amounts does not fit.
pub const TOO_LARGE: &str = "the total does not fit 128 bits; split the history";

/// What is said where the history's files end too early.
const TOO_SHORT: &str =
    "the files of the history became shorter while they were read; start again when nobody writes them";

/// A file of the history, and how many of its cells are still to be read.
#[derive(Drop)]
struct CellFile<'a> {
    rt: &'a HostRuntime,
    name: &'a str,
    file: File,
    left: u64,
}

impl<'a> CellFile<'a> {
    /// Opens a file and counts its cells.
    fn open(rt: &'a HostRuntime, name: &'a str) -> Result<CellFile<'a>, Stopped> {
        let file = File::open(rt, name).map_err(|error| stop(rt, name, error))?;
        let metadata = file.metadata().map_err(|error| stop(rt, name, error))?;
        let left = cell_count(metadata.len()).map_err(|error| stop(rt, name, error))?;
        Ok(CellFile {
            rt,
            name,
            file,
            left,
        })
    }

    /// Tells what is wrong with the file.
    fn stop<D: Display + Drop>(&self, what: D) -> Stopped {
        stop(self.rt, self.name, what)
    }

    /// Goes to a cell of a file that was just opened, or to its end.
    fn go_to(&mut self, cell: u64) -> Result<(), Stopped>
        requires { cell ≤ self.old.left }
    {
        self.left -= cell;
        self.file
            .seek(SeekFrom::Start(cell.saturating_mul(8)))
            .map_err(|error| self.stop(error))?;
        Ok(())
    }

    /// Reads the next so many cells, or those that are left, and appends them.
    fn read(&mut self, count: u64, cells: &mut Vec<i64>) -> Result<(), Stopped>
        ensures { OnOk result (self.new.left + min count self.old.left ≡ self.old.left) }
    {
        let count = count.min(self.left);
        let size = (count as usize).saturating_mul(CELL_BYTES);
        let mut bytes = vec![in self.rt.alloc(); 0u8; size].map_err(|error| self.stop(error))?;
        self.file
            .read_exact(&mut bytes)
            .map_err(|error| self.stop(error))?;
        append(cells, &bytes).map_err(|error| self.stop(error))?;
        self.left -= count;
        Ok(())
    }
}

/// What a survey of the history has found: its cells, their total, and the amounts of the look-ups' rows, in the job's order.
/// The rows that are still wanted are those that lie further on.
#[derive(Drop)]
struct Survey<'a> {
    rt: &'a HostRuntime,
    wanted: &'a [Wanted],
    cells: u64,
    total: i128,
    amounts: Vec<Option<i64>>,
}

impl Survey<'_> {
    /// Adds a block of a file's cells, and notes the amounts of the wanted rows among them.
    fn add_block(&mut self, file: &str, cells: &[i64]) -> Result<(), Stopped> {
        let rt = self.rt;
        self.total = add_total(self.total, cells).ok_or_else(|| stop(rt, file, TOO_LARGE))?;
        let found = note(self.wanted, self.cells, cells, &mut self.amounts);
        self.wanted = &self.wanted[found..];
        self.cells = self.cells.saturating_add(cells.len() as u64);
        Ok(())
    }

    /// Goes through a file of the history, and answers how many cells it has.
    fn add_file(&mut self, name: &str) -> Result<u64, Stopped> {
        let mut file = CellFile::open(self.rt, name)?;
        let cells = file.left;
        while file.left > 0 {
            let mut block = Vec::new(self.rt.alloc());
            file.read(SURVEY_CELLS, &mut block)?;
            self.add_block(name, &block)?;
        }
        Ok(cells)
    }
}

/// Goes through the history's files in their order, says what they have, and answers the amounts of the look-ups' rows, in
/// the job's order.
pub fn survey_history(month: Month<'_>) -> Result<Vec<Option<i64>>, Stopped> {
    let (rt, job) = (month.rt, month.job);
    let heap = rt.alloc();
    let wanted = in_order(heap, &job.lookups).map_err(|error| month.stop(error))?;
    let amounts = vec![in heap; None; job.lookups.len()].map_err(|error| month.stop(error))?;
    let mut survey = Survey {
        rt,
        wanted: &wanted,
        cells: 0,
        total: 0,
        amounts,
    };
    for file in job.history.iter() {
        let cells = survey.add_file(file.as_str())?;
        say_line(rt, report::history_line(heap, file.as_str(), cells))?;
    }
    check_count(survey.cells, job.rows).map_err(|error| month.stop(error))?;
    say_line(
        rt,
        report::history_total(heap, job.history.len(), survey.cells, survey.total),
    )?;
    Ok(survey.amounts)
}

/// The history as it is read from some row on: the file that is read, and those after it.
#[derive(Drop)]
pub struct History<'a> {
    rt: &'a HostRuntime,
    open: CellFile<'a>,
    files: Iter<'a, String>,
}

/// Opens the next of some files.
fn open_next<'a>(rt: &'a HostRuntime, files: &mut Iter<'a, String>) -> Result<CellFile<'a>, Stopped>
    ensures { OnOk result (length (iter_rest files.new) + 1 ≡ length (iter_rest files.old)) }
{
    let name = files.next().ok_or_else(|| stop(rt, "history", TOO_SHORT))?;
    CellFile::open(rt, name.as_str())
}

impl<'a> History<'a> {
    /// The history from its first row on.
    fn open(rt: &'a HostRuntime, files: &'a Vec<String>) -> Result<History<'a>, Stopped> {
        let mut files = files.iter();
        let open = open_next(rt, &mut files)?;
        Ok(History { rt, open, files })
    }

    /// Goes on to the next file.
    fn go_on(&mut self) -> Result<(), Stopped>
        ensures { OnOk result (length (iter_rest self.new.files) + 1 ≡ length (iter_rest self.old.files)) }
    {
        self.open = open_next(self.rt, &mut self.files)?;
        Ok(())
    }

    /// The history from a row on.
    pub fn from_row(
        rt: &'a HostRuntime,
        files: &'a Vec<String>,
        row: u64,
    ) -> Result<History<'a>, Stopped> {
        let mut history = History::open(rt, files)?;
        let mut rest = row;
        while history.open.left < rest {
            rest -= history.open.left;
            history.go_on()?;
        }
        history.open.go_to(rest)?;
        Ok(history)
    }

    /// The next so many cells. They may lie in several files.
    pub fn read(&mut self, count: usize) -> Result<Vec<i64>, Stopped> {
        let mut cells = Vec::new(self.rt.alloc());
        self.open.read(count as u64, &mut cells)?;
        while cells.len() < count {
            self.go_on()?;
            let rest = count - cells.len();
            self.open.read(rest as u64, &mut cells)?;
        }
        Ok(cells)
    }
}
