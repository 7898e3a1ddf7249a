//! The run through the work's rows: block by block, from the history to the output.
use crate::Stopped;
use crate::files::{Output, say, say_line};
use crate::history::{History, TOO_LARGE};
use crate::steps::Month;
use month_job::correct::Correction;
use month_job::report;
use month_job::report::{Fold, Shown, folded};
use month_job::totals::add_total;
use patches::chunks::chunk_total;
use patches::patch_set::PatchSet;
use runs::attempts::{Attempt, AttemptError, Entry, Run};
use runs::run::ClosedRun;
use stream_job::work::{block_count, check_accepted, next_correction, plan};

/// Ends a run that is not to go on.
fn end(run: Run) {
    match run {
        Run::Open(open) => open.abandon(),
        Run::Closed(_closed) => {}
        Run::Unopened | Run::Abandoned => {}
    }
}

/// A run with an answer that it waited for. Where there is none the run has ended.
fn go_on<T>(run: Run, answer: Result<T, Stopped>) -> Result<(Run, T), Stopped> {
    match answer {
        Ok(answer) => Ok((run, answer)),
        Err(stopped) => {
            end(run);
            Err(stopped)
        }
    }
}

/// What a closed run tells. A run that is not closed has ended.
fn closed(run: Run) -> Option<ClosedRun> {
    match run {
        Run::Closed(closed) => Some(closed),
        other => {
            end(other);
            None
        }
    }
}

/// A block of the work: its steps, its first row, and its cells before and after.
#[derive(Drop)]
struct Part {
    entries: Vec<Entry>,
    first: u64,
    before: Vec<i64>,
    cells: Vec<i64>,
}

/// How far a run has come: rows, and the totals before and after.
#[derive(Clone, Copy)]
struct Progress {
    rows: u64,
    before: i128,
    after: i128,
}

impl Progress {
    /// How far the run has come past a block; none where a total does not fit.
    fn past(self, part: &Part) -> Option<Progress> {
        Some(Progress {
            rows: self.rows.saturating_add(part.cells.len() as u64),
            before: add_total(self.before, &part.before)?,
            after: add_total(self.after, &part.cells)?,
        })
    }
}

/// The correction of the work's rows: the job, the rows' patches, the first row, its phase, and which of the corrected cells
/// are shown.
#[derive_where(Clone, Copy)]
pub struct Stream<'a, S> {
    month: Month<'a>,
    set: &'a S,
    first: u64,
    phase: u64,
    fold: Fold,
}

impl<'a, S: PatchSet<Value = i64>> Stream<'a, S> {
    /// The correction of a set's rows, the first of which is the row `first` of a column, whose offset is given too.
    pub fn new(month: Month<'a>, offset: u64, first: u64, set: &'a S) -> Stream<'a, S> {
        Stream {
            month,
            set,
            first,
            phase: offset.saturating_add(first),
            fold: folded(set.below(set.rows()) as usize, month.all),
        }
    }

    /// Makes one attempt that takes no cells. Where it is not accepted, the run has ended.
    fn attempt(&self, run: Run, attempt: Attempt) -> Result<Run, Stopped> {
        let mut entries = [Entry {
            attempt,
            outcome: Err(AttemptError::NotMade),
        }];
        let run = run.attempt_all(self.set, &mut entries, &mut []);
        let accepted = check_accepted(&entries).map_err(|error| self.month.stop(error));
        let (run, ()) = go_on(run, accepted)?;
        Ok(run)
    }

    /// Reads a block of the work.
    fn read_part(
        &self,
        block: u64,
        history: &mut History<'_>,
        first: u64,
    ) -> Result<Part, Stopped> {
        let heap = self.month.rt.alloc();
        let planned = plan(heap, block, self.phase, self.set.rows()).map_err(|error| self
            .month
            .stop(error))?;
        let before = history.read(planned.cells)?;
        let cells = before.clone().map_err(|error| self.month.stop(error))?;
        Ok(Part {
            entries: planned.entries,
            first,
            before,
            cells,
        })
    }

    /// Shows the corrected cell at a place among all of them, or says that some are not shown.
    fn say_cell(&self, place: usize, cell: Correction) -> Result<(), Stopped> {
        let rt = self.month.rt;
        let heap = rt.alloc();
        match self.fold.shown(place) {
            Shown::Line => {
                let row = self.first.saturating_add(cell.row);
                say_line(rt, report::cell_line(heap, row, cell.before, cell.after))
            }
            Shown::LeftOut(count) => say_line(rt, report::hidden_line(heap, count)),
            Shown::Nothing => Ok(()),
        }
    }

    /// Shows the corrected cells of a block.
    fn say_cells(&self, part: &Part) -> Result<(), Stopped> {
        let mut row = part.first;
        let mut place = self.set.below(row);
        while let Some(cell) = next_correction(
            self.set,
            row,
            part.first,
            &part.before,
            &part.cells,
        ) {
            self.say_cell(place as usize, cell)?;
            place += 1;
            row = cell.row + 1;
        }
        Ok(())
    }

    /// Writes a block whose steps were all accepted, adds it up and shows its corrected cells.
    fn finish_part(
        &self,
        part: &Part,
        output: &mut Output<'_>,
        progress: Progress,
    ) -> Result<Progress, Stopped> {
        check_accepted(&part.entries).map_err(|error| self.month.stop(error))?;
        output.write_cells(&part.cells)?;
        let further = progress
            .past(part)
            .ok_or_else(|| self.month.stop(TOO_LARGE))?;
        self.say_cells(part)?;
        Ok(further)
    }

    /// Takes an open run through all its blocks. Where something stops it, the run has ended.
    fn go_through(&self, opened: Run, output: &mut Output<'_>) -> Result<(Run, Progress), Stopped> {
        let mut progress = Progress {
            rows: 0,
            before: 0,
            after: 0,
        };
        let Month { rt, job, .. } = self.month;
        let history = History::from_row(rt, &job.history, self.first);
        let (mut run, mut history) = go_on(opened, history)?;
        for block in 0..block_count(self.phase, self.set.rows()) {
            let part = self.read_part(block, &mut history, progress.rows);
            let (held, mut part) = go_on(run, part)?;
            let stepped = held.attempt_all(self.set, &mut part.entries, &mut part.cells);
            let further = self.finish_part(&part, output, progress);
            (run, progress) = go_on(stepped, further)?;
        }
        Ok((run, progress))
    }

    /// Says what the closed run tells, that the file is written, and closes with the line to sign.
    fn close(&self, closed: &ClosedRun, progress: Progress) -> Result<(), Stopped> {
        let Month { rt, job, .. } = self.month;
        let heap = rt.alloc();
        let chunks = chunk_total(self.phase, self.set.rows());
        let patches = self.set.below(self.set.rows());
        let (rows, count) = (closed.rows(), closed.count());
        say_line(rt, report::closed_line(heap, rows, chunks, count, patches))?;
        let bytes = progress.rows.saturating_mul(8);
        say_line(
            rt,
            report::written_line(heap, job.output.as_str(), progress.rows, bytes),
        )?;
        say_line(
            rt,
            report::closing_line(heap, count, rows, progress.before, progress.after),
        )
    }

    /// Opens a run, goes through the work, closes the run and says what it tells.
    fn write(&self, output: &mut Output<'_>) -> Result<(), Stopped> {
        say(self.month.rt, "corrected cells:")?;
        let opening = Attempt::Open {
            rows: self.set.rows(),
            phase: self.phase,
        };
        let opened = self.attempt(Run::new(), opening)?;
        let (through, progress) = self.go_through(opened, output)?;
        let closed = closed(self.attempt(through, Attempt::Close)?).ok_or_else(|| self
            .month
            .stop("the run is not closed"))?;
        output.sync()?;
        self.close(&closed, progress)
    }

    /// Corrects the work's rows into a new file, which is removed where anything stops the run.
    pub fn run(&self) -> Result<(), Stopped> {
        let Month { rt, job, .. } = self.month;
        let mut output = Output::create_new(rt, job.output.as_str())?;
        self.write(&mut output).inspect_err(|_| output.remove())
    }
}
