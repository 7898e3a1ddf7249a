//! The steps of a run, each with the lines that it prints. What they share with `month_stream` reads and prints, of which a
//! contract could promise nothing; the lines themselves are made in `month_job`.
use crate::Stopped;
use crate::files::{
    read_bytes, read_cells, refuse_old_output, remove, say, say_line, stop, write_new,
};
use month_job::cells::encode;
use month_job::correct::{Correction, check_count, correct_all, corrections, look_up};
use month_job::job::Job;
use month_job::report;
use month_job::report::{Fold, folded};
use month_job::totals::total;
use patches::column::Column;

/// A job to run: its file, what the file says, and whether every corrected cell is shown.
#[derive(Clone, Copy)]
pub struct Month<'a> {
    pub rt: &'a HostRuntime,
    pub job_file: &'a str,
    pub job: &'a Job,
    pub all: bool,
}

impl Month<'_> {
    /// Reads the history's files in their order.
    fn read_history(self) -> Result<Vec<i64>, Stopped> {
        let (rt, job) = (self.rt, self.job);
        let heap = rt.alloc();
        let mut cells = Vec::new(heap);
        for file in job.history.iter() {
            let read = read_cells(rt, file.as_str(), &mut cells)? as u64;
            say_line(rt, report::history_line(heap, file.as_str(), read))?;
        }
        let count = cells.len() as u64;
        check_count(count, job.rows).map_err(|error| stop(rt, self.job_file, error))?;
        say_line(
            rt,
            report::history_total(heap, job.history.len(), count, total(&cells)),
        )?;
        Ok(cells)
    }

    /// The bytes of the chunk data, which are none where the job names none.
    fn read_entries(self) -> Result<Vec<u8>, Stopped> {
        match &self.job.chunks {
            Some(chunks) => read_bytes(self.rt, chunks.file.as_str()),
            None => Ok(Vec::new(self.rt.alloc())),
        }
    }

    /// Says what the corrections are.
    fn say_corrections(self, column: &Column<'_, i64>) -> Result<(), Stopped> {
        let rt = self.rt;
        let heap = rt.alloc();
        let patches = column.num_patches();
        say_line(
            rt,
            report::corrections_line(heap, column.rows(), column.offset(), patches),
        )?;
        if let (Some(first), Some(last)) = (
            column.patched_row(0),
            column.patched_row(patches.saturating_sub(1)),
        ) {
            say_line(rt, report::patched_rows_line(heap, first, last))?;
        }
        let Some(chunks) = &self.job.chunks else {
            return say(rt, "chunk data: none");
        };
        say_line(
            rt,
            report::chunk_data_line(heap, chunks.file.as_str(), chunks.width, chunks.within),
        )
    }

    /// Answers the look-ups.
    fn answer_lookups(self, column: &Column<'_, i64>, cells: &[i64]) -> Result<(), Stopped> {
        for row in self.job.lookups.iter() {
            let answer = look_up(column, cells, *row);
            say_line(self.rt, report::lookup_line(self.rt.alloc(), *row, answer))?;
        }
        Ok(())
    }

    /// Prints some corrected cells.
    fn say_cells(self, list: &[Correction]) -> Result<(), Stopped> {
        for cell in list {
            say_line(
                self.rt,
                report::cell_line(self.rt.alloc(), cell.row, cell.before, cell.after),
            )?;
        }
        Ok(())
    }

    /// Prints the corrected cells: all, or where they are many the first and the last.
    fn say_corrected(self, list: &[Correction]) -> Result<(), Stopped> {
        let Fold { head, tail } = folded(list.len(), self.all);
        self.say_cells(&list[..head])?;
        if head < tail {
            say_line(self.rt, report::hidden_line(self.rt.alloc(), tail - head))?;
        }
        self.say_cells(&list[tail..])
    }

    /// Says that the file is written, and closes with the line to sign.
    fn close(self, patches: u64, before: i128, cells: &[i64], bytes: u64) -> Result<(), Stopped> {
        let heap = self.rt.alloc();
        let count = cells.len() as u64;
        say_line(
            self.rt,
            report::written_line(heap, self.job.output.as_str(), count, bytes),
        )?;
        say_line(
            self.rt,
            report::closing_line(heap, patches, count, before, total(cells)),
        )
    }

    /// Corrects the history, shows what was corrected, writes the file and closes.
    fn correct_history(
        self,
        column: &Column<'_, i64>,
        cells: &mut Vec<i64>,
    ) -> Result<(), Stopped> {
        let (rt, job) = (self.rt, self.job);
        let heap = rt.alloc();
        let indices = job.indices.as_str();
        let output = job.output.as_str();
        let before = total(cells);
        let list = corrections(heap, column, cells).map_err(|error| stop(rt, indices, error))?;
        let chunks = correct_all(column, cells).map_err(|error| stop(rt, indices, error))?;
        say_line(rt, report::corrected_line(heap, list.len(), chunks))?;
        self.say_corrected(&list)?;
        let bytes = encode(heap, cells).map_err(|error| stop(rt, output, error))?;
        write_new(rt, output, &bytes)?;
        self.close(list.len() as u64, before, cells, bytes.len() as u64)
            .inspect_err(|_| remove(rt, output))
    }

    /// Runs the job.
    pub fn run(self) -> Result<(), Stopped> {
        let (rt, job) = (self.rt, self.job);
        refuse_old_output(rt, job.output.as_str())?;
        let mut cells = self.read_history()?;
        let indices = read_bytes(rt, job.indices.as_str())?;
        let mut values = Vec::new(rt.alloc());
        read_cells(rt, job.values.as_str(), &mut values)?;
        let entries = self.read_entries()?;
        let mut column = Column::empty();
        column
            .load(&job.corrections(&indices, &values, &entries))
            .map_err(|refusal| stop(rt, job.blamed_file(refusal.reason), refusal))?;
        self.say_corrections(&column)?;
        self.answer_lookups(&column, &cells)?;
        self.correct_history(&column, &mut cells)
    }
}
