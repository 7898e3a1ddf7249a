//! The steps of a job before its run, each with the lines that it prints. What they share with `month_end` reads and prints, of
//! which a contract could promise nothing; the lines themselves are made in `month_job`.
use crate::Stopped;
use crate::files::{read_bytes, read_cells, refuse_old_output, say, say_line, stop};
use crate::history::survey_history;
use crate::stream::Stream;
use lanes::transpose::transpose;
use month_job::correct::look_up_amount;
use month_job::job::Job;
use month_job::report;
use patches::column::Column;
use patches::patch_set::PatchSet;
use patches::window::Window;
use std::fmt::Display;
use stream_job::work::{Work, asked_rows, offset_room};

/// What is said where the lane tables find no memory.
const NO_ROOM: &str =
    "there is not enough memory for the lane tables; ask for fewer lanes or rows, or leave `lanes` out";

/// A job to run: its file, what the file says, and whether every corrected cell is shown.
#[derive(Clone, Copy)]
pub struct Month<'a> {
    pub rt: &'a HostRuntime,
    pub job_file: &'a str,
    pub job: &'a Job,
    pub all: bool,
}

impl Month<'_> {
    /// Tells what is wrong with the job.
    pub fn stop<D: Display + Drop>(self, what: D) -> Stopped {
        stop(self.rt, self.job_file, what)
    }

    /// The bytes of the chunk data, which are none where the job names none.
    fn read_entries(self) -> Result<Vec<u8>, Stopped> {
        match &self.job.chunks {
            Some(chunks) => read_bytes(self.rt, chunks.file.as_str()),
            None => Ok(Vec::new(self.rt.alloc())),
        }
    }

    /// Says what the corrections are.
    fn say_corrections(self, column: &Column<'_, i64>) -> Result<(), Stopped> {
        let rt = self.rt;
        let heap = rt.alloc();
        let patches = column.num_patches();
        say_line(
            rt,
            report::corrections_line(heap, column.rows(), column.offset(), patches),
        )?;
        if let (Some(first), Some(last)) = (
            column.patched_row(0),
            column.patched_row(patches.saturating_sub(1)),
        ) {
            say_line(rt, report::patched_rows_line(heap, first, last))?;
        }
        let Some(chunks) = &self.job.chunks else {
            return say(rt, "chunk data: none");
        };
        say_line(
            rt,
            report::chunk_data_line(heap, chunks.file.as_str(), chunks.width, chunks.within),
        )
    }

    /// Answers the look-ups, whose rows have these amounts before the correction.
    fn answer_lookups(
        self,
        column: &Column<'_, i64>,
        amounts: &[Option<i64>],
    ) -> Result<(), Stopped> {
        for (row, amount) in self.job.lookups.iter().zip(amounts) {
            let answer = look_up_amount(column, *amount, *row);
            say_line(self.rt, report::lookup_line(self.rt.alloc(), *row, answer))?;
        }
        Ok(())
    }

    /// Says how large the work's lane tables are, where the job asks for it.
    fn say_lanes<S: PatchSet<Value = i64>>(self, set: &S) -> Result<(), Stopped> {
        let Some(lanes) = self.job.lanes else {
            return Ok(());
        };
        let heap = self.rt.alloc();
        let rows = set.rows();
        let offset_count = offset_room(lanes, rows);
        let patches = offset_count.map_or(0, |_| set.below(rows) as usize);
        let (Ok(mut offsets), Ok(mut entries), Ok(mut values)) = (
            vec![in heap; 0u32; offset_count.unwrap_or(0)],
            vec![in heap; 0u16; patches],
            vec![in heap; 0i64; patches],
        ) else {
            return Err(self.stop(NO_ROOM));
        };
        let sizes = transpose(set, lanes, &mut offsets, &mut entries, &mut values).map_err(
            |refusal| self.stop(refusal),
        )?;
        say_line(
            self.rt,
            report::lanes_line(heap, lanes, sizes.offsets, sizes.entries),
        )
    }

    /// Corrects the rows that the job asks for, which are all where it names none.
    fn work(self, column: &Column<'_, i64>, amounts: &[Option<i64>]) -> Result<(), Stopped> {
        let Work { first, end } = asked_rows(self.job);
        Window::check(column, first, end).map_err(|refusal| self.stop(refusal))?;
        let window = Window::new(column, first, end);
        if self.job.from.is_some() || self.job.to.is_some() {
            let patches = window.below(window.rows());
            say_line(
                self.rt,
                report::work_line(self.rt.alloc(), first, end, patches),
            )?;
        }
        self.say_lanes(&window)?;
        self.answer_lookups(column, amounts)?;
        Stream::new(self, column.offset(), first, &window).run()
    }

    /// Runs the job.
    pub fn run(self) -> Result<(), Stopped> {
        let (rt, job) = (self.rt, self.job);
        refuse_old_output(rt, job.output.as_str())?;
        let amounts = survey_history(self)?;
        let indices = read_bytes(rt, job.indices.as_str())?;
        let values = read_cells(rt, job.values.as_str())?;
        let entries = self.read_entries()?;
        let mut column = Column::empty();
        column
            .load(&job.corrections(&indices, &values, &entries))
            .map_err(|refusal| stop(rt, job.blamed_file(refusal.reason), refusal))?;
        self.say_corrections(&column)?;
        self.work(&column, &amounts)
    }
}
