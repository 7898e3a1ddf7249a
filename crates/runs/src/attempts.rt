ghost use Rattle.std.specs.Prelude.{◌≡◌, ℕ, ◌+◌, ◌-◌, ◌<◌, ◌≤◌, [], ◌∷◌, map, length, drop};
ghost use Rattle.runs.specs.declared.attempts.AttemptError.TheVariants.{Refused};
ghost use Rattle.runs.specs.declared.attempts.Run.TheVariants.{Unopened, Open};
ghost use Rattle.runs.specs.Events.{stepped, closed, cells_of, cells_in, attempt_of, event_of, events_of};
ghost use Rattle.runs.specs.Attempts.{Leads, LeadsAside, EveryList};
ghost use Rattle.runs.specs.Shown.{attempt_error_text};

use crate::run::{ClosedRun, OpenRun, Unfinished};
use patches::patch_set::PatchSet;
use patches::refusal::Refusal;
use patches::window::Window;
use std::error::Error;
use std::fmt;

/// Something to try with a run.
#[derive(Clone, Copy, PartialEq, Eq, Debug)]
pub enum Attempt {
    /// Open it for so many rows, in a phase.
    Open { rows: u64, phase: u64 },
    /// Hand it the next so many cells, with the first so many rows of the set, or all of them where it has no more.
    Step { cells: usize, set_rows: u64 },
    Close,
    Abandon,
}

/// Why an attempt was not accepted.
#[derive(Clone, Copy, PartialEq, Eq, Debug)]
pub enum AttemptError {
    /// There was no run to try it with: none was open, or, for an opening, one had been opened already.
    NotMade,
    /// The run refused.
    Refused(Refusal),
}

impl fmt::Display for AttemptError {
    ghost output = { attempt_error_text };

    fn fmt<W: fmt::Write>(&self, f: &mut fmt::Formatter<W>) -> fmt::Result {
        match *self {
            Self::NotMade => f.write_str("there is no open run"),
            Self::Refused(refusal) => write!(f, "{refusal}"),
        }
    }
}

impl Error for AttemptError {}

impl From<Refusal> for AttemptError {
    ghost from_gives = { λ refusal r. r ≡ Refused refusal };

    fn from(refusal: Refusal) -> AttemptError {
        AttemptError::Refused(refusal)
    }
}

/// What came of an attempt.
pub type Outcome = Result<(), AttemptError>;

/// An attempt, with room for its outcome.
#[derive(Clone, Copy, PartialEq, Eq, Debug)]
pub struct Entry {
    pub attempt: Attempt,
    pub outcome: Outcome,
}

/// One run, from before it is opened until after it has ended.
pub enum Run {
    Unopened,
    Open(OpenRun),
    Closed(ClosedRun),
    Abandoned,
}

impl Attempt {
    /// How many cells it asks for.
    pub fn cells(self) -> usize
        ensures { result ≡ cells_of self }
    {
        match self {
            Attempt::Step { cells, .. } => cells,
            _ => 0,
        }
    }
}

// Makes an attempt before the run is opened: only an opening is made.
fn try_unopened<S: PatchSet>(set: &S, attempt: Attempt) -> (Run, Outcome)
    ensures { LeadsAside (S.PatchSet.meaning set.now) Unopened attempt result.1 result.0 }
{
    match attempt {
        Attempt::Open { rows, phase } => match OpenRun::open(rows, phase) {
            Ok(run) => (Run::Open(run), Ok(())),
            Err(refusal) => (Run::Unopened, Err(AttemptError::Refused(refusal))),
        },
        _ => (Run::Unopened, Err(AttemptError::NotMade)),
    }
}

// Hands an open run some cells, with the first so many rows of the set.
fn try_step<S: PatchSet>(
    run: &mut OpenRun,
    set: &S,
    set_rows: u64,
    cells: &mut [S::Value],
) -> Outcome
    ensures { Leads (S.PatchSet.meaning set.now) (Open run.old) (stepped set_rows result cells.old cells.new ∷ []) (Open run.new) }
{
    let part = Window::new(set, 0, set_rows);
    run.step(&part, cells).map_err(AttemptError::from)
}

// Tries to close an open run; the set is the one that the run is for.
fn try_close<S: PatchSet>(run: OpenRun, set: &S) -> (Run, Outcome)
    ensures { Leads (S.PatchSet.meaning set.now) (Open run) (closed result.1 ∷ []) result.0 }
{
    match run.close() {
        Ok(closed) => (Run::Closed(closed), Ok(())),
        Err(Unfinished { run, refusal }) => (Run::Open(run), Err(AttemptError::Refused(refusal))),
    }
}

// Makes an attempt with an open run.
fn try_open<S: PatchSet>(
    mut run: OpenRun,
    set: &S,
    attempt: Attempt,
    cells: &mut [S::Value],
) -> (Run, Outcome)
    ensures { Leads (S.PatchSet.meaning set.now) (Open run) (event_of attempt result.1 cells.old cells.new ∷ []) result.0 }
{
    match attempt {
        Attempt::Open { .. } => (Run::Open(run), Err(AttemptError::NotMade)),
        Attempt::Step { set_rows, .. } => {
            let outcome = try_step(&mut run, set, set_rows, cells);
            (Run::Open(run), outcome)
        }
        Attempt::Close => try_close(run, set),
        Attempt::Abandon => {
            run.abandon();
            (Run::Abandoned, Ok(()))
        }
    }
}

impl Run {
    /// A run that is not opened yet.
    pub fn new() -> Run
        ensures { result ≡ Unopened }
    {
        Self::Unopened
    }

    // Makes one attempt, handing in these cells if it is a step.
    fn make<S: PatchSet>(self, set: &S, attempt: Attempt, cells: &mut [S::Value]) -> (Run, Outcome)
        ensures { Leads (S.PatchSet.meaning set.now) self (event_of attempt result.1 cells.old cells.new ∷ []) result.0 }
    {
        match self {
            Run::Unopened => try_unopened(set, attempt),
            Run::Open(run) => try_open(run, set, attempt, cells),
            Run::Closed(closed) => (Run::Closed(closed), Err(AttemptError::NotMade)),
            Run::Abandoned => (Run::Abandoned, Err(AttemptError::NotMade)),
        }
    }

    /// Makes a list of attempts with the run, in order, and notes the outcome of each beside it. The cells are dealt out
    /// from the first on: each step is handed as many as it asks for, or those that are left.
    ///
    /// Refused attempts, and attempts for which there is no run, change nothing. What the list does is stated whole: see
    /// `Leads` and `EveryList`.
    pub fn attempt_all<S: PatchSet>(
        self,
        set: &S,
        entries: &mut [Entry],
        cells: &mut [S::Value],
    ) -> Run
        ensures attempts { map attempt_of entries.new ≡ map attempt_of entries.old }
        ensures rest { drop (cells_in entries.old) cells.new ≡ drop (cells_in entries.old) cells.old }
        ensures leads { Leads (S.PatchSet.meaning set.now) self (events_of entries.new cells.old cells.new) result }
        ensures every_list { EveryList (S.PatchSet.meaning set.now) self (events_of entries.new cells.old cells.new) result }
    {
        let mut run = self;
        // where the next cells begin: they stay one slice, of which it is then known what it holds at the end
        let mut at = 0;
        for entry in entries.iter_mut() {
            let n = entry.attempt.cells().min(cells.len() - at);
            (run, entry.outcome) = run.make(set, entry.attempt, &mut cells[at..at + n]);
            at += n;
        }
        run
    }
}
