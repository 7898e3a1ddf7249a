//! The job file.
//!
//! A job is a plain text. Each line is a key, a blank and a value; blanks around either do not count.
//! An empty line, and a line that begins with `#`, say nothing. The order of the lines is free.
//!
//! | Line | Meaning |
//! |---|---|
//! | `history FILE` | a file of the price history, cells of 8 bytes; one line or more, the files in order |
//! | `indices FILE` | the corrections' indices |
//! | `width N` | how many bytes an index takes |
//! | `values FILE` | the corrections' amounts, cells of 8 bytes |
//! | `rows N` | how many rows the column has, which is how many cells the history has |
//! | `offset N` | what is in every index beyond its row: row 0 has the index N |
//! | `chunks FILE` | the chunk data; with `chunk-width` and `within`, or not at all |
//! | `chunk-width N` | how many bytes an entry of the chunk data takes |
//! | `within N` | how many patches of the first chunk lie before the first index |
//! | `from N` | the first row to work on; row 0 where there is no such line |
//! | `to N` | the row after the last to work on; the end of the history where there is no such line |
//! | `lanes N` | a lane count, to be told how large the work's lane tables are; a power of two up to 1024, or not at all |
//! | `lookup ROW` | a row to look up; any number of lines |
//! | `output FILE` | the file to write; a new file, and none of the files that are read |
//!
//! `history` and `lookup` may stand more than once, each other key once. `chunks` with the two keys after it, `from`, `to`,
//! `lanes` and `lookup` may be left out. A job for the whole history has no `from`, `to` and `lanes`.
//! A number is decimal and fits 64 bits. A file's path is taken from the folder in which the program runs.
ghost use Rattle.std.specs.Prelude.{◌≡◌, ℕ, ◌+◌, ◌<◌, ◌≤◌, true, false, [], ◌∷◌, ◌++◌, length, Ok, IfOk, IfSome, IfNone, IfErr, Some, None, vec_len, string_bytes, String, IsOkAnd, IsSomeAnd, MatchOption, MatchResult, OnOk, ◌≢◌, slice_index_or};
ghost use Rattle.std.specs.Str.Parse.{ParsesUnsigned};
ghost use Rattle.std.specs.declared.alloc.Global.{Global};
ghost use Rattle.month_job.specs.Jobs.{word_of, is_common, knows, newlines, LineFits, OfLine, OutputPlaced, IsWhole, Sound, blamed};
ghost use Rattle.month_job.specs.declared.job.JobFault.TheVariants.{KeyMissing, ChunksIncomplete};
ghost use Rattle.month_job.specs.declared.job.JobForm.TheVariants.{Whole};
ghost use Rattle.month_job.specs.declared.job.Key.{Key};

use patches::corrections::{ChunkTable, Corrections};
use patches::refusal::Reason;
use std::alloc::Global;
use std::error::Error;
use std::fmt;
use std::str::FromStr;

/// What a line of a job is about.
#[derive(Clone, Copy, PartialEq, Eq, Debug)]
pub enum Key {
    History,
    Indices,
    Width,
    Values,
    Rows,
    Offset,
    Chunks,
    ChunkWidth,
    Within,
    From,
    To,
    Lanes,
    Lookup,
    Output,
}

/// That a word stands for no key.
#[derive(Clone, Copy, PartialEq, Eq, Debug)]
pub struct NoKey;

impl Key {
    /// The word that stands for the key in a job file.
    pub fn word(self) -> &'static str
        ensures { result.now ≡ word_of self }
    {
        match self {
            Key::History => "history",
            Key::Indices => "indices",
            Key::Width => "width",
            Key::Values => "values",
            Key::Rows => "rows",
            Key::Offset => "offset",
            Key::Chunks => "chunks",
            Key::ChunkWidth => "chunk-width",
            Key::Within => "within",
            Key::From => "from",
            Key::To => "to",
            Key::Lanes => "lanes",
            Key::Lookup => "lookup",
            Key::Output => "output",
        }
    }
}

impl fmt::Display for Key {
    ghost output = { λ key. Some (word_of key) };

    fn fmt<W: fmt::Write>(&self, f: &mut fmt::Formatter<W>) -> fmt::Result {
        f.write_str(self.word())
    }
}

/// The key that a word stands for.
impl FromStr for Key {
    type Err = NoKey;

    ghost from_str_gives = { λ word r. MatchResult r (λ key. word ≡ word_of key) (λ _. (key : Key) → word ≢ word_of key) };

    fn from_str(word: &str) -> Result<Key, NoKey> {
        match word {
            "history" => Ok(Key::History),
            "indices" => Ok(Key::Indices),
            "width" => Ok(Key::Width),
            "values" => Ok(Key::Values),
            "rows" => Ok(Key::Rows),
            "offset" => Ok(Key::Offset),
            "chunks" => Ok(Key::Chunks),
            "chunk-width" => Ok(Key::ChunkWidth),
            "within" => Ok(Key::Within),
            "from" => Ok(Key::From),
            "to" => Ok(Key::To),
            "lanes" => Ok(Key::Lanes),
            "lookup" => Ok(Key::Lookup),
            "output" => Ok(Key::Output),
            _ => Err(NoKey),
        }
    }
}

impl fmt::Display for NoKey {
    fn fmt<W: fmt::Write>(&self, f: &mut fmt::Formatter<W>) -> fmt::Result {
        f.write_str("the word stands for no key")
    }
}

impl Error for NoKey {}

/// What a job is for, which decides the lines that it may have.
#[derive(Clone, Copy, PartialEq, Eq, Debug)]
pub enum JobForm {
    /// The whole history.
    Whole,
    /// Some rows of the history, or all: the job may also have `from`, `to` and `lanes`.
    Rows,
}

impl JobForm {
    /// Whether a job of the form may have a line with the key.
    pub fn knows(self, key: Key) -> bool
        ensures { result ≡ knows self key }
    {
        match self {
            JobForm::Whole => !matches!(key, Key::From | Key::To | Key::Lanes),
            JobForm::Rows => true,
        }
    }

    /// The key that a word stands for in a job of the form, if any.
    fn key(self, word: &str) -> Option<Key>
        ensures { IfSome result (λ key. (word.now ≡ word_of key) × (knows self key ≡ true)) }
    {
        let key = word.parse().ok()?;
        self.knows(key).then_some(key)
    }
}

/// What is wrong with a job.
#[derive(Clone, Copy, PartialEq, Eq, Debug)]
pub enum JobFault {
    /// The line begins with no known key.
    UnknownKey,
    /// Nothing follows the key.
    NoValue(Key),
    /// What follows the key is no number below 2^64.
    NotANumber(Key),
    /// The key stood on an earlier line.
    KeyTwice(Key),
    /// No line has the key.
    KeyMissing(Key),
    /// Some of the three lines on chunk data are there, and this one is not.
    ChunksIncomplete(Key),
    /// The file to write is one of the files to read, which this key names.
    OutputIsInput(Key),
    /// There is not enough memory.
    Memory,
}

/// Why a job is refused: the line, counted from 1, or none where a line is missing; and what is wrong.
#[derive(Clone, Copy, PartialEq, Eq, Debug)]
pub struct JobError {
    pub line: Option<usize>,
    pub fault: JobFault,
}

impl fmt::Display for JobFault {
    fn fmt<W: fmt::Write>(&self, f: &mut fmt::Formatter<W>) -> fmt::Result {
        match self {
            JobFault::UnknownKey => write!(f, "the line begins with no known key"),
            JobFault::NoValue(key) => write!(f, "nothing follows `{key}`"),
            JobFault::NotANumber(key) => write!(
                f,
                "`{key}` wants a whole number from 0 to 18446744073709551615"
            ),
            JobFault::KeyTwice(key) => write!(f, "`{key}` stands on an earlier line already"),
            JobFault::KeyMissing(key) => write!(f, "the job has no `{key}` line"),
            JobFault::ChunksIncomplete(key) => write!(
                f,
                "the job says something of chunk data and has no `{key}` line"
            ),
            JobFault::OutputIsInput(key) => write!(f, "the file to write is also read, as `{key}`"),
            JobFault::Memory => write!(f, "there is not enough memory"),
        }
    }
}

impl fmt::Display for JobError {
    fn fmt<W: fmt::Write>(&self, f: &mut fmt::Formatter<W>) -> fmt::Result {
        let fault = self.fault;
        match self.line {
            Some(line) => write!(f, "line {line}: {fault}"),
            None => write!(f, "{fault}"),
        }
    }
}

impl Error for JobError {}

/// The chunk data of the corrections, as the job names them.
#[derive(Drop)]
pub struct ChunkFiles {
    pub file: String,
    pub width: u64,
    pub within: u64,
}

/// A month's job. One for the whole history has no `from`, `to` and `lanes`.
#[derive(Drop)]
pub struct Job {
    pub history: Vec<String>,
    pub indices: String,
    pub width: u64,
    pub values: String,
    pub rows: u64,
    pub offset: u64,
    pub chunks: Option<ChunkFiles>,
    pub from: Option<u64>,
    pub to: Option<u64>,
    pub lanes: Option<u64>,
    pub lookups: Vec<u64>,
    pub output: String,
}

/// A line that says something.
#[derive(Clone, Copy)]
struct Entry<'a> {
    line: usize,
    key: Key,
    value: &'a str,
}

/// The file to write, and the line that names it.
#[derive(Drop)]
struct Output {
    line: usize,
    file: String,
}

/// A job as far as it is read.
#[derive(Drop)]
struct Draft {
    history: Vec<String>,
    indices: Option<String>,
    width: Option<u64>,
    values: Option<String>,
    rows: Option<u64>,
    offset: Option<u64>,
    chunks: Option<String>,
    chunk_width: Option<u64>,
    within: Option<u64>,
    from: Option<u64>,
    to: Option<u64>,
    lanes: Option<u64>,
    lookups: Vec<u64>,
    output: Option<Output>,
}

impl JobError {
    /// A fault of a line.
    fn at(line: usize, fault: JobFault) -> JobError
        ensures { (result.line ≡ Some line) × (result.fault ≡ fault) }
    {
        JobError {
            line: Some(line),
            fault,
        }
    }

    /// That a line is missing.
    fn missing(fault: JobFault) -> JobError
        ensures { (result.line ≡ None) × (result.fault ≡ fault) }
    {
        JobError { line: None, fault }
    }
}

/// What a line says, or `None` at a line that says nothing.
fn read_line(form: JobForm, line: usize, text: &str) -> Result<Option<Entry<'_>>, JobError>
    ensures { MatchResult result (λ o. IfSome o (λ e. (e.line ≡ line) × (0 < length e.value.now) × (knows form e.key ≡ true))) (λ e. OfLine line e) }
{
    let text = text.trim();
    if text.is_empty() || text.starts_with('#') {
        return Ok(None);
    }
    let (word, rest) = text.split_once(' ').unwrap_or((text, ""));
    let key = form
        .key(word)
        .ok_or(JobError::at(line, JobFault::UnknownKey))?;
    let value = rest.trim();
    if value.is_empty() {
        return Err(JobError::at(line, JobFault::NoValue(key)));
    }
    Ok(Some(Entry { line, key, value }))
}

impl<'a> Entry<'a> {
    /// The number that the entry has.
    fn number(self) -> Result<u64, JobError>
        ensures reads { ParsesUnsigned 64 10 self.entry.value.now result }
        ensures blames { IfErr result (OfLine self.entry.line) }
    {
        self.value.parse().map_err(|_| JobError::at(self.line, JobFault::NotANumber(self.key)))
    }

    /// The text that the entry has.
    fn text(self, heap: Global) -> Result<String, JobError>
        ensures { MatchResult result (λ t. string_bytes t ≡ self.entry.value.now) (OfLine self.entry.line) }
    {
        String::from_str(heap, self.value).map_err(|_| JobError::at(self.line, JobFault::Memory))
    }

    /// The file to write that the entry names.
    fn output(self, heap: Global) -> Result<Output, JobError>
        ensures { MatchResult result (λ o. (o.line ≡ self.entry.line) × (string_bytes o.file ≡ self.entry.value.now)) (OfLine self.entry.line) }
    {
        Ok(Output {
            line: self.line,
            file: self.text(heap)?,
        })
    }
}

/// Keeps what was read of an entry in its place, where no earlier line had its key.
fn put<T: Drop>(
    place: &mut Option<T>,
    entry: Entry<'_>,
    value: Result<T, JobError>,
) -> Result<(), JobError>
    requires { IfErr value (OfLine entry.line) }
    ensures { MatchResult result (λ _. (place.old ≡ None) × IsSomeAnd place.new (λ v. value ≡ Ok v)) (OfLine entry.entry.line) }
{
    if place.is_some() {
        return Err(JobError::at(entry.line, JobFault::KeyTwice(entry.key)));
    }
    *place = Some(value?);
    Ok(())
}

/// Adds what was read of an entry to a list.
fn add<T: Drop>(
    list: &mut Vec<T>,
    entry: Entry<'_>,
    value: Result<T, JobError>,
) -> Result<(), JobError>
    requires { IfErr value (OfLine entry.line) }
    ensures { MatchResult result (λ _. IsOkAnd value (λ v. list.new.items ≡ list.old.items ++ v ∷ [])) (OfLine entry.entry.line) }
{
    list.push(value?)
        .map_err(|_| JobError::at(entry.line, JobFault::Memory))
}

impl Draft {
    fn new(heap: Global) -> Draft
        ensures output { result.output ≡ None }
        ensures form { IsWhole result.from result.to result.lanes }
    {
        Draft {
            history: Vec::new(heap),
            indices: None,
            width: None,
            values: None,
            rows: None,
            offset: None,
            chunks: None,
            chunk_width: None,
            within: None,
            from: None,
            to: None,
            lanes: None,
            lookups: Vec::new(heap),
            output: None,
        }
    }

    /// Takes in what a line says.
    fn take(&mut self, heap: Global, entry: Entry<'_>) -> Result<(), JobError>
        ensures placed { OnOk result ((n : ℕ) → 0 < entry.entry.line → entry.entry.line ≤ n → OutputPlaced n self.old → OutputPlaced n self.new) }
        ensures form { OnOk result (is_common entry.entry.key ≡ true → IsWhole self.old.from self.old.to self.old.lanes → IsWhole self.new.from self.new.to self.new.lanes) }
        ensures blames { IfErr result (OfLine entry.entry.line) }
    {
        match entry.key {
            Key::History => add(&mut self.history, entry, entry.text(heap)),
            Key::Indices => put(&mut self.indices, entry, entry.text(heap)),
            Key::Width => put(&mut self.width, entry, entry.number()),
            Key::Values => put(&mut self.values, entry, entry.text(heap)),
            Key::Rows => put(&mut self.rows, entry, entry.number()),
            Key::Offset => put(&mut self.offset, entry, entry.number()),
            Key::Chunks => put(&mut self.chunks, entry, entry.text(heap)),
            Key::ChunkWidth => put(&mut self.chunk_width, entry, entry.number()),
            Key::Within => put(&mut self.within, entry, entry.number()),
            Key::From => put(&mut self.from, entry, entry.number()),
            Key::To => put(&mut self.to, entry, entry.number()),
            Key::Lanes => put(&mut self.lanes, entry, entry.number()),
            Key::Lookup => add(&mut self.lookups, entry, entry.number()),
            Key::Output => put(&mut self.output, entry, entry.output(heap)),
        }
    }

    /// Reads a line, and takes in what it says.
    fn read(&mut self, heap: Global, form: JobForm, line: usize, text: &str) -> Result<(), JobError>
        ensures placed { OnOk result ((n : ℕ) → 0 < line → line ≤ n → OutputPlaced n self.old → OutputPlaced n self.new) }
        ensures form { OnOk result (form ≡ Whole → IsWhole self.old.from self.old.to self.old.lanes → IsWhole self.new.from self.new.to self.new.lanes) }
        ensures blames { IfErr result (OfLine line) }
    {
        match read_line(form, line, text)? {
            Some(entry) => self.take(heap, entry),
            None => Ok(()),
        }
    }

    /// The job, where no line is missing and the file to write is none of those to read.
    fn finish(self) -> Result<Job, JobError>
        ensures sound { MatchResult result Sound (λ e. (n : ℕ) → OutputPlaced n self → LineFits n e.fault e.line) }
        ensures rows { IfOk result (λ job. (job.from ≡ self.from) × (job.to ≡ self.to) × (job.lanes ≡ self.lanes)) }
    {
        let Draft {
            history,
            indices,
            width,
            values,
            rows,
            offset,
            chunks,
            chunk_width,
            within,
            from,
            to,
            lanes,
            lookups,
            output,
        } = self;
        if history.is_empty() {
            return Err(missing(Key::History));
        }
        let Output { line, file } = output.ok_or(missing(Key::Output))?;
        let job = Job {
            history,
            indices: indices.ok_or(missing(Key::Indices))?,
            width: width.ok_or(missing(Key::Width))?,
            values: values.ok_or(missing(Key::Values))?,
            rows: rows.ok_or(missing(Key::Rows))?,
            offset: offset.ok_or(missing(Key::Offset))?,
            chunks: chunk_files(chunks, chunk_width, within)?,
            from,
            to,
            lanes,
            lookups,
            output: file,
        };
        match input_that_is_output(&job) {
            Some(key) => Err(JobError::at(line, JobFault::OutputIsInput(key))),
            None => Ok(job),
        }
    }
}

/// The refusal of a job that lacks a line.
fn missing(key: Key) -> JobError
    ensures { (result.line ≡ None) × (result.fault ≡ KeyMissing key) }
{
    JobError::missing(JobFault::KeyMissing(key))
}

/// The refusal of a job that lacks a line on its chunk data.
fn incomplete(key: Key) -> JobError
    ensures { (result.line ≡ None) × (result.fault ≡ ChunksIncomplete key) }
{
    JobError::missing(JobFault::ChunksIncomplete(key))
}

/// The chunk data's three lines, or none of them.
fn chunk_files(
    file: Option<String>,
    width: Option<u64>,
    within: Option<u64>,
) -> Result<Option<ChunkFiles>, JobError>
    ensures { IfErr result (λ e. (n : ℕ) → LineFits n e.fault e.line) }
{
    if file.is_none() && width.is_none() && within.is_none() {
        return Ok(None);
    }
    Ok(Some(ChunkFiles {
        file: file.ok_or(incomplete(Key::Chunks))?,
        width: width.ok_or(incomplete(Key::ChunkWidth))?,
        within: within.ok_or(incomplete(Key::Within))?,
    }))
}

/// Whether a file is among some files.
fn holds(files: &[String], file: &str) -> bool
    ensures { result ≡ false → (k : ℕ) (d : String Global) → k < length files.now → string_bytes (slice_index_or files.now k d) ≢ file.now }
{
    files.iter().any(|each| each.as_str() == file)
}

/// The key of a file to read that is also the file to write, if there is one.
fn input_that_is_output(job: &Job) -> Option<Key>
    ensures { IfNone result (0 < vec_len job.now.history → Sound job.now) }
{
    let output = job.output.as_str();
    if holds(&job.history, output) {
        Some(Key::History)
    } else if job.indices.as_str() == output {
        Some(Key::Indices)
    } else if job.values.as_str() == output {
        Some(Key::Values)
    } else {
        let chunks = job.chunks.as_ref()?;
        (chunks.file.as_str() == output).then_some(Key::Chunks)
    }
}

/// Reads a job of a form. A refusal names one of the text's lines, or says which line is missing.
pub fn parse(heap: Global, form: JobForm, text: &str) -> Result<Job, JobError>
    ensures sound { MatchResult result Sound (λ e. LineFits (newlines text.now + 1) e.fault e.line) }
    ensures form { IfOk result (λ job. form ≡ Whole → IsWhole job.from job.to job.lanes) }
{
    let mut draft = Draft::new(heap);
    for (index, line) in text.lines().enumerate() {
        draft.read(heap, form, index + 1, line)?;
    }
    draft.finish()
}

impl Job {
    /// The corrections as the job names them, from the bytes and the values of its files. The bytes of the chunk data count
    /// only where the job names a file of them.
    pub fn corrections<'a>(
        &self,
        indices: &'a [u8],
        values: &'a [i64],
        entries: &'a [u8],
    ) -> Corrections<'a, i64>
        ensures indices { (result.width ≡ self.now.width) × (result.indices.now ≡ indices.now) }
        ensures values { result.values.now ≡ values.now }
        ensures rows { (result.rows ≡ self.now.rows) × (result.offset ≡ self.now.offset) }
        ensures chunks { MatchOption self.now.chunks (result.chunks ≡ None) (λ c. IsSomeAnd result.chunks (λ t. (t.width ≡ c.width) × (t.entries.now ≡ entries.now) × (t.within ≡ c.within))) }
    {
        Corrections {
            width: self.width,
            indices,
            values,
            rows: self.rows,
            offset: self.offset,
            chunks: self.chunks.as_ref().map(|chunks| ChunkTable {
                width: chunks.width,
                entries,
                within: chunks.within,
            }),
        }
    }

    /// The file that a refusal to load the corrections is about.
    pub fn blamed_file(&self, reason: Reason) -> &str
        ensures { result.now ≡ blamed reason self.now }
    {
        match (reason, &self.chunks) {
            (Reason::ChunkData, Some(chunks)) => chunks.file.as_str(),
            (Reason::ValueCount, _) => self.values.as_str(),
            _ => self.indices.as_str(),
        }
    }
}
