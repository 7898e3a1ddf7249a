//! Files that are read and written, and lines that are printed. Each program has its own such functions, since a contract could
//! promise nothing of them.
//! Each failure is told on standard error where it happens: some before a file is removed, and some after.
//! A file is named after the runtime that reaches it, as in the functions of `std::fs`.
use crate::Stopped;
use month_job::cells::append;
use std::alloc::AllocError;
use std::fmt::Display;
use std::fs::File;
use std::io::Write;
use std::{fs, io};

/// Tells what is wrong, and with which file.
pub fn stop<D: Display + Drop>(rt: &HostRuntime, file: &str, what: D) -> Stopped {
    let _ = eprintln!(rt; "month_end: {file}: {what}");
    Stopped
}

/// Prints a line.
pub fn say<D: Display + Drop>(rt: &HostRuntime, line: D) -> Result<(), Stopped> {
    rt.println(line)
        .map_err(|error| stop(rt, "standard output", error))
}

/// Prints a line that took memory to make.
pub fn say_line(rt: &HostRuntime, line: Result<String, AllocError>) -> Result<(), Stopped> {
    say(
        rt,
        line.map_err(|error| stop(rt, "standard output", error))?,
    )
}

/// The text of a file.
pub fn read_text(rt: &HostRuntime, file: &str) -> Result<String, Stopped> {
    fs::read_to_string(rt, file).map_err(|error| stop(rt, file, error))
}

/// The bytes of a file.
pub fn read_bytes(rt: &HostRuntime, file: &str) -> Result<Vec<u8>, Stopped> {
    fs::read(rt, file).map_err(|error| stop(rt, file, error))
}

/// Appends the cells of a file, and answers how many they are.
pub fn read_cells(rt: &HostRuntime, file: &str, cells: &mut Vec<i64>) -> Result<usize, Stopped> {
    let bytes = read_bytes(rt, file)?;
    append(cells, &bytes).map_err(|error| stop(rt, file, error))
}

/// Refuses a file to write that is there already.
pub fn refuse_old_output(rt: &HostRuntime, file: &str) -> Result<(), Stopped> {
    if fs::exists(rt, file).map_err(|error| stop(rt, file, error))? {
        return Err(stop(
            rt,
            file,
            "the file to write is there already; name another, or move it away",
        ));
    }
    Ok(())
}

/// Writes bytes to an open file, through to the disk.
fn put(file: &mut File, bytes: &[u8]) -> io::Result<()> {
    file.write_all(bytes)?;
    file.sync_all()
}

/// Writes a new file. A file that is there already is left as it is, and a file that cannot be written whole is removed.
pub fn write_new(rt: &HostRuntime, file: &str, bytes: &[u8]) -> Result<(), Stopped> {
    let mut output = File::create_new(rt, file).map_err(|error| stop(rt, file, error))?;
    put(&mut output, bytes).map_err(|error| {
        remove(rt, file);
        stop(rt, file, error)
    })
}

/// Removes a file that was written.
pub fn remove(rt: &HostRuntime, file: &str) {
    if let Err(error) = fs::remove_file(rt, file) {
        let _ = stop(rt, file, error);
    }
}
