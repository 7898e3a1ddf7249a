//! Files that are read and written, and lines that are printed. Each program has its own such functions, since a contract could
//! promise nothing of them.
//! Each failure is told on standard error where it happens, and so before the output is removed.
//! A file is named after the runtime that reaches it, as in the functions of `std::fs`.
use crate::Stopped;
use month_job::cells::{decode, encode};
use std::alloc::AllocError;
use std::fmt::Display;
use std::fs;
use std::fs::File;
use std::io::Write;

/// Tells what is wrong, and with which file.
pub fn stop<D: Display + Drop>(rt: &HostRuntime, file: &str, what: D) -> Stopped {
    let _ = eprintln!(rt; "month_stream: {file}: {what}");
    Stopped
}

/// Prints a line.
pub fn say<D: Display + Drop>(rt: &HostRuntime, line: D) -> Result<(), Stopped> {
    rt.println(line)
        .map_err(|error| stop(rt, "standard output", error))
}

/// Prints a line that took memory to make.
pub fn say_line(rt: &HostRuntime, line: Result<String, AllocError>) -> Result<(), Stopped> {
    say(
        rt,
        line.map_err(|error| stop(rt, "standard output", error))?,
    )
}

/// The text of a file.
pub fn read_text(rt: &HostRuntime, file: &str) -> Result<String, Stopped> {
    fs::read_to_string(rt, file).map_err(|error| stop(rt, file, error))
}

/// The bytes of a file.
pub fn read_bytes(rt: &HostRuntime, file: &str) -> Result<Vec<u8>, Stopped> {
    fs::read(rt, file).map_err(|error| stop(rt, file, error))
}

/// The cells of a file.
pub fn read_cells(rt: &HostRuntime, file: &str) -> Result<Vec<i64>, Stopped> {
    let bytes = read_bytes(rt, file)?;
    decode(rt.alloc(), &bytes).map_err(|error| stop(rt, file, error))
}

/// Refuses a file to write that is there already.
pub fn refuse_old_output(rt: &HostRuntime, file: &str) -> Result<(), Stopped> {
    if fs::exists(rt, file).map_err(|error| stop(rt, file, error))? {
        return Err(stop(
            rt,
            file,
            "the file to write is there already; name another, or move it away",
        ));
    }
    Ok(())
}

/// A file that is written: its name, and the open file.
#[derive(Drop)]
pub struct Output<'a> {
    rt: &'a HostRuntime,
    name: &'a str,
    file: File,
}

impl<'a> Output<'a> {
    /// Makes a new file. A file that is there already is left as it is.
    pub fn create_new(rt: &'a HostRuntime, name: &'a str) -> Result<Output<'a>, Stopped> {
        let file = File::create_new(rt, name).map_err(|error| stop(rt, name, error))?;
        Ok(Output { rt, name, file })
    }

    /// Tells what is wrong with the file.
    fn stop<D: Display + Drop>(&self, what: D) -> Stopped {
        stop(self.rt, self.name, what)
    }

    /// Writes cells.
    pub fn write_cells(&mut self, cells: &[i64]) -> Result<(), Stopped> {
        let bytes = encode(self.rt.alloc(), cells).map_err(|error| self.stop(error))?;
        self.file
            .write_all(&bytes)
            .map_err(|error| self.stop(error))
    }

    /// Brings what was written through to the disk.
    pub fn sync(&self) -> Result<(), Stopped> {
        self.file.sync_all().map_err(|error| self.stop(error))
    }

    /// Removes the file.
    pub fn remove(&self) {
        if let Err(error) = fs::remove_file(self.rt, self.name) {
            let _ = self.stop(error);
        }
    }
}
