//! Corrects a price history by a month's corrections, as a job file says.
#![tactic(auto)]

mod files;
mod steps;

use files::{read_text, say, stop};
use month_job::job::{Job, JobForm, parse};
use month_job::request::{Request, UsageError, read_request};
use std::env;
use std::process::ExitCode;
use steps::Month;

/// That a run ended early. What was wrong is printed by then.
#[derive(Clone, Copy, Debug)]
pub struct Stopped;

const USAGE: &str = "usage: month_end JOB [--all]
Corrects a price history by a month's corrections, as the job file JOB says, and writes the corrected history.
  --all   show every corrected cell, and not only the first ten and the last three
Amounts are in minor units. Paths in the job are taken from the current folder.";

/// Reads the job file.
fn read_job(rt: &HostRuntime, file: &str) -> Result<Job, Stopped> {
    let text = read_text(rt, file)?;
    parse(rt.alloc(), JobForm::Whole, text.as_str()).map_err(|error| stop(rt, file, error))
}

/// Does what the command line asks for.
fn run(rt: &HostRuntime) -> Result<(), Stopped> {
    let args = env::args(rt).map_err(|error| stop(rt, "the command line", error))?;
    let heap = rt.alloc();
    // the program's name, a job's file and an option; a fourth word tells that there are too many
    let mut words = [
        String::new(heap),
        String::new(heap),
        String::new(heap),
        String::new(heap),
    ];
    let count = args.len().min(words.len());
    for (place, word) in words.iter_mut().zip(args) {
        *place = word;
    }
    match read_request(&words[..count]) {
        Ok(Some(Request { file, all })) => {
            let job = read_job(rt, file)?;
            let month = Month {
                rt,
                job_file: file,
                job: &job,
                all,
            };
            month.run()
        }
        Ok(None) => say(rt, USAGE),
        Err(UsageError) => {
            let _ = eprintln!(rt; "{USAGE}");
            Err(Stopped)
        }
    }
}

fn main(rt: HostRuntime) -> ExitCode {
    match run(&rt) {
        Ok(()) => ExitCode::SUCCESS,
        Err(Stopped) => ExitCode::FAILURE,
    }
}
