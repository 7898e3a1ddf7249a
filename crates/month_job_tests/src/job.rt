//! Tests of `month_job::job`.
use month_job::job::{JobError, JobFault, JobForm, Key, parse};
use patches::refusal::Reason;
use std::test::Fail;

const PLAIN: &str =
    "# prices\n\nhistory a b.bin\nhistory c\n  rows 5000 \noffset 1500\nwidth 4\nindices i\nvalues v\nlookup 7\nlookup 0\noutput o\n";

const FORMS: [JobForm; 2] = [JobForm::Whole, JobForm::Rows];

fn refusal(rt: &HostRuntime, form: JobForm, text: &str) -> Result<JobError, Fail> {
    match parse(rt.alloc(), form, text) {
        Ok(_) => Err(Fail::new("the job is accepted")),
        Err(error) => Ok(error),
    }
}

fn at(line: usize, fault: JobFault) -> JobError {
    JobError {
        line: Some(line),
        fault,
    }
}

#[test]
fn a_job_without_chunk_data(rt: HostRuntime) -> Result<(), Fail> {
    for form in FORMS {
        let job = parse(rt.alloc(), form, PLAIN)?;
        assert!(rt; job.history.len() == 2 && job.lookups.len() == 2);
        assert!(rt; job.history[0].as_str() == "a b.bin" && job.lookups[0] == 7);
        assert_eq!(rt; (job.rows, job.offset, job.width), (5000, 1500, 4));
        assert!(rt; job.from.is_none() && job.to.is_none() && job.lanes.is_none());
        assert!(rt; job.chunks.is_none() && job.output.as_str() == "o");
    }
    Ok(())
}

#[test]
fn faults_of_a_line(rt: HostRuntime) -> Result<(), Fail> {
    let cases = [
        ("rows 1\nrow 2\n", at(2, JobFault::UnknownKey)),
        ("\n#\nvalues  \n", at(3, JobFault::NoValue(Key::Values))),
        (
            "rows 18446744073709551616",
            at(1, JobFault::NotANumber(Key::Rows)),
        ),
        ("rows -1", at(1, JobFault::NotANumber(Key::Rows))),
        ("width 4\nwidth 4", at(2, JobFault::KeyTwice(Key::Width))),
        ("width 4\nwidth x", at(2, JobFault::KeyTwice(Key::Width))),
    ];
    for form in FORMS {
        for (text, error) in cases {
            assert_eq!(rt; refusal(&rt, form, text)?, error);
        }
    }
    Ok(())
}

#[test]
fn faults_of_a_line_of_a_job_for_some_rows(rt: HostRuntime) -> Result<(), Fail> {
    let cases = [
        ("from 1\nto 2\nfrom 1", at(3, JobFault::KeyTwice(Key::From))),
        ("to end", at(1, JobFault::NotANumber(Key::To))),
        ("lanes", at(1, JobFault::NoValue(Key::Lanes))),
    ];
    for (text, error) in cases {
        assert_eq!(rt; refusal(&rt, JobForm::Rows, text)?, error);
    }
    Ok(())
}

#[test]
fn keys_of_a_job_for_some_rows(rt: HostRuntime) -> Result<(), Fail> {
    for (text, line) in [("from 1", 1), ("rows 1\nto 2", 2), ("\n\nlanes", 3)] {
        assert_eq!(rt;
            refusal(&rt, JobForm::Whole, text)?,
            at(line, JobFault::UnknownKey)
        );
    }
    Ok(())
}

#[test]
fn faults_of_the_whole(rt: HostRuntime) -> Result<(), Fail> {
    let heap = rt.alloc();
    let partial = format!(in heap; "{PLAIN}chunks k\nwithin 0\n")?;
    let clash = format!(in heap; "{PLAIN}chunks o\nchunk-width 2\nwithin 0\n")?;
    for form in FORMS {
        assert_eq!(rt;
            refusal(&rt, form, "")?,
            JobError {
                line: None,
                fault: JobFault::KeyMissing(Key::History),
            }
        );
        let lacks = JobError {
            line: None,
            fault: JobFault::ChunksIncomplete(Key::ChunkWidth),
        };
        assert_eq!(rt; refusal(&rt, form, partial.as_str())?, lacks);
        let same = at(12, JobFault::OutputIsInput(Key::Chunks));
        assert_eq!(rt; refusal(&rt, form, clash.as_str())?, same);
    }
    Ok(())
}

#[test]
fn texts_of_refusals(rt: HostRuntime) -> Result<(), Fail> {
    let heap = rt.alloc();
    let twice = at(2, JobFault::KeyTwice(Key::ChunkWidth));
    let missing = JobError {
        line: None,
        fault: JobFault::KeyMissing(Key::Indices),
    };
    assert_eq!(rt;
        format!(in heap; "{twice}")?.as_str(),
        "line 2: `chunk-width` stands on an earlier line already"
    );
    assert_eq!(rt;
        format!(in heap; "{missing}")?.as_str(),
        "the job has no `indices` line"
    );
    Ok(())
}

#[test]
fn corrections_of_a_job(rt: HostRuntime) -> Result<(), Fail> {
    let job = parse(rt.alloc(), JobForm::Whole, PLAIN)?;
    let plain = job.corrections(&[1, 0, 0, 0], &[-5], &[9]);
    assert_eq!(rt; (plain.width, plain.rows, plain.offset), (4, 5000, 1500));
    assert!(rt; plain.indices.len() == 4 && plain.values[0] == -5);
    assert!(rt; plain.chunks.is_none());
    assert_eq!(rt; job.blamed_file(Reason::ValueCount), "v");
    assert_eq!(rt; job.blamed_file(Reason::ChunkData), "i");
    Ok(())
}

#[test]
fn corrections_of_a_job_with_chunk_data(rt: HostRuntime) -> Result<(), Fail> {
    let text = format!(in rt.alloc(); "{PLAIN}chunks k\nchunk-width 2\nwithin 3\n")?;
    let job = parse(rt.alloc(), JobForm::Whole, text.as_str())?;
    let Some(table) = job.corrections(&[], &[], &[9, 8]).chunks else {
        return Err(Fail::new("the chunk data are left out"));
    };
    assert_eq!(rt; (table.width, table.within, table.entries.len()), (2, 3, 2));
    assert_eq!(rt; job.blamed_file(Reason::ChunkData), "k");
    assert_eq!(rt; job.blamed_file(Reason::ValueCount), "v");
    assert_eq!(rt; job.blamed_file(Reason::IndexOrder), "i");
    Ok(())
}
