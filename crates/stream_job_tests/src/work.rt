//! Tests of `stream_job::work`.
use month_job::correct::check_count;
use month_job::job::{JobForm, parse};
use runs::attempts::{Attempt, AttemptError, Entry};
use std::test::Fail;
use stream_job::work::{asked_rows, block_count, check_accepted, offset_room, plan};

const PLAIN: &str =
    "# prices\n\nhistory a b.bin\nhistory c\n  rows 5000 \noffset 1500\nwidth 4\nindices i\nvalues v\nlookup 7\nlookup 0\noutput o\n";

#[test]
fn a_job_for_some_rows(rt: HostRuntime) -> Result<(), Fail> {
    let text = format!(in rt.alloc(); "{PLAIN}from 100\nlanes 16\nto 4900\n")?;
    let job = parse(rt.alloc(), JobForm::Rows, text.as_str())?;
    assert_eq!(rt;
        (job.from, job.to, job.lanes),
        (Some(100), Some(4900), Some(16))
    );
    let work = asked_rows(&job);
    assert_eq!(rt; (work.first, work.end), (100, 4900));
    Ok(())
}

#[test]
fn a_job_from_a_row_on(rt: HostRuntime) -> Result<(), Fail> {
    let text = format!(in rt.alloc(); "{PLAIN}from 7\n")?;
    let job = parse(rt.alloc(), JobForm::Rows, text.as_str())?;
    let work = asked_rows(&job);
    assert_eq!(rt; (work.first, work.end), (7, 5000));
    Ok(())
}

#[test]
fn five_thousand_rows(rt: HostRuntime) -> Result<(), Fail> {
    assert_eq!(rt; block_count(1500, 5000), 1);
    let block = plan(rt.alloc(), 0, 1500, 5000)?;
    assert_eq!(rt; block.cells, 5000);
    assert!(rt; block.entries.len() == 6);
    assert_eq!(rt;
        (
            block.entries[0].attempt.cells(),
            block.entries[5].attempt.cells(),
        ),
        (548, 356)
    );
    Ok(())
}

#[test]
fn the_last_block(rt: HostRuntime) -> Result<(), Fail> {
    assert_eq!(rt; block_count(0, 65537), 2);
    let block = plan(rt.alloc(), 1, 0, 65537)?;
    assert_eq!(rt; (block.cells, block.entries.len()), (1, 1));
    Ok(())
}

#[test]
fn counts(rt: HostRuntime) {
    assert!(rt; check_count(5, 5).is_ok() && check_count(5, 6).is_err());
    assert_eq!(rt;
        (
            offset_room(16, 4800),
            offset_room(1025, 4800),
            offset_room(1, 0),
        ),
        (Some(81), None, Some(1))
    );
}

#[test]
fn an_attempt_that_was_not_made(rt: HostRuntime) {
    let accepted = Entry {
        attempt: Attempt::Close,
        outcome: Ok(()),
    };
    let idle = Entry {
        attempt: Attempt::Close,
        outcome: Err(AttemptError::NotMade),
    };
    assert!(rt; check_accepted(&[accepted, accepted]).is_ok());
    assert!(rt; check_accepted(&[accepted, idle]).is_err());
}
