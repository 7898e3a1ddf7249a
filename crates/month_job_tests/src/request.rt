//! Tests of `month_job::request`.
use month_job::request::{Request, UsageError, read_request};
use std::test::Fail;

/// The words of a command line.
fn line(rt: &HostRuntime, words: &[&str]) -> Result<Vec<String>, Fail> {
    let mut line = Vec::new(rt.alloc());
    for word in words {
        line.push(String::from_str(rt.alloc(), word)?)?;
    }
    Ok(line)
}

#[test]
fn nothing_is_asked(rt: HostRuntime) -> Result<(), Fail> {
    let empty: [&str; 0] = [];
    assert_eq!(rt; read_request(&line(&rt, &empty)?), Ok(None));
    assert_eq!(rt; read_request(&line(&rt, &["program"])?), Ok(None));
    Ok(())
}

#[test]
fn a_job_is_asked(rt: HostRuntime) -> Result<(), Fail> {
    let short = line(&rt, &["program", "month.job"])?;
    let long = line(&rt, &["program", "a-b", "--all"])?;
    let some = Request {
        file: "month.job",
        all: false,
    };
    let every = Request {
        file: "a-b",
        all: true,
    };
    assert_eq!(rt; read_request(&short), Ok(Some(some)));
    assert_eq!(rt; read_request(&long), Ok(Some(every)));
    let nameless = Request {
        file: "",
        all: false,
    };
    assert_eq!(rt;
        read_request(&line(&rt, &["program", ""])?),
        Ok(Some(nameless))
    );
    Ok(())
}

#[test]
fn other_words_are_refused(rt: HostRuntime) -> Result<(), Fail> {
    let dashed = line(&rt, &["program", "-"])?;
    let turned = line(&rt, &["program", "--all", "month.job"])?;
    let other = line(&rt, &["program", "month.job", "all"])?;
    let twice = line(&rt, &["program", "month.job", "--all", "--all"])?;
    for words in [&dashed, &turned, &other, &twice] {
        assert_eq!(rt; read_request(words), Err(UsageError));
    }
    Ok(())
}
