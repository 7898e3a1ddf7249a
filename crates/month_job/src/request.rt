//! What a command line asks for.
ghost use Rattle.std.specs.Prelude.{◌≡◌, ◌≤◌, length, get_or, MatchOption, MatchResult};
ghost use Rattle.std.specs.Bool.{Decides};
ghost use Rattle.month_job.specs.Requests.{dash, Asks, AsksNothingKnown};

/// A job's file, and whether every corrected cell is shown.
#[derive(Clone, Copy, PartialEq, Eq, Debug)]
pub struct Request<'a> {
    pub file: &'a str,
    pub all: bool,
}

/// That a command line has words after the program's name, and they are not a job's file with or without `--all`.
#[derive(Clone, Copy, PartialEq, Eq, Debug)]
pub struct UsageError;

/// Whether a word is written as an option is.
fn is_option(word: &str) -> bool
    ensures { Decides result (get_or word.now 0 0 ≡ dash) }
{
    word.starts_with('-')
}

/// What the words of a command line ask for, the first of which is the program's name; nothing where no word follows it.
pub fn read_request(words: &[String]) -> Result<Option<Request<'_>>, UsageError>
    ensures { MatchResult result (λ o. MatchOption o (length words.now ≤ 1) (λ r. Asks words.now r.file.now r.all)) (λ _. AsksNothingKnown words.now) }
{
    match words {
        [] | [_] => Ok(None),
        [_, file] if !is_option(file.as_str()) => Ok(Some(Request {
            file: file.as_str(),
            all: false,
        })),
        [_, file, option] if !is_option(file.as_str()) && option.as_str() == "--all" => {
            Ok(Some(Request {
                file: file.as_str(),
                all: true,
            }))
        }
        _ => Err(UsageError),
    }
}
