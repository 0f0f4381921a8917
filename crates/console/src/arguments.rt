ghost use Rattle.std.specs.Prelude.{◌≡◌, ◌<◌, ◌≤◌, ◌↔◌, length, slice_get, IsErr, IfOk, MatchOption, Ok, None};
ghost use Rattle.console.specs.declared.arguments.Request.TheVariants.{Work};
ghost use Rattle.console.specs.Requests.{Asks};

use anyhow::anyhow;

/// What the word behind a program's name asks for.
#[derive(Debug, Drop)]
pub enum Request<'a> {
    /// To print what the program is for and what it takes.
    Help,
    /// To print its version.
    Version,
    /// To do its work on what has this name, or where there is none, on what the program takes instead.
    Work(Option<&'a str>),
}

impl<'a> Request<'a> {
    /// What the word asks for, or where there is none, what the program does alone. A word that begins with a dash and is no
    /// option is refused.
    pub fn of(word: Option<&'a str>) -> anyhow::Result<Request<'a>>
        ensures { MatchOption word.entry (result ≡ Ok (Work None)) (λ w. Asks w result) }
    {
        match word {
            None => Ok(Request::Work(None)),
            Some(word) => request_of(word),
        }
    }
}

fn request_of(word: &str) -> anyhow::Result<Request<'_>>
    ensures { Asks word.entry result }
{
    match word {
        "-h" | "--help" => Ok(Request::Help),
        "-V" | "--version" => Ok(Request::Version),
        "-" => Ok(Request::Work(None)),
        option if option.starts_with('-') => Err(anyhow!(
            "unknown option {option}; --help says what there is"
        )),
        name => Ok(Request::Work(Some(name))),
    }
}

/// The word behind a program's name, if there is one. A second is refused.
pub fn only_argument(words: &[String]) -> anyhow::Result<Option<&String>>
    ensures refused { IsErr result ↔ (2 < length words.now) }
    ensures word { IfOk result (λ found. MatchOption found (length words.now ≤ 1) (λ word. slice_get words.now 1 ≡ Some word.now)) }
{
    match words {
        [] | [_] => Ok(None),
        [_, word] => Ok(Some(word)),
        _ => Err(anyhow!("more than one argument; --help says what it takes")),
    }
}
