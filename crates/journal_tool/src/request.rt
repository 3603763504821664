//! Reads what the arguments of `narwhal-journal` ask for.

use crate::ending::Ending;

/// A command of `narwhal-journal`, named by what it prints.
#[derive(Clone, Copy, Debug, PartialEq, Eq)]
pub(crate) enum Command {
    /// Prints the summary of a journal.
    Verify,
    /// Prints each record of a journal.
    List,
    /// Prints each vote that the journal's node has given.
    Votes,
    /// Prints the last own header in a journal, as a frame.
    LastHeader,
    /// Prints the order that a journal leads to.
    Order,
    /// Prints whether the order of one of two journals is a prefix of the other's.
    Compare,
    /// Prints the certificates of a journal as a graph.
    Graph,
}

/// A command and its arguments.
#[derive(Clone, Copy, Debug)]
pub(crate) struct Request<'a> {
    /// The command.
    pub command: Command,
    /// The path of the journal.
    pub journal: &'a str,
    /// The path of the committee file; for `compare`, that of the other journal.
    pub other: Option<&'a str>,
    /// From where on is shown: for `list` a place in the file, in bytes; for `order` a place in the order.
    pub from: u64,
    /// The first and the last round that a graph shows.
    pub rounds: (u64, u64),
    /// Whether the frame is written as raw bytes, and not in digits.
    pub bytes: bool,
    /// Whether lines are JSON objects.
    pub json: bool,
}

// What the next argument has to be.
#[derive(Clone, Copy, PartialEq, Eq)]
enum Awaits {
    // The next argument is a path or an option.
    Any,
    // The next argument is the number after `--from`.
    From,
    // The next argument is the pair of rounds after `--rounds`.
    Rounds,
}

// What the arguments after the command have said so far.
#[derive(Clone, Copy)]
struct Words<'a> {
    journal: Option<&'a str>,
    other: Option<&'a str>,
    from: Option<u64>,
    rounds: Option<(u64, u64)>,
    awaits: Awaits,
    bytes: bool,
    json: bool,
}

/// Reads the arguments after the program's name.
///
/// # Errors
/// `Usage` with a text that says what is wrong.
pub(crate) fn request_of(args: &[String]) -> Result<Request<'_>, Ending> {
    let Some((first, rest)) = args.split_first() else {
        return Err(Ending::Usage("a command and a journal are needed"));
    };
    let command = command_of(first.as_str())?;
    let words = words_of(rest)?;
    let Some(journal) = words.journal else {
        return Err(Ending::Usage("a journal is needed"));
    };
    test_options(command, &words)?;
    Ok(Request {
        command,
        journal,
        other: words.other,
        from: words.from.unwrap_or(0),
        rounds: words.rounds.unwrap_or((0, u64::MAX)),
        bytes: words.bytes,
        json: words.json,
    })
}

fn command_of(word: &str) -> Result<Command, Ending> {
    match word {
        "verify" => Ok(Command::Verify),
        "list" => Ok(Command::List),
        "votes" => Ok(Command::Votes),
        "last-header" => Ok(Command::LastHeader),
        "order" => Ok(Command::Order),
        "compare" => Ok(Command::Compare),
        "graph" => Ok(Command::Graph),
        _ => Err(Ending::Usage("there is no such command")),
    }
}

// Tests that the command takes each option that was given.
fn test_options(command: Command, words: &Words<'_>) -> Result<(), Ending> {
    let takes_from = matches!(command, Command::List | Command::Order);
    let takes_json = !matches!(
        command,
        Command::LastHeader | Command::Compare | Command::Graph
    );
    if words.from.is_some() && !takes_from {
        Err(Ending::Usage("--from is an option of list and order"))
    } else if words.rounds.is_some() && command != Command::Graph {
        Err(Ending::Usage("--rounds is an option of graph"))
    } else if words.bytes && command != Command::LastHeader {
        Err(Ending::Usage("--bytes is an option of last-header"))
    } else if words.json && !takes_json {
        Err(Ending::Usage("--json is an option of verify, list, votes and order"))
    } else if command == Command::Compare && words.other.is_none() {
        Err(Ending::Usage("compare needs two journals"))
    } else {
        Ok(())
    }
}

// Reads the paths and options after the command, which may come in any order.
fn words_of(rest: &[String]) -> Result<Words<'_>, Ending> {
    let mut words = Words {
        journal: None,
        other: None,
        from: None,
        rounds: None,
        awaits: Awaits::Any,
        bytes: false,
        json: false,
    };
    for word in rest {
        words = with_word(words, word.as_str())?;
    }
    match words.awaits {
        Awaits::Any => Ok(words),
        Awaits::From => Err(Ending::Usage("--from needs a number")),
        Awaits::Rounds => Err(Ending::Usage("--rounds needs two rounds, as 1-6")),
    }
}

// Reads one more argument of the command line.
fn with_word<'a>(words: Words<'a>, word: &'a str) -> Result<Words<'a>, Ending> {
    match words.awaits {
        Awaits::Any => with_option(words, word),
        Awaits::From => Ok(Words {
            from: Some(number_of(word)?),
            awaits: Awaits::Any,
            ..words
        }),
        Awaits::Rounds => Ok(Words {
            rounds: Some(rounds_of(word)?),
            awaits: Awaits::Any,
            ..words
        }),
    }
}

// Reads one more argument, which is an option or a path.
fn with_option<'a>(words: Words<'a>, word: &'a str) -> Result<Words<'a>, Ending> {
    match word {
        "--bytes" => Ok(Words {
            bytes: true,
            ..words
        }),
        "--json" => Ok(Words {
            json: true,
            ..words
        }),
        "--from" => Ok(Words {
            awaits: Awaits::From,
            ..words
        }),
        "--rounds" => Ok(Words {
            awaits: Awaits::Rounds,
            ..words
        }),
        path => with_path(words, path),
    }
}

// Reads one more argument as a path. There are two paths at most, and an argument that starts with a dash is none.
fn with_path<'a>(words: Words<'a>, path: &'a str) -> Result<Words<'a>, Ending> {
    if path.starts_with("-") {
        return Err(Ending::Usage("there is no such option"));
    }
    match (words.journal, words.other) {
        (None, _) => Ok(Words {
            journal: Some(path),
            ..words
        }),
        (Some(_), None) => Ok(Words {
            other: Some(path),
            ..words
        }),
        _ => Err(Ending::Usage("there are too many paths")),
    }
}

fn number_of(text: &str) -> Result<u64, Ending> {
    match text.parse::<u64>() {
        Ok(number) => Ok(number),
        Err(_) => Err(Ending::Usage("--from needs a number")),
    }
}

// Reads a pair of rounds such as `1-6`: the first and the last one.
fn rounds_of(text: &str) -> Result<(u64, u64), Ending> {
    let wrong = Err(Ending::Usage("--rounds needs two rounds, as 1-6"));
    let Some((first, last)) = text.split_once("-") else {
        return wrong;
    };
    match (first.parse::<u64>(), last.parse::<u64>()) {
        (Ok(first), Ok(last)) if first <= last => Ok((first, last)),
        _ => wrong,
    }
}
