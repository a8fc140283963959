//! What the command line asks for.

/// What is done with the stream.
#[derive(Clone, Copy)]
pub(crate) enum Work {
    /// Its messages are decoded.
    Decode,
    /// Its messages are judged in place.
    View,
    /// Its messages are owned by their views.
    Own,
    /// Its messages are decoded once, and encoded.
    Encode,
    /// A session receives it.
    Session,
    /// A session receives it, and writes what is to be done into one set of actions.
    SessionInto,
    /// A session receives it by views.
    SessionView,
}

/// The work, and the number of rounds.
#[derive(Clone, Copy)]
pub(crate) struct Request {
    pub(crate) work: Work,
    pub(crate) rounds: u32,
}

impl Work {
    fn parse(word: &str) -> Option<Work> {
        match word {
            "decode" => Some(Work::Decode),
            "view" => Some(Work::View),
            "own" => Some(Work::Own),
            "encode" => Some(Work::Encode),
            "session" => Some(Work::Session),
            "session-into" => Some(Work::SessionInto),
            "session-view" => Some(Work::SessionView),
            _ => None,
        }
    }
}

impl Request {
    /// What these words ask for: the work, and after it the rounds, by default one.
    pub(crate) fn parse(words: &[&str]) -> Option<Request> {
        let (work, rounds) = match words.len() {
            1 => (words[0], 1),
            2 => (words[0], words[1].parse::<u32>().ok()?),
            _ => return None,
        };
        let work = Work::parse(work)?;
        Some(Request { work, rounds })
    }
}
