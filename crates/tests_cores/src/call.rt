//! Calls as lines of text: a word, and up to two numbers.

/// What is done to a source, each to one kind.
#[derive(Clone, Copy)]
pub enum Doing {
    Add,
    Remove,
    Insert,
    Count,
    Raise,
    /// Joins in one row of a set.
    Join,
}

/// What a read waits for.
#[derive(Clone, Copy)]
pub enum Until {
    /// So many elements, or so large a total.
    Counted,
    /// A row or an element of this number.
    Added,
    /// A dead row of this number.
    Removed,
    /// More than there is.
    More,
}

/// What is told of a core.
#[derive(Clone, Copy)]
pub enum What {
    /// Each entry by its caller and its act.
    Entries,
    /// Each state with its number of rows.
    States,
    /// Which of its derived variables are clean, and whether it is settled.
    Settled,
    /// The reads that wait, each with its variable.
    Reads,
    /// How many updates of each replica it knows.
    Counts,
    /// The sources of the other core's next message, each by its name and its state, and its counts.
    Message,
    /// The calls of stored functions that jobs took so far, by the rows that they brought and by their bases, and what is owed.
    Cost,
}

/// What is done. The numbers that each takes stand beside it.
#[derive(Clone, Copy)]
pub enum Verb {
    /// A variable, a number.
    Update(Doing),
    /// A variable, and how often it is updated: by each number from 0 on, or by 1 where it counts.
    Fill(Doing),
    /// A declaration of the list.
    Declare,
    /// The other core sends a message.
    Send,
    /// A core of another graph sends one.
    Stray,
    /// A message.
    Deliver,
    /// Takes the next job and keeps it.
    Next,
    /// Takes a job of a variable and keeps it.
    Take,
    /// Hands in the result of a job, by its place among those that are kept.
    End,
    /// Gives such a job back.
    Back,
    /// Does the next job, by what is known of any replica that hands out jobs.
    Work,
    /// Brings a variable up to its inputs in place.
    Settle,
    /// A variable, a number.
    Open(Until),
    /// What a read is answered, by its place among those that were opened.
    Ask,
    /// Closes such a read.
    Close,
    Tell(What),
}

/// A call.
#[derive(Clone, Copy)]
pub struct Call {
    /// Whether the other core is meant.
    pub is_there: bool,
    pub verb: Verb,
    /// A variable, or what else is counted from 0.
    pub first: u8,
    pub second: i64,
}

const WORDS: [(&str, Verb); 31] = [
    ("add", Verb::Update(Doing::Add)),
    ("remove", Verb::Update(Doing::Remove)),
    ("insert", Verb::Update(Doing::Insert)),
    ("inc", Verb::Update(Doing::Count)),
    ("max", Verb::Update(Doing::Raise)),
    ("join", Verb::Update(Doing::Join)),
    ("fill", Verb::Fill(Doing::Add)),
    ("tick", Verb::Fill(Doing::Count)),
    ("declare", Verb::Declare),
    ("send", Verb::Send),
    ("stray", Verb::Stray),
    ("deliver", Verb::Deliver),
    ("next", Verb::Next),
    ("take", Verb::Take),
    ("end", Verb::End),
    ("back", Verb::Back),
    ("work", Verb::Work),
    ("settle", Verb::Settle),
    ("count", Verb::Open(Until::Counted)),
    ("added", Verb::Open(Until::Added)),
    ("removed", Verb::Open(Until::Removed)),
    ("more", Verb::Open(Until::More)),
    ("ask", Verb::Ask),
    ("close", Verb::Close),
    ("entries", Verb::Tell(What::Entries)),
    ("states", Verb::Tell(What::States)),
    ("settled", Verb::Tell(What::Settled)),
    ("reads", Verb::Tell(What::Reads)),
    ("counts", Verb::Tell(What::Counts)),
    ("message", Verb::Tell(What::Message)),
    ("cost", Verb::Tell(What::Cost)),
];

/// What a word says.
fn verb_of(words: &[(&str, Verb)], wanted: &str) -> Option<Verb> {
    for (word, verb) in words {
        if *word == wanted {
            return Some(*verb);
        }
    }
    None
}

/// The number that a word is, or 0.
fn number_of(word: Option<&str>) -> i64 {
    match word {
        Some(digits) => digits.parse::<i64>().unwrap_or(0),
        None => 0,
    }
}

/// The call that a line says. What stands behind its numbers is no part of it.
pub fn read_call(line: &str) -> Option<Call> {
    let mut words = line.split_whitespace();
    let mut word = words.next()?;
    let is_there = word == "there";
    if is_there {
        word = words.next()?;
    }
    let verb = verb_of(&WORDS, word)?;
    let first = number_of(words.next());
    let second = number_of(words.next());
    Some(Call {
        is_there,
        verb,
        first: u8::try_from(first).unwrap_or(0),
        second,
    })
}
