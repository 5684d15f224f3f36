// A command with a journal, and recovery, as definitions and theorems; the code is what the functions of crate `journal` give
// back.

#![tactic(auto)]

// What comes back of a command with a journal: the number, 0 or the refusal, the answer's length, and the journal's used
// length.
#[derive(Clone, Copy)]
pub struct JournalOutcome {
    pub number: u8,
    pub len: usize,
    pub used: usize,
}

// What a recovery comes to: whole, with how many lines were carried out and where they end, which is the used length; a
// line that was refused or is a question; a line that is no frame, with the place of its fault; lines are counted from 1.
// Or a bus buffer lacks its length.
#[derive(Clone, Copy)]
pub enum Recovered {
    Whole(usize, usize),
    Stopped(usize),
    Unread(usize, usize),
    WrongLength,
}
