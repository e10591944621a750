//! Words and the marks that end them.
use reading::raw::RawTerm;

/// What a word names.
#[derive(Clone, Copy, PartialEq, Eq, Debug)]
pub enum TermKind {
    Constant,
    Variable,
    Null,
}

/// The byte that ends a word.
#[derive(Clone, Copy, PartialEq, Eq, Debug)]
pub enum Mark {
    Space,
    Comma,
    Semicolon,
    End,
}

/// A word and the mark after it.
#[derive(Clone, Copy, PartialEq, Eq, Debug)]
pub struct Token {
    pub term: RawTerm,
    pub mark: Mark,
}

/// Where the reader stands in a line.
#[derive(Clone, Copy, PartialEq, Eq, Debug)]
pub enum State {
    BetweenWords,
    AfterV,
    AfterN,
    InNumber(TermKind, u32),
}

/// What a byte does: the word goes on, or ends.
#[derive(Clone, Copy, PartialEq, Eq, Debug)]
pub enum Step {
    Go(State),
    Ends(Token),
}
