//! What a finished task answers.

/// What a finished task answers, with the text to print.
#[derive(Debug, Drop, PartialEq, Eq)]
pub enum Outcome {
    /// The task is done; if it was a question, the answer is yes.
    Done(Vec<u8>),
    /// The answer is no: replies of a log depart from the standard, no order has the replies of logs, or no order is as it
    /// was to be in some, or one is as it was never to be.
    Negative(Vec<u8>),
    /// A search ended at its bound without an answer, and no other answer is no.
    Undecided(Vec<u8>),
}
