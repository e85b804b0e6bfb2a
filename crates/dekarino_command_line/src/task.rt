//! What the program can be asked to do.
use crate::limits::SearchLimits;

/// What the program is asked to do, with the paths of the files.
#[derive(Debug, Drop, PartialEq, Eq)]
pub enum Task<'a> {
    /// Prints the ports of a configuration.
    Table {
        config: &'a str,
        form: Form,
    },
    /// Prints each call beside its reply.
    Explain {
        config: &'a str,
        calls: Files<'a>,
        form: Form,
    },
    /// Draws a configuration, or the calls of a trace on it.
    Draw {
        config: &'a str,
        trace: Option<&'a str>,
    },
    /// Prints as JSON from which call to which a trace's messages went.
    ReadArrows {
        config: &'a str,
        trace: &'a str,
    },
    /// Prints the replies of a recorded log that depart from the standard, as they are found: all, only the first, or none if
    /// the whole log must be free of faulty lines and has one. Options: each send or receive without a time-out on its line
    /// has one, and identifiers are those of the system.
    Judge {
        config: &'a str,
        log: &'a str,
        first: bool,
        whole: bool,
        time_outs: bool,
        own_ids: bool,
        form: Form,
    },
    /// Answers whether the logs that the arguments `NAME=LOG` give to partitions have an order in which each reply is the
    /// standard's, and writes it to a file if that is given; it gives up at the limits.
    JudgeApart {
        config: &'a str,
        logs: Vec<&'a str>,
        order: Option<&'a str>,
        limits: SearchLimits,
        time_outs: bool,
        form: Form,
    },
    /// Prints all replies that scripts can get over every order of their calls, and writes an order for each reply of several
    /// to a file in a folder, if that is given; or answers questions about the orders. It gives up at the limits.
    Orders {
        config: &'a str,
        scripts: Vec<&'a str>,
        limits: SearchLimits,
        questions: Vec<Question<'a>>,
        witness: Option<&'a str>,
        form: Form,
    },
    /// Prints the reply table: the rows of a service, or of all.
    Rows {
        service: Option<&'a str>,
        form: Form,
    },
    /// Prints the version.
    Version,
    /// Prints this help.
    Help(String),
}

/// The files that calls are from.
#[derive(Debug, Drop, PartialEq, Eq)]
pub enum Files<'a> {
    /// One file, with the calls of all partitions.
    One(&'a str),
    /// The files that the arguments `NAME=FILE` give to partitions.
    OfPartitions(Vec<&'a str>),
}

/// A question about all orders: `NAME:LINE = REPLY` or `CHANNEL COUNT OP NUMBER`.
#[derive(Clone, Copy, Debug, PartialEq, Eq)]
pub enum Question<'a> {
    /// Some order is to have such a reply or such an end.
    When(&'a str),
    /// No order is to have one.
    Never(&'a str),
    /// Two calls are to be found that decide whether a call gets such a reply.
    Why(&'a str),
}

impl<'a> Question<'a> {
    /// The words of the question.
    pub fn words(&self) -> &'a str {
        match self {
            Question::When(words) | Question::Never(words) | Question::Why(words) => words,
        }
    }

    /// The option that asks it.
    pub fn option(&self) -> &'static str {
        match self {
            Question::When(_) => "--when",
            Question::Never(_) => "--never",
            Question::Why(_) => "--why",
        }
    }

    /// Whether some order is to have what is asked for.
    pub fn is_wanted(&self) -> bool {
        matches!(self, Question::When(_))
    }
}

/// How an answer is printed.
#[derive(Clone, Copy, Debug, PartialEq, Eq)]
pub enum Form {
    /// As a text.
    Text,
    /// As JSON lines, an object a line.
    Json,
}
