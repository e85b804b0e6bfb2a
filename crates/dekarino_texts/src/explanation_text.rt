//! The text of an explanation: each line beside the reply to its call, and then the remarks.
use crate::counted::Counted;
use crate::explanation::{AnsweredCall, ExplanationSink};
use crate::remark::Remark;
use crate::remark_words::RemarkWords;
use apex_module::Config;
use apex_ports::{CallRef, Ports, ReplyRef};
use apex_texts::{LineFault, TraceFault, push_reply};
use apex_words::push_note;
use std::alloc::{AllocError, Global};

/// The text of an explanation. The lines are the same as in the trace, so the last one need not be UTF-8.
#[derive(Debug, Drop)]
pub struct ExplanationText {
    text: Vec<u8>,
    /// The words after the current line.
    words: String,
}

impl ExplanationText {
    /// An empty text for the lines of a trace of this length. Most lines with their replies are at most twice as long as
    /// the lines.
    pub fn new(alloc: Global, length: usize) -> Result<ExplanationText, AllocError> {
        Ok(ExplanationText {
            text: Vec::with_capacity(alloc, length.saturating_mul(2))?,
            words: String::new(alloc),
        })
    }

    /// The text.
    pub fn into_bytes(self) -> Vec<u8> {
        self.text
    }

    /// Writes a line and the words after it.
    fn push_line(&mut self, line: &[u8]) -> Result<(), AllocError> {
        self.text.extend_from_slice(line)?;
        self.text.extend_from_slice(self.words.as_bytes())?;
        self.text.push(b'\n')?;
        Ok(())
    }
}

impl ExplanationSink for ExplanationText {
    ghost takes = { λ _ _ _. Unit {0} };

    /// Writes `LINE -> REPLY (WORDS)`.
    fn call(&mut self, config: &Config, call: &AnsweredCall<'_>) -> Result<(), AllocError> {
        let words = &mut self.words;
        words.clear();
        words.push_str(" -> ")?;
        push_reply(words, ReplyRef::of(call.reply))?;
        push_note(
            words,
            config,
            call.request.partition,
            CallRef::of(&call.request.call),
            call.row,
        )?;
        self.push_line(call.line)
    }

    /// Writes the line.
    fn line_without_call(&mut self, _number: usize, line: &[u8]) -> Result<(), AllocError> {
        self.words.clear();
        self.push_line(line)
    }

    /// Writes `LINE -> FAULT`.
    fn faulty_line(
        &mut self,
        number: usize,
        line: &[u8],
        fault: LineFault,
    ) -> Result<(), AllocError> {
        let fault = TraceFault::Line {
            line: number,
            fault: fault.number(),
        };
        self.words.clear();
        write!(self.words, " -> {fault}")?;
        self.push_line(line)
    }

    /// Writes how many calls there were, and a line for each remark.
    fn end(&mut self, calls: usize, remarks: &[Remark], ports: &Ports) -> Result<(), AllocError> {
        self.words.clear();
        let calls = Counted {
            count: calls,
            noun: "call",
        };
        writeln!(self.words, "\nafter {calls}")?;
        for remark in remarks {
            writeln!(self.words, "  {}", RemarkWords { remark, ports })?;
        }
        self.text.extend_from_slice(self.words.as_bytes())
    }
}
