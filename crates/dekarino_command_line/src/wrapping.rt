//! Text in lines that are no longer than a terminal is wide.
use std::alloc::{AllocError, Global};

/// The text of help in lines of at most this many characters. Paragraphs and the words about an option are wrapped; an
/// example, and a word that is longer, stays as it is.
pub(crate) fn wrapped(alloc: Global, text: &str, columns: usize) -> Result<String, AllocError> {
    let mut page = Page {
        text: String::new(alloc),
        columns,
        column: 0,
    };
    for line in text.lines() {
        if line.is_empty() || line.starts_with(' ') {
            page.end_line()?;
            page.push_indented(line)?;
        } else {
            page.push_words(line, 0)?;
        }
    }
    page.end_line()?;
    Ok(page.text)
}

/// A text that grows by words.
#[derive(Drop)]
struct Page {
    text: String,
    columns: usize,
    /// How many characters the last line has.
    column: usize,
}

impl Page {
    /// Adds words to the last line, and to further lines with this indent if they don't fit there.
    fn push_words(&mut self, words: &str, indent: usize) -> Result<(), AllocError> {
        for word in words.split_whitespace() {
            let end = self.column.saturating_add(1).saturating_add(word.len());
            if self.column > indent && end > self.columns {
                self.end_line()?;
                self.push_blanks(indent)?;
            } else if self.column > indent {
                self.push_blanks(1)?;
            }
            self.text.push_str(word)?;
            self.column = self.column.saturating_add(word.len());
        }
        Ok(())
    }

    /// Adds a line that begins with blanks. The words about an option are aligned.
    fn push_indented(&mut self, line: &str) -> Result<(), AllocError> {
        match about(line) {
            Some((option, words)) if line.len() > self.columns => {
                self.text.push_str(option)?;
                self.column = option.len();
                self.push_words(words, option.len())?;
                self.end_line()
            }
            _ => writeln!(self.text, "{line}"),
        }
    }

    fn push_blanks(&mut self, count: usize) -> Result<(), AllocError> {
        for _ in 0..count {
            self.text.push(' ')?;
        }
        self.column = self.column.saturating_add(count);
        Ok(())
    }

    /// Ends the last line, if it has a character.
    fn end_line(&mut self) -> Result<(), AllocError> {
        if self.column > 0 {
            self.text.push('\n')?;
            self.column = 0;
        }
        Ok(())
    }
}

/// An option up to the words about it, and these words, which follow the first two blanks after its first word.
fn about(line: &str) -> Option<(&str, &str)> {
    let option = line.trim_start();
    let gap = option.find("  ")?;
    let words = option.get(gap..)?.trim_start();
    Some((line.get(..line.len().saturating_sub(words.len()))?, words))
}
