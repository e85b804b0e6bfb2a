//! Tests from outside: what the program does with files and outputs that replace the system's, the text of a run under
//! gates, the line of a search, and public calls for a configuration or a board that no program makes.
mod board_reports;
mod outputs;
mod program;
mod progress;
mod run_texts;
