//! Tests of runs with real threads, of public calls that no program reaches, and of the program's edges.
mod readers;
mod tasks;
mod texts;
mod workers;
