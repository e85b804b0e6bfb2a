//! Refused memory, boards and ports of modules at the limits, long histories and lists, and observers. The worked
//! examples of all services are replays, and are among the tests of the texts.
mod boards;
mod clears;
mod closed;
mod limits;
mod module;
mod observers;
mod records;
mod refused_lists;
mod refused_memory;
mod rounds;
mod same;
mod services;
mod texts;
mod versions;
