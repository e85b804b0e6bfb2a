//! What the functions answer beside the standard's return codes, which are 0 to 6.

/// The partition is in IDLE: the call wasn't made.
pub const NOT_MADE: u32 = 7;

/// The handle isn't open.
pub const NOT_OPEN: u32 = 8;

/// The module has no partition of the number.
pub const NO_PARTITION: u32 = 9;

/// More bytes than a message or a line of a log can have (a judge).
pub const TOO_LONG: u32 = 10;

/// The text is no name.
pub const NO_NAME: u32 = 11;

/// The buffer has fewer bytes than what it is for can have: a message, or a name.
pub const SHORT_BUFFER: u32 = 12;

/// The module has no channel of the number.
pub const NO_CHANNEL: u32 = 13;

/// The channel holds no sample.
pub const NO_SAMPLE: u32 = 14;

/// The partition has no port of the identifier.
pub const NO_PORT: u32 = 15;

/// Nothing has the name.
pub const UNKNOWN_NAME: u32 = 16;

/// No message of the index waits on the channel.
pub const NO_MESSAGE: u32 = 17;

/// No service has the number.
pub const NO_SERVICE: u32 = 18;

/// Memory was refused (a reader that takes some).
pub const NO_MEMORY: u32 = 19;

/// A reply that was judged isn't the standard's.
pub const DEPARTS: u32 = 20;

/// No reply of the service has the values.
pub const NO_REPLY: u32 = 21;

/// A line of a log can't be read.
pub const FAULTY_LINE: u32 = 22;

/// A reader has read.
pub const READ: u32 = 0;
