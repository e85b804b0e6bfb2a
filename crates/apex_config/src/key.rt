//! The keys of a configuration.
ghost use Rattle.std.specs.Prelude.{◌≡◌};
ghost use Rattle.apex_config.specs.Values.{key_word};

/// A key of a configuration's document, of a partition, a port or a channel.
#[derive(Clone, Copy, Debug, PartialEq, Eq)]
pub enum Key {
    Partition,
    Port,
    Channel,
    Name,
    Kind,
    Direction,
    Size,
    Depth,
    Refresh,
}

impl Key {
    /// The key as a word.
    pub fn word(self) -> &'static str
        ensures { result.now ≡ key_word self }
    {
        match self {
            Key::Partition => "partition",
            Key::Port => "port",
            Key::Channel => "channel",
            Key::Name => "name",
            Key::Kind => "kind",
            Key::Direction => "direction",
            Key::Size => "size",
            Key::Depth => "depth",
            Key::Refresh => "refresh",
        }
    }
}
