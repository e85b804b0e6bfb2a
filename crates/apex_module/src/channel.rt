//! Channels.
ghost use Rattle.std.specs.Prelude.{◌≡◌};

use apex_types::Name;

/// What a channel carries.
#[derive(Clone, Copy, Debug, PartialEq, Eq)]
pub enum ChannelKind {
    /// Messages in a queue, at most `depth` of them (MAX_NB_MESSAGE).
    Queuing { depth: u32 },
    /// The last message that was written.
    Sampling,
}

impl ChannelKind {
    ghost use Rattle.apex_module.specs.Configuration.{is_queuing_channel, depth_of_kind};

    /// Whether the channel is a queuing channel.
    pub fn is_queuing(self) -> bool
        ensures { result ≡ is_queuing_channel self }
    {
        match self {
            ChannelKind::Queuing { .. } => true,
            ChannelKind::Sampling => false,
        }
    }

    /// The number of messages that can wait on the channel; 0 for a sampling channel.
    pub fn depth(self) -> u32
        ensures { result ≡ depth_of_kind self }
    {
        match self {
            ChannelKind::Queuing { depth } => depth,
            ChannelKind::Sampling => 0,
        }
    }
}

/// A channel. Each of its ports has the channel's size, in bytes, as its MAX_MESSAGE_SIZE.
#[derive(Debug, Drop, PartialEq, Eq)]
pub struct Channel {
    pub name: Name,
    pub size: u32,
    pub kind: ChannelKind,
}

impl Channel {
    /// A copy of the channel.
    pub fn copy(&self) -> Channel
        ensures { result ≡ self.now }
    {
        Channel {
            name: self.name.copy(),
            size: self.size,
            kind: self.kind,
        }
    }
}
