//! What a board shows. No reader allocates.
ghost use Rattle.std.specs.Prelude.{◌≡◌, [], ◌++◌, ◌<◌, ◌≤◌, true, false, length, None, slice_get};
ghost use Rattle.std.specs.Option.{option_copied};

use crate::board::Board;
use apex_module::Config;
use apex_ports::{Entry, Ports};
use apex_types::{Message, Mode, Sample, Taken, Validity};
use std::alloc::Allocator;

impl<A: Allocator> Board<A> {
    ghost use Rattle.apex_board.specs.Prelude.{ArePublished, accepted_on, messages_of, taken_on, waiting_on, last_write_on, IdleIsSilent, IsLawful, mode_of, is_created, is_queuing, depth_of};
    ghost use Rattle.apex_ports.specs.Interference.{IsFreeFromInterference};
    ghost use Rattle.apex_ports.specs.Seen.{seen, sampling_port, validity_shown};

    /// The ports alone: the configuration and the log's history.
    pub fn ports(&self) -> &Ports<A>
        ensures config { result.now.config ≡ self.now.config }
        ensures history { result.now.history ≡ self.now.log }
    {
        &self.ports
    }

    /// The configuration.
    pub fn config(&self) -> &Config
        ensures { result.now ≡ self.now.config }
    {
        self.ports.config()
    }

    /// All calls with their replies, oldest first. What they write to sampling channels is published there. Partitions
    /// that share no channel with the others got the replies that they would get without them.
    pub fn log(&self) -> &[Entry]
        ensures log { result.now ≡ self.now.log }
        ensures lawful { IsLawful self.now.config self.now.log }
        ensures idle { IdleIsSilent self.now.log }
        ensures isolated { IsFreeFromInterference self.now.config self.now.log }
        ensures published { ArePublished self.now.config self.now.log self.now.published }
    {
        self.records.log.as_slice()
    }

    /// The messages that channel `c` accepted, oldest first; none for a sampling channel.
    pub fn accepted(&self, c: usize) -> &[Message]
        requires { c < length self.now.config.channels }
        ensures messages { result.now ≡ accepted_on self.now.config c self.now.log }
        ensures sampling { is_queuing self.now.config c ≡ false → result.now ≡ [] }
    {
        match &self.records.journals[c] {
            Some(journal) => journal.accepted.as_slice(),
            None => &[],
        }
    }

    /// The messages that were received from channel `c` or cleared, oldest first; none for a sampling channel.
    pub fn taken(&self, c: usize) -> &[Taken]
        requires { c < length self.now.config.channels }
        ensures messages { result.now ≡ taken_on self.now.config c self.now.log }
        ensures sampling { is_queuing self.now.config c ≡ false → result.now ≡ [] }
    {
        match &self.records.journals[c] {
            Some(journal) => journal.taken.as_slice(),
            None => &[],
        }
    }

    /// The number of messages that wait on channel `c`.
    pub fn waiting_count(&self, c: usize) -> usize
        requires { c < length self.now.config.channels }
        ensures count { result ≡ length (waiting_on self.now.config c self.now.log) }

        // At most the depth wait, and the messages received or cleared, followed by those that wait, are the accepted
        // ones, in order.
        ensures depth { result ≤ depth_of self.now.config c }
        ensures conserved { messages_of (taken_on self.now.config c self.now.log)
            ++ waiting_on self.now.config c self.now.log
            ≡ accepted_on self.now.config c self.now.log }
        ensures sampling { is_queuing self.now.config c ≡ false → result ≡ 0 }
    {
        self.ports.waiting_count(c)
    }

    /// The message at index `i` of those that wait on channel `c`; index 0 has the oldest.
    pub fn waiting(&self, c: usize, i: usize) -> Option<&Message>
        requires { c < length self.now.config.channels }
        ensures message { option_copied result
            ≡ slice_get (waiting_on self.now.config c self.now.log) i }
        ensures sampling { is_queuing self.now.config c ≡ false → result ≡ None }
    {
        if i >= self.waiting_count(c) {
            return None;
        }
        self.accepted(c).get(self.taken(c).len() + i)
    }

    /// The message that channel `c` holds, with the moment it was written; none for a queuing channel, or before the
    /// first write.
    pub fn last_sample(&self, c: usize) -> Option<&Sample>
        requires { c < length self.now.config.channels }
        ensures sample { option_copied result ≡ last_write_on self.now.config c self.now.log }
        ensures queuing { is_queuing self.now.config c ≡ true → result ≡ None }
    {
        self.samples[c].as_ref()
    }

    /// The mode of partition `p`.
    pub fn mode(&self, p: usize) -> Mode
        requires { p < length self.now.config.partitions }
        ensures { result ≡ mode_of p self.now.log }
    {
        self.ports.mode(p)
    }

    /// Whether partition `p` has created the port with this identifier since its last restart.
    pub fn created(&self, p: usize, id: u32) -> bool
        requires { p < length self.now.config.partitions }
        ensures { result ≡ is_created p id self.now.log }
    {
        self.ports.created(p, id)
    }

    /// What the last read of a created sampling port showed since the port's creation; INVALID for any other
    /// identifier.
    pub fn last_validity(&self, p: usize, id: u32) -> Validity
        requires { p < length self.now.config.partitions }
        ensures { let here = seen self.now.config self.now.log p in
            result ≡ validity_shown here id (sampling_port self.now.config here p id) }
    {
        self.ports.last_validity(p, id)
    }

    /// At least this many calls can be answered without allocating.
    pub fn room(&self) -> usize
        ensures { result ≡ self.now.room }
    {
        self.records.room()
    }

    /// The number of entries that the log alone has room for: this many calls that aren't sends are answered without
    /// allocating.
    pub fn log_room(&self) -> usize
        ensures { result ≡ self.now.log_room }
    {
        self.records.log_room()
    }
}
