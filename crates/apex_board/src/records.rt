//! What a board records of its calls: the log, and the journals that follow from it.
ghost use Rattle.std.specs.Prelude.{◌≡◌, ℕ, ◌+◌, ◌<◌, ◌≤◌, [], ◌∷◌, ◌++◌, true, length, None, IfOk, OnOk, IsOk};
ghost use Rattle.apex_board.specs.Prelude.{vec_len, vec_capacity, message_received, is_send, IsSound};

use crate::asked::AskedPort;
use crate::journal::{Journal, accepted_message, cleared_channel, new_journal, received_message};
use apex_module::Config;
use apex_ports::Entry;
use apex_types::{Call, Taken};
use std::alloc::{AllocError, Allocator};

/// The log of all calls, and a journal for each queuing channel.
#[derive(Drop)]
pub(crate) struct Records<A: Allocator> {
    pub(crate) log: Vec<Entry, A>,
    pub(crate) journals: Vec<Option<Journal<A>>, A>,
}

impl<A: Allocator + Copy> Records<A> {
    ghost use Rattle.apex_board.specs.Recorded.{AreRecords};

    /// The records before the first call.
    pub(crate) fn new(alloc: A, config: &Config) -> Result<Records<A>, AllocError>
        ensures log { IfOk result (λ records. records.log.items ≡ []) }
        ensures recorded { IfOk result (λ records. AreRecords config.now records) }
    {
        let mut journals = Vec::with_capacity(alloc, config.channels())?;
        for c in 0..config.channels() {
            journals.push(new_journal(alloc, config, c))?;
        }
        Ok(Records {
            log: Vec::new(alloc),
            journals,
        })
    }
}

impl<A: Allocator> Records<A> {
    ghost use Rattle.apex_board.specs.Asked.{asked_port, IsAskedBy, IsBelow};
    ghost use Rattle.apex_board.specs.Journals.{AreJournals};
    ghost use Rattle.apex_board.specs.Recorded.{AreRecords};
    ghost use Rattle.apex_board.specs.Room.{HasRoomFor, HasRoom, HasRoomAt, KeepsRoom, KeepsAllButOne, room_of, spare};

    /// The number of calls that can be served without allocating.
    pub(crate) fn room(&self) -> usize
        ensures { result ≡ room_of self.now }
    {
        let mut room = self.log_room();
        for journal in &self.journals {
            if let Some(journal) = journal {
                room = room.min(journal.accepted.capacity() - journal.accepted.len());
            }
        }
        room
    }

    /// The number of entries that the log takes without allocating.
    pub(crate) fn log_room(&self) -> usize
        ensures { result ≡ spare self.now.log }
    {
        self.log.capacity() - self.log.len()
    }

    /// Makes room for this many more calls.
    pub(crate) fn reserve(&mut self, config: &Config, calls: usize) -> Result<(), AllocError>
        requires sound { IsSound config.now self.old.log.items }
        requires recorded { AreRecords config.now self.old }
        ensures log { self.new.log.items ≡ self.old.log.items }
        ensures recorded { AreRecords config.now self.new }
        ensures entries { OnOk result (vec_len self.new.log + calls ≤ vec_capacity self.new.log) }
        ensures room { OnOk result (HasRoom calls self.new.journals.items) }
        ensures len { vec_len self.new.log ≡ vec_len self.old.log }
        ensures capacity { vec_capacity self.old.log ≤ vec_capacity self.new.log }
        ensures grows { KeepsRoom self.old.journals.items self.new.journals.items }
        ensures succeeds { vec_len self.old.log + calls ≤ vec_capacity self.old.log →
            HasRoom calls self.old.journals.items → IsOk result }
    {
        self.log.reserve(calls)?;
        for c in 0..config.channels() {
            self.reserve_channel(config, c, calls)?;
        }
        Ok(())
    }

    // Makes room for this many more messages on a channel, if it has a journal.
    fn reserve_channel(
        &mut self,
        config: &Config,
        channel: usize,
        messages: usize,
    ) -> Result<(), AllocError>
        requires channel { channel < length config.now.channels }
        requires sound { IsSound config.now self.old.log.items }
        requires recorded { AreRecords config.now self.old }
        ensures recorded { AreRecords config.now self.new }
        ensures log { self.new.log ≡ self.old.log }
        ensures grows { KeepsRoom self.old.journals.items self.new.journals.items }
        ensures room { OnOk result (HasRoomAt messages channel self.new.journals.items) }
        ensures succeeds { HasRoomAt messages channel self.old.journals.items → IsOk result }
    {
        match &mut self.journals[channel] {
            Some(journal) => journal.make_room(messages),
            None => Ok(()),
        }
    }

    /// Makes the room that a call may need: for its entry, and for the message that it sends through the port.
    pub(crate) fn make_room(
        &mut self,
        config: &Config,
        port: Option<AskedPort>,
        call: &Call,
    ) -> Result<(), AllocError>
        requires channel { IsBelow (length config.now.channels) port }
        requires sound { IsSound config.now self.old.log.items }
        requires recorded { AreRecords config.now self.old }
        ensures log { self.new.log.items ≡ self.old.log.items }
        ensures recorded { AreRecords config.now self.new }
        ensures entry { OnOk result (vec_len self.new.log < vec_capacity self.new.log) }
        ensures fits { OnOk result ((partition : ℕ) →
            port ≡ asked_port config.now partition call.now →
            HasRoomFor config.now partition call.now self.new.journals.items) }
        ensures len { vec_len self.new.log ≡ vec_len self.old.log }
        ensures capacity { vec_capacity self.old.log ≤ vec_capacity self.new.log }
        ensures room { KeepsRoom self.old.journals.items self.new.journals.items }
        ensures succeeds { vec_len self.old.log < vec_capacity self.old.log →
            (is_send call.now ≡ true → HasRoom 1 self.old.journals.items) → IsOk result }
    {
        self.log.reserve(1)?;
        match (call, port) {
            (Call::SendQueuing { .. }, Some(port)) => {
                self.reserve_channel(config, port.channel, 1)
            }
            _ => Ok(()),
        }
    }

    /// Records an entry for which there is room. The port is the one that its call uses.
    pub(crate) fn push(&mut self, config: &Config, port: Option<AskedPort>, entry: Entry)
        requires port { IsAskedBy config.now entry port }
        requires channel { IsBelow (length config.now.channels) port }
        requires sound { IsSound config.now (self.old.log.items ++ entry ∷ []) }
        requires recorded { AreRecords config.now self.old }
        requires free { vec_len self.old.log < vec_capacity self.old.log }
        requires fits { HasRoomFor config.now entry.partition entry.call self.old.journals.items }
        ensures log { self.new.log.items ≡ self.old.log.items ++ entry ∷ [] }
        ensures recorded { AreRecords config.now self.new }
        ensures len { vec_len self.new.log ≡ vec_len self.old.log + 1 }
        ensures capacity { vec_capacity self.new.log ≡ vec_capacity self.old.log }
        ensures room { KeepsAllButOne self.old.journals.items self.new.journals.items }
    {
        self.push_accepted(config, port, &entry);
        self.push_taken(config, port, &entry);
        self.log.push_reserved(entry);
    }

    // Puts the message that an entry sent into its channel's journal.
    fn push_accepted(&mut self, config: &Config, port: Option<AskedPort>, entry: &Entry)
        requires port { IsAskedBy config.now entry.now port }
        requires channel { IsBelow (length config.now.channels) port }
        requires sound { IsSound config.now (self.old.log.items ++ entry.now ∷ []) }
        requires recorded { AreRecords config.now self.old }
        requires fits { HasRoomFor config.now entry.now.partition entry.now.call
            self.old.journals.items }
        ensures recorded { let log = self.old.log.items in
            AreJournals config.now (log ++ entry.now ∷ []) log self.new.journals.items }
        ensures log { self.new.log ≡ self.old.log }
        ensures room { KeepsAllButOne self.old.journals.items self.new.journals.items }
    {
        let Some((channel, message)) = accepted_message(port, entry) else {
            return;
        };
        match &mut self.journals[channel] {
            Some(journal) => journal.accepted.push_reserved(message.copy()),
            None => unreachable!(),
        }
    }

    // Puts what an entry took from a channel into the channel's journal.
    fn push_taken(&mut self, config: &Config, port: Option<AskedPort>, entry: &Entry)
        requires port { IsAskedBy config.now entry.now port }
        requires channel { IsBelow (length config.now.channels) port }
        requires sound { IsSound config.now (self.old.log.items ++ entry.now ∷ []) }
        requires recorded { let log = self.old.log.items in
            AreJournals config.now (log ++ entry.now ∷ []) log self.old.journals.items }
        ensures recorded { let log = self.old.log.items ++ entry.now ∷ [] in
            AreJournals config.now log log self.new.journals.items }
        ensures log { self.new.log ≡ self.old.log }
        ensures room { KeepsRoom self.old.journals.items self.new.journals.items }
    {
        let Some((channel, message)) = received_message(port, entry) else {
            return self.push_cleared(config, port, entry);
        };
        match &mut self.journals[channel] {
            Some(journal) => journal.taken.push_reserved(Taken {
                message: message.copy(),
                cleared: false,
            }),
            None => unreachable!(),
        }
    }

    // Puts what an entry cleared into its channel's journal. The entry received nothing.
    fn push_cleared(&mut self, config: &Config, port: Option<AskedPort>, entry: &Entry)
        requires port { IsAskedBy config.now entry.now port }
        requires channel { IsBelow (length config.now.channels) port }
        requires sound { IsSound config.now (self.old.log.items ++ entry.now ∷ []) }
        requires recorded { let log = self.old.log.items in
            AreJournals config.now (log ++ entry.now ∷ []) log self.old.journals.items }
        requires received { (c : ℕ) → message_received config.now c entry.now ≡ None }
        ensures recorded { let log = self.old.log.items ++ entry.now ∷ [] in
            AreJournals config.now log log self.new.journals.items }
        ensures log { self.new.log ≡ self.old.log }
        ensures room { KeepsRoom self.old.journals.items self.new.journals.items }
    {
        let Some(channel) = cleared_channel(port, entry) else {
            return;
        };
        if let Some(journal) = &mut self.journals[channel] {
            journal.clear();
        }
    }
}
