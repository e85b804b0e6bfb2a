//! Scripts, packed.
ghost use Rattle.std.specs.Prelude.{◌≡◌, ◌↔◌, ◌+◌, ◌^◌, ◌<◌, ◌≤◌, ◌∷◌, ◌++◌, ℕ, List, [], length, slice_get, None, Some, MatchOption, IsTrue, IfOk, IfSome, OnOk, OnErr};
ghost use Rattle.std.specs.Bool.{OnTrue};
ghost use Rattle.apex_ports.specs.Noted.{call_by};
ghost use Rattle.apex_threads.specs.PackedCalls.{call_in, IsPackedCall};
ghost use Rattle.apex_ports.specs.Services.{length_sent};

use crate::stored::{message_at, push_message, push_name};
use apex_ports::{CallRef, Script, StoredMessages};
use apex_types::{Call, MESSAGE_LIMIT, Message, Moment, Name};
use std::alloc::{AllocError, Allocator, Global};
use std::marker::Model;

/// A call whose message or name is stored elsewhere, at an index.
#[derive(Clone, Copy, Debug)]
pub(crate) enum PackedCall {
    CreateSampling {
        name: usize,
        size: u32,
        direction: u32,
        refresh: u64,
    },
    WriteSampling {
        id: u32,
        message: usize,
    },
    ReadSampling {
        id: u32,
    },
    SamplingId {
        name: usize,
    },
    SamplingStatus {
        id: u32,
    },
    CreateQueuing {
        name: usize,
        size: u32,
        depth: u32,
        direction: u32,
        discipline: u32,
    },
    SendQueuing {
        id: u32,
        message: usize,
    },
    ReceiveQueuing {
        id: u32,
    },
    QueuingId {
        name: usize,
    },
    QueuingStatus {
        id: u32,
    },
    ClearQueuing {
        id: u32,
    },
    SetMode {
        mode: u32,
    },
}

/// The calls of one partition, in order, each with its moment. A message takes only as many bytes as it has. A contract
/// sees the calls as a list.
#[derive(Debug, Drop)]
pub struct PackedScript<A: Allocator = Global> {
    calls: Vec<(Moment, PackedCall), A>,
    names: Vec<Name, A>,
    messages: StoredMessages<A>,
}

impl<A: Allocator> Model for PackedScript<A> {
    ghost use Rattle.std.specs.Prelude.{List, length, map};
    ghost use Rattle.apex_types.specs.declared.call.Call.{Call};
    ghost use Rattle.apex_types.specs.declared.moment.Moment.{Moment};
    ghost use Rattle.apex_threads.specs.PackedCalls.{timed_in, ArePackedCalls};

    ghost Value = { List (Moment × Call) };

    ghost view = { λ packed. map
        (timed_in packed.messages packed.names.items) packed.calls.items };

    ghost invariant = { λ packed. ArePackedCalls
        (length packed.messages) (length packed.names.items) packed.calls.items };
}

impl<A: Allocator + Copy> PackedScript<A> {
    /// No calls.
    pub fn new(alloc: A) -> PackedScript<A>
        ensures { result ≡ [] }
    {
        PackedScript {
            calls: Vec::new(alloc),
            names: Vec::new(alloc),
            messages: StoredMessages::new(alloc),
        }
    }

    /// The calls of a script.
    pub fn pack(alloc: A, script: &Script) -> Result<PackedScript<A>, AllocError>
        ensures { IfOk result (λ packed. packed ≡ script.now) }
    {
        let mut packed = PackedScript::new(alloc);
        for (at, call) in &script.calls {
            packed.push(*at, call)?;
        }
        Ok(packed)
    }
}

impl<A: Allocator> PackedScript<A> {
    /// The number of calls.
    pub fn len(&self) -> usize
        ensures { result ≡ length self.now }
    {
        self.calls.len()
    }

    /// Adds a call. If memory runs out, the calls are unchanged.
    pub fn push(&mut self, at: Moment, call: &Call) -> Result<(), AllocError>
        ensures pushed { OnOk result (self.new ≡ self.old ++ (at, call.now) ∷ []) }
        ensures refused { OnErr result (self.new ≡ self.old) }
    {
        self.calls.reserve(1)?;
        let packed = pack_call(&mut self.messages, &mut self.names, call)?;
        self.calls.push_reserved((at, packed));
        Ok(())
    }

    /// The call at an index, with its moment; index 0 has the first. It lends the call's message or name.
    pub fn get(&self, index: usize) -> Option<(Moment, CallRef<'_>)>
        ensures call { MatchOption result (slice_get self.now index ≡ None)
            (λ timed. slice_get self.now index ≡ Some (timed.0, call_by timed.1)) }
        ensures short { IfSome result (λ timed. length_sent (call_by timed.1) ≤ MESSAGE_LIMIT) }
        ensures within { IfSome result (λ _. index + 1 < 2 ^ 64) }
    {
        match self.calls.get(index) {
            Some((at, packed)) => {
                let call = lend_call(&self.messages, self.names.as_slice(), *packed);
                Some((*at, call))
            }
            None => None,
        }
    }

    /// Whether the call at an index, with its moment, is this one.
    pub fn is_at(&self, index: usize, at: Moment, call: &Call) -> bool
        ensures call { IsTrue result ↔ (slice_get self.now index ≡ Some (at, call.now)) }
        ensures within { OnTrue result (index + 1 < 2 ^ 64) }
    {
        match self.get(index) {
            Some((made, lent)) => is_same_moment(made, at) && is_same_call(lent, call),
            None => false,
        }
    }

    /// The calls as a script.
    pub fn unpack(&self, alloc: Global) -> Result<Script, AllocError>
        ensures { IfOk result (λ script. script ≡ self.now) }
    {
        let mut calls = Vec::with_capacity(alloc, self.len())?;
        for index in 0..self.len() {
            match self.get(index) {
                Some((at, call)) => calls.push_reserved((at, call.to_call())),
                None => unreachable!(),
            }
        }
        Ok(Script { calls })
    }
}

/// The calls of each script.
pub fn pack_all<A: Allocator + Copy>(
    alloc: A,
    scripts: &[Script],
) -> Result<Vec<PackedScript<A>, A>, AllocError>
    ensures { IfOk result (λ packed. packed.items ≡ scripts.now) }
{
    let mut all = Vec::with_capacity(alloc, scripts.len())?;
    for script in scripts {
        let packed = PackedScript::pack(alloc, script)?;
        all.push_reserved(packed);
    }
    Ok(all)
}

/// Each packed script as a script.
pub fn unpack_all<A: Allocator>(
    alloc: Global,
    packed: &[PackedScript<A>],
) -> Result<Vec<Script>, AllocError>
    ensures { IfOk result (λ scripts. scripts.items ≡ packed.now) }
{
    let mut all = Vec::with_capacity(alloc, packed.len())?;
    for calls in packed {
        let script = calls.unpack(alloc)?;
        all.push_reserved(script);
    }
    Ok(all)
}

/// Whether the two moments are equal.
fn is_same_moment(at: Moment, other: Moment) -> bool
    ensures { IsTrue result ↔ (at ≡ other) }
{
    at == other
}

/// Whether the two calls are equal. Messages and names are compared in place.
fn is_same_call(lent: CallRef<'_>, call: &Call) -> bool
    ensures { IsTrue result ↔ (call_by lent.entry ≡ call.now) }
{
    match (lent, call) {
        (
            CallRef::CreateSampling {
                name,
                size,
                direction,
                refresh,
            },
            Call::CreateSampling {
                name: other_name,
                size: other_size,
                direction: other_direction,
                refresh: other_refresh,
            },
        ) => {
            name == other_name
                && size == *other_size
                && direction == *other_direction
                && refresh == *other_refresh
        }
        (
            CallRef::WriteSampling { id, message },
            Call::WriteSampling {
                id: other,
                message: other_message,
            },
        ) => id == *other && message == other_message.bytes(),
        (CallRef::ReadSampling { id }, Call::ReadSampling { id: other }) => id == *other,
        (CallRef::SamplingId { name }, Call::SamplingId { name: other }) => name == other,
        (CallRef::SamplingStatus { id }, Call::SamplingStatus { id: other }) => id == *other,
        (
            CallRef::CreateQueuing {
                name,
                size,
                depth,
                direction,
                discipline,
            },
            Call::CreateQueuing {
                name: other_name,
                size: other_size,
                depth: other_depth,
                direction: other_direction,
                discipline: other_discipline,
            },
        ) => {
            name == other_name
                && size == *other_size
                && depth == *other_depth
                && direction == *other_direction
                && discipline == *other_discipline
        }
        (
            CallRef::SendQueuing { id, message },
            Call::SendQueuing {
                id: other,
                message: other_message,
            },
        ) => id == *other && message == other_message.bytes(),
        (CallRef::ReceiveQueuing { id }, Call::ReceiveQueuing { id: other }) => id == *other,
        (CallRef::QueuingId { name }, Call::QueuingId { name: other }) => name == other,
        (CallRef::QueuingStatus { id }, Call::QueuingStatus { id: other }) => id == *other,
        (CallRef::ClearQueuing { id }, Call::ClearQueuing { id: other }) => id == *other,
        (CallRef::SetMode { mode }, Call::SetMode { mode: other }) => mode == *other,
        _ => false,
    }
}

/// Packs a call: its message is added to the messages, and its name to the names.
fn pack_call<A: Allocator>(
    messages: &mut StoredMessages<A>,
    names: &mut Vec<Name, A>,
    call: &Call,
) -> Result<PackedCall, AllocError>
    ensures packed { IfOk result
        (λ packed. call_in messages.new names.new.items packed ≡ call.now) }
    ensures within { IfOk result (λ packed. IsPackedCall
        (length messages.new) (length names.new.items) packed) }
    ensures messages { (more : List (List ℕ)) × (messages.new ≡ messages.old ++ more) }
    ensures names { (more : List (List ℕ)) × (names.new.items ≡ names.old.items ++ more) }
{
    Ok(match call {
        Call::CreateSampling {
            name,
            size,
            direction,
            refresh,
        } => PackedCall::CreateSampling {
            name: push_name(names, name)?,
            size: *size,
            direction: *direction,
            refresh: *refresh,
        },
        Call::WriteSampling { id, message } => PackedCall::WriteSampling {
            id: *id,
            message: push_message(messages, message)?,
        },
        Call::ReadSampling { id } => PackedCall::ReadSampling { id: *id },
        Call::SamplingId { name } => PackedCall::SamplingId {
            name: push_name(names, name)?,
        },
        Call::SamplingStatus { id } => PackedCall::SamplingStatus { id: *id },
        Call::CreateQueuing {
            name,
            size,
            depth,
            direction,
            discipline,
        } => PackedCall::CreateQueuing {
            name: push_name(names, name)?,
            size: *size,
            depth: *depth,
            direction: *direction,
            discipline: *discipline,
        },
        Call::SendQueuing { id, message } => PackedCall::SendQueuing {
            id: *id,
            message: push_message(messages, message)?,
        },
        Call::ReceiveQueuing { id } => PackedCall::ReceiveQueuing { id: *id },
        Call::QueuingId { name } => PackedCall::QueuingId {
            name: push_name(names, name)?,
        },
        Call::QueuingStatus { id } => PackedCall::QueuingStatus { id: *id },
        Call::ClearQueuing { id } => PackedCall::ClearQueuing { id: *id },
        Call::SetMode { mode } => PackedCall::SetMode { mode: *mode },
    })
}

/// The call, with its message from the messages, or its name from the names.
fn lend_call<'a, A: Allocator>(
    messages: &'a StoredMessages<A>,
    names: &'a [Name],
    packed: PackedCall,
) -> CallRef<'a>
    requires { IsPackedCall (length messages.now) (length names.now) packed }
    ensures call { call_by result ≡ call_in messages.now names.now packed }
    ensures short { length_sent (call_by result) ≤ MESSAGE_LIMIT }
{
    match packed {
        PackedCall::CreateSampling {
            name,
            size,
            direction,
            refresh,
        } => CallRef::CreateSampling {
            name: &names[name],
            size,
            direction,
            refresh,
        },
        PackedCall::WriteSampling { id, message } => CallRef::WriteSampling {
            id,
            message: message_at(messages, message),
        },
        PackedCall::ReadSampling { id } => CallRef::ReadSampling { id },
        PackedCall::SamplingId { name } => CallRef::SamplingId { name: &names[name] },
        PackedCall::SamplingStatus { id } => CallRef::SamplingStatus { id },
        PackedCall::CreateQueuing {
            name,
            size,
            depth,
            direction,
            discipline,
        } => CallRef::CreateQueuing {
            name: &names[name],
            size,
            depth,
            direction,
            discipline,
        },
        PackedCall::SendQueuing { id, message } => CallRef::SendQueuing {
            id,
            message: message_at(messages, message),
        },
        PackedCall::ReceiveQueuing { id } => CallRef::ReceiveQueuing { id },
        PackedCall::QueuingId { name } => CallRef::QueuingId { name: &names[name] },
        PackedCall::QueuingStatus { id } => CallRef::QueuingStatus { id },
        PackedCall::ClearQueuing { id } => CallRef::ClearQueuing { id },
        PackedCall::SetMode { mode } => CallRef::SetMode { mode },
    }
}
