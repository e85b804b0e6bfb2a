//! The arguments of a call, from the words of a line.
ghost use Rattle.std.specs.Prelude.{◌≡◌, [], ◌∷◌};
ghost use Rattle.apex_texts.specs.Text.{words_of, number_up_to};
ghost use Rattle.apex_texts.specs.Service.{service_named};
ghost use Rattle.apex_texts.specs.Arguments.{Gives, or_fault, exactly, id_in, name_in, message_in, id_and_message, word_at, call_with, moment_of};

use crate::line_fault::LineFault;
use crate::service::Service;
use crate::text::{next_word, number_up_to};
use apex_types::{Call, Message, Moment, Name};
use std::str;

/// The greatest moment and the longest refresh period in a text, in nanoseconds.
pub const MOMENT_LIMIT: u64 = 9_223_372_036_854_775_807;

/// The greatest value of all other numbers in a text.
pub const NUMBER_LIMIT: u64 = 4_294_967_295;

/// The moment that a word gives.
pub fn moment_of(word: &[u8]) -> Result<Moment, LineFault>
    ensures { result ≡ moment_of word.now }
{
    let nanoseconds = number_up_to(MOMENT_LIMIT, word).ok_or(LineFault::Moment)?;
    Ok(Moment(nanoseconds))
}

/// The name that a word gives.
pub fn name_in(word: &[u8]) -> Option<Name>
    ensures { result ≡ name_in word.now }
{
    let Ok(text) = str::from_utf8(word) else {
        return None;
    };
    Name::read(text).ok()
}

/// The first of the words, and the words after it.
pub fn word_at(words: &[u8]) -> Result<(&[u8], &[u8]), LineFault>
    ensures { Gives (λ x. (x.0.now, words_of x.1.now)) result (word_at (words_of words.now)) }
{
    next_word(words).ok_or(LineFault::TooFewWords)
}

fn one_word(words: &[u8]) -> Result<&[u8], LineFault>
    ensures { Gives (λ x. x.now ∷ []) result (exactly 1 (words_of words.now)) }
{
    let (word, rest) = word_at(words)?;
    match next_word(rest) {
        None => Ok(word),
        Some(_) => Err(LineFault::TooManyWords),
    }
}

fn two_words(words: &[u8]) -> Result<(&[u8], &[u8]), LineFault>
    ensures { Gives (λ x. x.0.now ∷ x.1.now ∷ []) result (exactly 2 (words_of words.now)) }
{
    let (first, rest) = word_at(words)?;
    Ok((first, one_word(rest)?))
}

fn four_words(words: &[u8]) -> Result<(&[u8], &[u8], &[u8], &[u8]), LineFault>
    ensures { Gives (λ x. x.0.now ∷ x.1.now ∷ x.2.now ∷ x.3.now ∷ [])
        result (exactly 4 (words_of words.now)) }
{
    let (first, rest) = word_at(words)?;
    let (second, rest) = word_at(rest)?;
    let (third, fourth) = two_words(rest)?;
    Ok((first, second, third, fourth))
}

fn five_words(words: &[u8]) -> Result<(&[u8], &[u8], &[u8], &[u8], &[u8]), LineFault>
    ensures { Gives (λ x. x.0.now ∷ x.1.now ∷ x.2.now ∷ x.3.now ∷ x.4.now ∷ [])
        result (exactly 5 (words_of words.now)) }
{
    let (first, rest) = word_at(words)?;
    let (second, third, fourth, fifth) = four_words(rest)?;
    Ok((first, second, third, fourth, fifth))
}

fn number_of(word: &[u8]) -> Result<u32, LineFault>
    ensures { result ≡ or_fault LineFault.Number (number_up_to NUMBER_LIMIT word.now) }
{
    let number = number_up_to(NUMBER_LIMIT, word).ok_or(LineFault::Number)?;
    Ok(number as u32)
}

fn period_of(word: &[u8]) -> Result<u64, LineFault>
    ensures { result ≡ or_fault LineFault.Number (number_up_to MOMENT_LIMIT word.now) }
{
    number_up_to(MOMENT_LIMIT, word).ok_or(LineFault::Number)
}

fn name_of(word: &[u8]) -> Result<Name, LineFault>
    ensures { result ≡ or_fault LineFault.Name (name_in word.now) }
{
    name_in(word).ok_or(LineFault::Name)
}

// Reads the message of a word into `message`.
pub(crate) fn read_message(word: &[u8], message: &mut Message) -> Result<(), LineFault>
    ensures { Gives (λ _. message.new) result
        (or_fault LineFault.Message (message_in word.now)) }
{
    message.read_hex_bytes(word).map_err(|_| LineFault::Message)
}

/// The service that a call word names.
pub fn service_at(word: &[u8]) -> Result<Service, LineFault>
    ensures { result ≡ or_fault LineFault.UnknownCall (service_named word.now) }
{
    Service::named(word).ok_or(LineFault::UnknownCall)
}

/// Reads the call to a service, with the arguments in these words, into `call`. It goes through the words once. After a
/// fault `call` is unspecified.
// A function clears the stack room of its values when it begins, including those of functions inlined into it. So no
// function that makes a call with a message or a name is inlined.
#[tactic(auto, unfolding(crate::specs::Arguments::call_with, crate::specs::Arguments::call_at))]
pub fn read_call(service: Service, words: &[u8], call: &mut Call) -> Result<(), LineFault>
    ensures { Gives (λ _. call.new) result (call_with service (words_of words.now)) }
{
    match service {
        Service::CreateSampling => read_create_sampling(words, call)?,
        Service::CreateQueuing => read_create_queuing(words, call)?,
        Service::WriteSampling => read_write(words, call)?,
        Service::SendQueuing => read_send(words, call)?,
        Service::ReadSampling => *call = Call::ReadSampling { id: id_in(words)? },
        Service::SamplingStatus => *call = Call::SamplingStatus { id: id_in(words)? },
        Service::ReceiveQueuing => read_receive(words, call)?,
        Service::QueuingStatus => *call = Call::QueuingStatus { id: id_in(words)? },
        Service::ClearQueuing => *call = Call::ClearQueuing { id: id_in(words)? },
        Service::SamplingId => read_sampling_id(words, call)?,
        Service::QueuingId => read_queuing_id(words, call)?,
        Service::SetMode => {
            *call = Call::SetMode {
                mode: number_of(one_word(words)?)?,
            };
        }
    }
    Ok(())
}

fn id_in(words: &[u8]) -> Result<u32, LineFault>
    ensures { result ≡ id_in (words_of words.now) }
{
    number_of(one_word(words)?)
}

// Returns the identifier in the first of two words; the message in the second goes to `message`.
#[tactic(auto, unfolding(crate::specs::Arguments::id_and_message))]
fn id_and_message(words: &[u8], message: &mut Message) -> Result<u32, LineFault>
    ensures { Gives (λ id. (id, message.new)) result (id_and_message (words_of words.now)) }
{
    let (id, word) = two_words(words)?;
    let id = number_of(id)?;
    read_message(word, message)?;
    Ok(id)
}

#[inline(never)]
#[tactic(auto, unfolding(crate::specs::Arguments::call_with, crate::specs::Arguments::call_at, crate::specs::Arguments::id_and_message))]
fn read_write(words: &[u8], call: &mut Call) -> Result<(), LineFault>
    ensures { Gives (λ _. call.new) result
        (call_with Service.WriteSampling (words_of words.now)) }
{
    if !matches!(call, Call::WriteSampling { .. }) {
        let message = Message::empty();
        *call = Call::WriteSampling { id: 0, message };
    }
    if let Call::WriteSampling { id, message } = call {
        *id = id_and_message(words, message)?;
    }
    Ok(())
}

#[inline(never)]
#[tactic(auto, unfolding(crate::specs::Arguments::call_with, crate::specs::Arguments::call_at, crate::specs::Arguments::id_and_message))]
fn read_send(words: &[u8], call: &mut Call) -> Result<(), LineFault>
    ensures { Gives (λ _. call.new) result (call_with Service.SendQueuing (words_of words.now)) }
{
    if !matches!(call, Call::SendQueuing { .. }) {
        let message = Message::empty();
        *call = Call::SendQueuing { id: 0, message };
    }
    if let Call::SendQueuing { id, message } = call {
        *id = id_and_message(words, message)?;
    }
    Ok(())
}

#[tactic(auto, unfolding(crate::specs::Arguments::call_with, crate::specs::Arguments::call_at))]
fn read_receive(words: &[u8], call: &mut Call) -> Result<(), LineFault>
    ensures { Gives (λ _. call.new) result
        (call_with Service.ReceiveQueuing (words_of words.now)) }
{
    let number = id_in(words)?;
    match call {
        Call::ReceiveQueuing { id } => *id = number,
        _ => *call = Call::ReceiveQueuing { id: number },
    }
    Ok(())
}

#[inline(never)]
#[tactic(auto, unfolding(crate::specs::Arguments::call_with, crate::specs::Arguments::call_at))]
fn read_create_sampling(words: &[u8], call: &mut Call) -> Result<(), LineFault>
    ensures { Gives (λ _. call.new) result
        (call_with Service.CreateSampling (words_of words.now)) }
{
    let (name, size, direction, refresh) = four_words(words)?;
    *call = Call::CreateSampling {
        name: name_of(name)?,
        size: number_of(size)?,
        direction: number_of(direction)?,
        refresh: period_of(refresh)?,
    };
    Ok(())
}

#[inline(never)]
#[tactic(auto, unfolding(crate::specs::Arguments::call_with, crate::specs::Arguments::call_at))]
fn read_create_queuing(words: &[u8], call: &mut Call) -> Result<(), LineFault>
    ensures { Gives (λ _. call.new) result
        (call_with Service.CreateQueuing (words_of words.now)) }
{
    let (name, size, depth, direction, discipline) = five_words(words)?;
    *call = Call::CreateQueuing {
        name: name_of(name)?,
        size: number_of(size)?,
        depth: number_of(depth)?,
        direction: number_of(direction)?,
        discipline: number_of(discipline)?,
    };
    Ok(())
}

#[inline(never)]
#[tactic(auto, unfolding(crate::specs::Arguments::call_with, crate::specs::Arguments::call_at))]
fn read_sampling_id(words: &[u8], call: &mut Call) -> Result<(), LineFault>
    ensures { Gives (λ _. call.new) result (call_with Service.SamplingId (words_of words.now)) }
{
    let name = name_of(one_word(words)?)?;
    *call = Call::SamplingId { name };
    Ok(())
}

#[inline(never)]
#[tactic(auto, unfolding(crate::specs::Arguments::call_with, crate::specs::Arguments::call_at))]
fn read_queuing_id(words: &[u8], call: &mut Call) -> Result<(), LineFault>
    ensures { Gives (λ _. call.new) result (call_with Service.QueuingId (words_of words.now)) }
{
    let name = name_of(one_word(words)?)?;
    *call = Call::QueuingId { name };
    Ok(())
}
