//! The law that the words of a report for a reply are read as the reply.
ghost use Rattle.std.specs.Prelude.{◌≡◌, Ok};
ghost use Rattle.apex_logs.specs.Prelude.{words_of};
ghost use Rattle.apex_texts.specs.Report.{reply_text};
ghost use Rattle.apex_logs.specs.ReplyWords.{reply_of};

use apex_types::{Direction, Message, Reply, ReturnCode, Validity};

/// The law that the words of each reply in a report are read as the reply. Nothing is to be run.
pub fn reads_back(reply: &Reply)
    ensures { reply_of (words_of (reply_text reply.now)) ≡ Ok reply.now }
{
    match reply {
        Reply::NotMade => not_made_reads_back(),
        Reply::Code(code) => code_reads_back(*code),
        Reply::Id(id) => id_reads_back(*id),
        Reply::Received(message) => received_reads_back(message),
        Reply::Read { message, validity } => sample_reads_back(message, *validity),
        Reply::QueuingStatus {
            waiting,
            depth,
            size,
            direction,
        } => queuing_reads_back(*waiting, *depth, *size, *direction),
        Reply::SamplingStatus {
            refresh,
            size,
            direction,
            last,
        } => sampling_reads_back(*refresh, *size, *direction, *last),
    }
}

#[tactic(auto, using(crate::proofs::ReadsBack::not_made_back))]
fn not_made_reads_back()
    ensures { let reply = Reply.NotMade in reply_of (words_of (reply_text reply)) ≡ Ok reply }
{}

#[tactic(auto, using(crate::proofs::ReadsBack::code_back))]
fn code_reads_back(code: ReturnCode)
    ensures { let reply = Reply.Code code in reply_of (words_of (reply_text reply)) ≡ Ok reply }
{}

#[tactic(auto, using(crate::proofs::ReadsBack::id_back))]
fn id_reads_back(id: u32)
    ensures { let reply = Reply.Id id in reply_of (words_of (reply_text reply)) ≡ Ok reply }
{}

// A clause of the text says that it gives a message.
#[tactic(auto, using(crate::proofs::ReadsBack::received_back))]
fn received_reads_back(message: &Message)
    ensures { let reply = Reply.Received message.now in
        reply_of (words_of (reply_text reply)) ≡ Ok reply }
{
    let _text = message.to_hex();
}

#[tactic(auto, using(crate::proofs::ReadsBack::read_back))]
fn sample_reads_back(message: &Message, validity: Validity)
    ensures { let reply = Reply.Read message.now validity in
        reply_of (words_of (reply_text reply)) ≡ Ok reply }
{
    let _text = message.to_hex();
}

#[tactic(auto, using(crate::proofs::ReadsBack::queuing_back))]
fn queuing_reads_back(waiting: u32, depth: u32, size: u32, direction: Direction)
    ensures { let reply = Reply.QueuingStatus waiting depth size direction in
        reply_of (words_of (reply_text reply)) ≡ Ok reply }
{}

#[tactic(auto, using(crate::proofs::ReadsBack::sampling_back))]
fn sampling_reads_back(refresh: u64, size: u32, direction: Direction, last: Validity)
    ensures { let reply = Reply.SamplingStatus refresh size direction last in
        reply_of (words_of (reply_text reply)) ≡ Ok reply }
{}
