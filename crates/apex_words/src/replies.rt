//! Which replies the rows of a service give, with any values in them.
ghost use Rattle.std.specs.Prelude.{◌≡◌};
ghost use Rattle.apex_words.specs.Replies.{can_give, can_give_code, gives_code_alone, gives_id, refuses_with};

use crate::services::refusals_of;
use apex_texts::Service;
use apex_types::{Reply, ReturnCode};

/// Whether a row of the service gives such a reply: the same code, or data of the same kind with any values. By the law
/// `replies_are_given`, every reply to a call of the service is given by some row.
pub fn can_give(service: Service, reply: &Reply) -> bool
    ensures { result ≡ can_give service reply.now }
{
    match reply {
        Reply::NotMade => true,
        Reply::Code(ReturnCode::NoError) => gives_code_alone(service),
        Reply::Code(code) => refuses_with(service, *code),
        Reply::Id(_) => gives_id(service),
        Reply::Received(_) => matches!(service, Service::ReceiveQueuing),
        Reply::Read { .. } => matches!(service, Service::ReadSampling),
        Reply::QueuingStatus { .. } => matches!(service, Service::QueuingStatus),
        Reply::SamplingStatus { .. } => matches!(service, Service::SamplingStatus),
    }
}

/// Whether a row of the service gives a reply with the code.
pub fn can_give_code(service: Service, code: ReturnCode) -> bool
    ensures { result ≡ can_give_code service code }
{
    match code {
        ReturnCode::NoError => true,
        _ => refuses_with(service, code),
    }
}

/// Whether a check of the service refuses with the code.
fn refuses_with(service: Service, code: ReturnCode) -> bool
    ensures { result ≡ refuses_with service code }
{
    refusals_of(service)
        .iter()
        .any(|refusal| refusal.code().number() == code.number())
}

/// Whether the reply to an accepted call of the service is only NO_ERROR.
fn gives_code_alone(service: Service) -> bool
    ensures { result ≡ gives_code_alone service }
{
    matches!(
        service,
        Service::WriteSampling | Service::SendQueuing | Service::ClearQueuing | Service::SetMode
    )
}

/// Whether the reply to an accepted call of the service has an identifier.
fn gives_id(service: Service) -> bool
    ensures { result ≡ gives_id service }
{
    matches!(
        service,
        Service::CreateSampling | Service::CreateQueuing | Service::SamplingId | Service::QueuingId
    )
}
