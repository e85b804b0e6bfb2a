//! The reply table.
use crate::json_rows::push_row_lines;
use apex_texts::{SERVICES, Service};
use apex_words::{push_rows, push_service_rows, standard_name};
use dekarino_command_line::Form;
use dekarino_search::{Outcome, Unfinished};
use std::alloc::{AllocError, Global};

/// The rows of the service of a name, its call word or the standard's name, or of all services.
pub(crate) fn reply_table<'a>(
    alloc: Global,
    name: Option<&'a str>,
    form: Form,
) -> Result<Outcome, Unfinished<'a>> {
    let text = match name {
        None => all_rows(alloc, form)?,
        Some(name) => match service_called(name) {
            Some(service) => rows_of(alloc, service, form)?,
            None => return Err(Unfinished::UnknownService(name)),
        },
    };
    Ok(Outcome::Done(text.into_bytes()))
}

fn service_called(name: &str) -> Option<Service> {
    SERVICES.iter().copied().find(|service| name == service.word()
        || name == standard_name(*service))
}

fn all_rows(alloc: Global, form: Form) -> Result<String, AllocError> {
    let mut text = String::new(alloc);
    match form {
        Form::Text => push_rows(&mut text)?,
        Form::Json => {
            for service in SERVICES.as_slice() {
                push_row_lines(alloc, &mut text, *service)?;
            }
        }
    }
    Ok(text)
}

fn rows_of(alloc: Global, service: Service, form: Form) -> Result<String, AllocError> {
    let mut text = String::new(alloc);
    match form {
        Form::Text => push_service_rows(&mut text, service)?,
        Form::Json => push_row_lines(alloc, &mut text, service)?,
    }
    Ok(text)
}
