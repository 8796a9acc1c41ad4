//! Answers by which a service refuses a request.

ghost use Rattle.std.specs.Prelude.{◌≡◌, ◌≤◌, ◌<◌, IfOk, decimal};
ghost use Rattle.std.specs.Str.{bytes_eq};
ghost use Rattle.s3_model.specs.declared.requests.Ask.{Ask};
ghost use Rattle.s3_model.specs.Classes.{busy_codes, status_message};
ghost use Rattle.s3_model.specs.Files.{is_listed};
ghost use Rattle.answer_classes.specs.Classifying.{IsClassed};
ghost use Rattle.answer_classes.specs.Steps.{IsBusyClass, IsErrorOf, IsStatusClass};
ghost use Rattle.answer_classes.specs.Showing.{is_head};

use reply_xml::DocFault;
use s3_model::{Answered, Ask, Class, OutOfMemory, Text, Why};
use s3_replies::read_error;
use std::alloc::Global;

/// Whether the request is a HEAD, whose answer has no body.
pub fn is_head(ask: &Ask) -> bool
    ensures { result ≡ is_head ask.now }
{
    matches!(ask, Ask::Head { .. })
}

/// The code and the message of an Error document; None where the bytes are none.
pub(crate) fn error_in(alloc: Global, doc: &[u8]) -> Result<Option<(Text, Text)>, OutOfMemory>
    ensures { IfOk result (IsErrorOf doc.now) }
{
    match read_error(alloc, doc) {
        Ok(error) => Ok(Some(error)),
        Err(fault) => match fault {
            DocFault::Memory => Err(OutOfMemory),
            _ => Ok(None),
        },
    }
}

/// Whether a code has that name, compared whole.
pub(crate) fn is_code(code: &str, name: &str) -> bool
    ensures { result ≡ bytes_eq name.now code.now }
{
    name == code
}

/// Whether a 503 with that code did nothing.
#[tactic(auto, using(crate::proofs::Rows::one_of_two))]
fn is_busy(code: &str) -> bool
    ensures { result ≡ is_listed busy_codes code.now }
{
    is_code(code, "SlowDown") || is_code(code, "ServiceUnavailable")
}

fn status_message(status: u16) -> &'static str
    ensures { result.now ≡ status_message status }
{
    match status {
        400 => "Bad Request",
        403 => "Forbidden",
        404 => "Not Found",
        412 => "Precondition Failed",
        _ => "Refused",
    }
}

fn status_code(alloc: Global, status: u16) -> Result<Text, OutOfMemory>
    ensures { IfOk result (λ text. text ≡ decimal status) }
{
    Ok(Text::from(format!(in alloc; "{status}")?))
}

/// A refusal by its status alone.
fn class_of_status(alloc: Global, status: u16) -> Class
    ensures { IsStatusClass status result }
{
    let Ok(code) = status_code(alloc, status) else {
        return Class::Uncertain(Why::Memory);
    };
    match Text::of(alloc, status_message(status)) {
        Ok(message) => Class::Refusal { code, message },
        Err(_) => Class::Uncertain(Why::Memory),
    }
}

/// The class of an answer with a status 3xx or 4xx.
#[tactic(auto, using(crate::proofs::Rows::refused_by_document, crate::proofs::Rows::refused_head))]
pub(crate) fn class_of_refusal(alloc: Global, ask: &Ask, answered: &Answered) -> Class
    requires { (300 ≤ answered.now.status) × (answered.now.status < 500) }
    ensures { IsClassed ask.now answered.now result }
{
    if is_head(ask) {
        return class_of_status(alloc, answered.status);
    }
    let Ok(found) = error_in(alloc, answered.body.as_slice()) else {
        return Class::Uncertain(Why::Memory);
    };
    match found {
        Some((code, message)) => Class::Refusal { code, message },
        None => class_of_status(alloc, answered.status),
    }
}

/// The class of a 503 with this Error document.
fn class_of_code(code: Text, message: Text) -> Class
    ensures { IsBusyClass code message result }
{
    if is_busy(code.as_str()) {
        return Class::Refusal { code, message };
    }
    Class::Uncertain(Why::Status(503))
}

/// The class of an answer with the status 503.
#[tactic(auto, using(crate::proofs::Rows::busy_memory))]
pub(crate) fn class_of_busy(alloc: Global, answered: &Answered) -> Class
    requires { answered.now.status ≡ 503 }
    ensures { (asked : Ask) → IsClassed asked answered.now result }
{
    let Ok(found) = error_in(alloc, answered.body.as_slice()) else {
        return Class::Uncertain(Why::Memory);
    };
    match found {
        Some((code, message)) => class_of_code(code, message),
        None => Class::Uncertain(Why::Status(503)),
    }
}
