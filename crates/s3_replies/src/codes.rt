//! The codes of errors.

ghost use Rattle.std.specs.Prelude.{◌≡◌, ◌<◌, Some, length, map, slice_get};
ghost use Rattle.s3_replies.specs.ErrorCodes.{code_names, error_code};

use s3_model::Cases;

/// The codes of errors that decide what an answer means (Amazon S3 API Reference, "Error responses").
#[derive(Clone, Copy)]
pub enum ErrorCode {
    InternalError,
    PreconditionFailed,
    RequestTimeout,
    ServiceUnavailable,
    SlowDown,
}

fn names() -> Cases<5>
    ensures { map (λ row. row.now) result.names.now ≡ map (λ each. each.0) code_names }
{
    Cases {
        names: &[
            "InternalError",
            "PreconditionFailed",
            "RequestTimeout",
            "ServiceUnavailable",
            "SlowDown",
        ],
    }
}

fn code_in(codes: &[ErrorCode], row: u32) -> ErrorCode
    requires { row < length codes.now }
    ensures { slice_get codes.now row ≡ Some result }
{
    codes[row as usize]
}

fn code_at(row: u32) -> ErrorCode
    requires { row < 5 }
    ensures { slice_get (map (λ each. each.1) code_names) row ≡ Some result }
{
    let codes = [
        ErrorCode::InternalError,
        ErrorCode::PreconditionFailed,
        ErrorCode::RequestTimeout,
        ErrorCode::ServiceUnavailable,
        ErrorCode::SlowDown,
    ];
    code_in(&codes, row)
}

/// The code of that name, compared whole; None where it is another.
pub fn error_code(name: &str) -> Option<ErrorCode>
    ensures { result ≡ error_code name.now }
{
    match names().find(name) {
        Some(row) => Some(code_at(row)),
        None => None,
    }
}
