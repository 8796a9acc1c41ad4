//! The lines of a head.
ghost use Rattle.std.specs.Prelude.{◌≡◌, ◌++◌, OnOk, string_bytes};
ghost use Rattle.std.specs.List.{flat_map};
ghost use Rattle.s3_requests.specs.Requests.{header_line};
ghost use Rattle.s3_signing.specs.Headers.{pairs_of};

use s3_signing::Header;
use std::alloc::AllocError;

/// Adds one line of a head.
pub fn push_header_line(out: &mut String, name: &str, value: &str) -> Result<(), AllocError>
    ensures { OnOk result (string_bytes out.new ≡ string_bytes out.old ++ header_line (name.now, value.now)) }
{
    out.push_str(name)?;
    out.push_str(": ")?;
    out.push_str(value)?;
    out.push_str("\r\n")
}

/// Adds the lines of the headers.
pub fn push_header_lines(out: &mut String, headers: &[Header<'_>]) -> Result<(), AllocError>
    ensures { OnOk result (string_bytes out.new ≡ string_bytes out.old ++ flat_map header_line (pairs_of headers.now)) }
{
    for header in headers {
        push_header_line(out, header.name, header.value)?;
    }
    Ok(())
}
