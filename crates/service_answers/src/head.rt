//! The head of a request.

/// The head of a request: its method, its target, and its header lines.
#[derive(Clone, Copy)]
pub struct RequestHead<'a> {
    pub method: &'a str,
    pub target: &'a str,
    lines: &'a str,
}

/// The length of a request's head with the empty line behind it; None as long as it is not whole.
pub fn head_length(bytes: &[u8]) -> Option<usize> {
    let place = bytes
        .windows(4)
        .position(|window| window == b"\r\n\r\n".as_slice())?;
    place.checked_add(4)
}

/// The value of a header line of that name.
fn value_in<'a>(line: &'a str, name: &str) -> Option<&'a str> {
    let (found, value) = line.split_once(": ")?;
    if found == name { Some(value) } else { None }
}

impl<'a> RequestHead<'a> {
    /// None where the first line is not that of an HTTP/1.1 request.
    pub fn read(head: &'a str) -> Option<RequestHead<'a>> {
        let (line, lines) = head.split_once("\r\n")?;
        let (method, rest) = line.split_once(' ')?;
        let (target, version) = rest.split_once(' ')?;
        if version != "HTTP/1.1" {
            return None;
        }
        Some(RequestHead {
            method,
            target,
            lines,
        })
    }

    /// The value of a header, whose name is in lower case.
    pub fn header(&self, name: &str) -> Option<&'a str> {
        for line in self.lines.split("\r\n") {
            if let Some(value) = value_in(line, name) {
                return Some(value);
            }
        }
        None
    }

    /// The length of the body that follows; none is stated where there is none.
    pub fn body_length(&self) -> Option<usize> {
        match self.header("content-length") {
            Some(value) => value.parse::<usize>().ok(),
            None => Some(0),
        }
    }
}

/// The length of the whole request that begins so; None as long as its head is not whole, or where it is none.
pub fn whole_length(request: &[u8]) -> Option<usize> {
    let length = head_length(request)?;
    let head = std::str::from_utf8(request.get(..length)?).ok()?;
    let body = RequestHead::read(head)?.body_length()?;
    length.checked_add(body)
}
