//! Why bytes are not the document that was asked for.

use crate::elements::Element;

/// Why bytes are not the document that was asked for.
#[derive(Debug, Clone, Copy, PartialEq, Eq)]
pub enum DocFault {
    /// The bytes are no document; the number is the place, in bytes, where they leave the grammar.
    NotADocument(usize),
    /// An element that must be there is not.
    Missing(Element),
    /// An element that may be there once is there a second time.
    Twice(Element),
    /// A number or a truth value is out of its form.
    BadNumber,
    /// A time is out of its form.
    BadTime,
    /// A reference or a `%` escape is out of its form, or the unescaped bytes are not UTF-8.
    BadEscape,
    /// There are more than 16 levels of elements.
    TooDeep,
    Memory,
    /// An entity tag, a key or an upload id is out of its form, or another encoding is named.
    BadText(Element),
}
