//! The parts of a request, read one by one.

use crate::escapes::unescape;
use crate::faults::RequestFault;
use crate::head::RequestHead;
use crate::target::Target;
use s3_model::Text;
use std::alloc::Global;

/// Reads the parts of a request. What cannot be read is empty, and the first fault is kept.
#[derive(Drop)]
pub(crate) struct RequestReader<'a> {
    pub alloc: Global,
    pub head: &'a RequestHead<'a>,
    pub target: Target<'a>,
    pub fault: Option<RequestFault>,
}

impl<'a> RequestReader<'a> {
    pub(crate) fn fail(&mut self, fault: RequestFault) {
        if self.fault.is_none() {
            self.fault = Some(fault);
        }
    }

    fn text_or_empty(&mut self, read: Result<Text, RequestFault>) -> Text {
        match read {
            Ok(text) => text,
            Err(fault) => {
                self.fail(fault);
                Text::from(String::new(self.alloc))
            }
        }
    }

    /// A copy of a text.
    pub(crate) fn copy(&mut self, text: &str) -> Text {
        let read = Text::of(self.alloc, text).map_err(RequestFault::from);
        self.text_or_empty(read)
    }

    /// The text that is written with escapes.
    pub(crate) fn plain(&mut self, written: &str) -> Text {
        let read = unescape(self.alloc, written);
        self.text_or_empty(read)
    }

    pub(crate) fn bucket(&mut self) -> Text {
        self.plain(self.target.bucket)
    }

    pub(crate) fn key(&mut self) -> Text {
        self.plain(self.target.key)
    }

    /// The value of a name of the query, None where the query does not have it.
    pub(crate) fn option(&mut self, name: &str) -> Option<Text> {
        match self.target.written(name) {
            Some(written) => Some(self.plain(written)),
            None => None,
        }
    }

    /// The value of a name that the query has to have.
    pub(crate) fn value(&mut self, name: &str) -> Text {
        match self.target.written(name) {
            Some(written) => self.plain(written),
            None => self.text_or_empty(Err(RequestFault::Unknown)),
        }
    }

    /// The value of a header, None where there is none.
    pub(crate) fn header(&mut self, name: &str) -> Option<Text> {
        match self.head.header(name) {
            Some(value) => Some(self.copy(value)),
            None => None,
        }
    }

    /// The value of a header that the request has to have.
    pub(crate) fn wanted_header(&mut self, name: &str) -> Text {
        match self.head.header(name) {
            Some(value) => self.copy(value),
            None => self.text_or_empty(Err(RequestFault::Unknown)),
        }
    }
}
