//! The document of an error.

ghost use Rattle.std.specs.Prelude.{◌≡◌, ◌≤◌, ℕ, List, None, Option, Err, IfOk, OnOk, codes, length};
ghost use Rattle.s3_replies.specs.Errors.{ErrorLeft, HasError, IsError, KnowsError, error_table};
ghost use Rattle.reply_xml.specs.Contents.{Content};
ghost use Rattle.reply_xml.specs.Breaks.{Breaks, IfBroken};
ghost use Rattle.reply_xml.specs.Faults.{IfRefused, IsFault};
ghost use Rattle.reply_xml.specs.Places.{BeginsOtherwise, HasBytesBehind};

use reply_xml::{Child, DocFault, Element, FormedText, Parts, Reader, is_the, read_document};
use s3_model::Text;
use std::alloc::Global;

/// The fields of an error.
#[derive(Drop)]
struct ErrorFields {
    code: Option<Text>,
    message: Option<Text>,
}

impl Parts for ErrorFields {
    type Whole = (Text, Option<Text>);

    ghost left = { λ s content value. ErrorLeft s.code s.message content value };

    ghost table = { λ s. error_table };

    ghost knows = { λ s front. KnowsError s.code s.message front };

    fn take<'a>(&mut self, reader: &mut Reader<'a>, child: &Child<'a>) -> Result<(), DocFault> {
        if is_the(Element::Code, child.element) {
            return reader.take::<FormedText>(child, Element::Code, &mut self.code);
        }
        if is_the(Element::Message, child.element) {
            return reader.take::<FormedText>(child, Element::Message, &mut self.message);
        }
        reader.skip(child)
    }

    fn whole(self, _: Global) -> Result<(Text, Option<Text>), DocFault> {
        let ErrorFields { code, message } = self;
        match code {
            Some(code) => Ok((code, message)),
            None => Err(DocFault::Missing(Element::Code)),
        }
    }
}

/// Reads the document of an error, and answers its code and its message, which is empty where the document has none.
pub fn read_error(alloc: Global, doc: &[u8]) -> Result<(Text, Text), DocFault>
    ensures value { IfOk result (IsError doc.now) }
    ensures refused { IfRefused result ((error : List ℕ × List ℕ) → ¬ (IsError doc.now error)) }
    ensures broken { IfBroken result (Breaks (codes "Error") error_table doc.now) }
    ensures other_root { (place : ℕ) → BeginsOtherwise (codes "Error") doc.now place →
        result ≡ Err (DocFault.NotADocument place) }
    ensures behind { (place : ℕ) → HasBytesBehind (codes "Error") HasError doc.now place →
        IsFault result (DocFault.NotADocument place) }
{
    let fields = ErrorFields {
        code: None,
        message: None,
    };
    let (code, message) = read_document(alloc, doc, "Error", fields)?;
    match message {
        Some(message) => Ok((code, message)),
        None => Ok((code, Text::from(String::new(alloc)))),
    }
}
