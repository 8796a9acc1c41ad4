//! One pass over the words behind the command.

ghost use Rattle.std.specs.Prelude.{◌≡◌, ◌≢◌, ◌+◌, ◌++◌, [], ◌∷◌, length, map, string_bytes, OnOk, IfOk, IfErr, Some, None};
ghost use Rattle.s3_words.specs.Faults.{first_fault, option_fault, role_fault, text_fault};
ghost use Rattle.s3_words.specs.Roles.{Path, Value, next, role_of, roles};
ghost use Rattle.s3_words.specs.Shown.{Follows, IsReader, Keeps, read, shown};
ghost use Rattle.s3_words.specs.declared.roles.Expected.TheVariants.{Anything};

use crate::commands::Verb;
use crate::faults::option_fault;
use crate::options::OptionName;
use crate::places::read_place;
use crate::roles::{Expected, Role};
use crate::values::read_value;
use s3_model::{Endpoint, OutOfMemory, Place, WordFault};
use std::alloc::Global;
use std::mem;

/// What was read of the words behind the command.
#[derive(Drop)]
pub struct Reader<'a> {
    pub verb: Verb,
    pub expected: Expected,
    pub roles: Vec<Role<'a>>,
    pub places: Vec<Place>,
    pub endpoint: Option<Endpoint>,
}

impl<'a> Reader<'a> {
    fn new(alloc: Global, verb: Verb) -> Reader<'a>
        ensures verb { result.verb ≡ verb }
        ensures expected { result.expected ≡ Anything }
        ensures words { read result ≡ [] }
        ensures reader { IsReader result }
    {
        Reader {
            verb,
            expected: Expected::Anything,
            roles: Vec::new(alloc),
            places: Vec::new(alloc),
            endpoint: None,
        }
    }

    fn keep_path(&mut self, alloc: Global, at: usize, text: &str) -> Result<(), WordFault>
        ensures right { OnOk result (text_fault at (Path text.now) ≡ None) }
        ensures kept { OnOk result (Keeps (Path text.now) self.old self.new) }
        ensures fault { IfErr result
            (λ fault. fault ≢ WordFault.Memory → text_fault at (Path text.now) ≡ Some fault) }
    {
        let place = read_place(alloc, at, text)?;
        self.places.push(place).map_err(|_| WordFault::Memory)
    }

    fn keep_value(
        &mut self,
        alloc: Global,
        at: usize,
        option: OptionName,
        text: &str,
    ) -> Result<(), WordFault>
        ensures right { OnOk result (text_fault at (Value option text.now) ≡ None) }
        ensures kept { OnOk result (Keeps (Value option text.now) self.old self.new) }
        ensures fault { IfErr result
            (λ fault. fault ≢ WordFault.Memory → text_fault at (Value option text.now) ≡ Some fault) }
    {
        if let Some(endpoint) = read_value(alloc, option.kind(), at, text)? {
            mem::drop(self.endpoint.replace(endpoint));
        }
        Ok(())
    }

    /// Keeps the path or the endpoint that a word gives.
    fn keep(&mut self, alloc: Global, at: usize, role: Role<'a>) -> Result<(), WordFault>
        ensures right { OnOk result (text_fault at (shown role.entry) ≡ None) }
        ensures kept { OnOk result (Keeps (shown role.entry) self.old self.new) }
        ensures fault { IfErr result
            (λ fault. fault ≢ WordFault.Memory → text_fault at (shown role.entry) ≡ Some fault) }
    {
        match role {
            Role::Path(text) => self.keep_path(alloc, at, text),
            Role::Assigned(option, text) | Role::Value(option, text) => {
                self.keep_value(alloc, at, option, text)
            }
            Role::Separator | Role::Unknown | Role::Named(_) => Ok(()),
        }
    }

    /// Adds what a word is behind the others.
    fn push(&mut self, role: Role<'a>) -> Result<(), OutOfMemory>
        ensures verb { self.new.verb ≡ self.old.verb }
        ensures expected { self.new.expected ≡ next self.old.expected (shown role.entry) }
        ensures words { OnOk result (read self.new ≡ read self.old ++ shown role.entry ∷ []) }
        ensures places { self.new.places.items ≡ self.old.places.items }
        ensures endpoint { self.new.endpoint ≡ self.old.endpoint }
    {
        self.expected = self.expected.next(role);
        Ok(self.roles.push(role)?)
    }

    /// The index of the next word in the command line.
    fn next_index(&self) -> usize
        ensures { result ≡ length (read self.now) + 1 }
    {
        self.roles.len() + 1
    }

    /// Takes the next word; `last` says that no word follows.
    fn take(&mut self, alloc: Global, word: &'a str, last: bool) -> Result<(), WordFault>
        ensures right { OnOk result (role_fault self.old.verb (length (read self.old) + 1) (read self.old) last
            (role_of self.old.expected word.now) ≡ None) }
        ensures taken { OnOk result (Follows (role_of self.old.expected word.now) self.old self.new) }
        ensures fault { IfErr result (λ fault. fault ≢ WordFault.Memory →
            role_fault self.old.verb (length (read self.old) + 1) (read self.old) last
            (role_of self.old.expected word.now) ≡ Some fault) }
    {
        let at = self.next_index();
        let role = self.expected.role_of(word);
        if let Some(fault) = option_fault(self.verb, at, &self.roles, last, role) {
            return Err(fault);
        }
        self.keep(alloc, at, role)?;
        match self.push(role) {
            Ok(()) => Ok(()),
            Err(OutOfMemory) => Err(WordFault::Memory),
        }
    }

    /// Reads all words behind the command, up to the first that has a fault.
    pub(crate) fn read_all(
        alloc: Global,
        verb: Verb,
        words: &'a [String],
    ) -> Result<Reader<'a>, WordFault>
        ensures verb { IfOk result (λ reader. reader.verb ≡ verb) }
        ensures words { IfOk result (λ reader. read reader ≡ roles Anything (map string_bytes words.now)) }
        ensures reader { IfOk result (λ reader. IsReader reader) }
        ensures right { OnOk result (first_fault verb 1 [] (roles Anything (map string_bytes words.now)) ≡ None) }
        ensures fault { IfErr result (λ fault. fault ≢ WordFault.Memory →
            first_fault verb 1 [] (roles Anything (map string_bytes words.now)) ≡ Some fault) }
    {
        let mut reader = Reader::new(alloc, verb);
        let mut left = words;
        while let Some((word, rest)) = left.split_first() {
            match reader.take(alloc, word.as_str(), rest.is_empty()) {
                Ok(()) => left = rest,
                Err(fault) => return Err(fault),
            }
        }
        Ok(reader)
    }
}
