//! An environment in memory.

ghost use Rattle.std.specs.Prelude.{◌≡◌, ◌≤◌, [], Some, OnOk, OnErr, IfOk, IfSome, length};
ghost use Rattle.std.specs.Option.{option_map};
ghost use Rattle.std.specs.FinMap.{empty, get};
ghost use Rattle.s3_model.specs.Validity.{IsValidLimits};
ghost use Rattle.s3_outside.specs.Env.{sets, puts, asks};
ghost use Rattle.s3_outside.specs.Seen.{IsSeenAfter};

use s3_model::{Limits, OutOfMemory, Text};
use s3_outside::{Content, Env, EnvFault, MOST_FILE_BYTES, count_fault};
use std::alloc::Global;
use std::marker::Model;
use text_maps::TextMap;

/// An environment in memory. The calls of `file` whose numbers `failing` lists, counted from 0, fail.
#[derive(Drop)]
pub struct MemEnv {
    alloc: Global,
    variables: TextMap<Text>,
    files: TextMap<Content>,
    asked: Vec<Text>,
    is_seen: bool,
    failing: Vec<usize>,
    count: usize,
    faults: u64,
    limits: Limits,
    ghost valid: { IsValidLimits limits },
}

impl MemEnv {
    /// An environment without variables and files.
    pub fn make(alloc: Global, limits: Limits) -> MemEnv
        requires { IsValidLimits limits }
        ensures seen { ⟦<MemEnv as Env>⟧.seen result ≡
            Some (record { variables = empty; files = empty; asked = [] }) }
        ensures limits { ⟦<MemEnv as Env>⟧.allows result ≡ limits }
        ensures faults { ⟦<MemEnv as Env>⟧.faults result ≡ 0 }
    {
        MemEnv::make_failing(alloc, limits, Vec::new(alloc))
    }

    /// The same, where the listed calls of `file` fail.
    pub fn make_failing(alloc: Global, limits: Limits, failing: Vec<usize>) -> MemEnv
        requires { IsValidLimits limits }
        ensures seen { ⟦<MemEnv as Env>⟧.seen result ≡
            Some (record { variables = empty; files = empty; asked = [] }) }
        ensures limits { ⟦<MemEnv as Env>⟧.allows result ≡ limits }
        ensures faults { ⟦<MemEnv as Env>⟧.faults result ≡ 0 }
    {
        MemEnv {
            alloc,
            variables: TextMap::make(alloc),
            files: TextMap::make(alloc),
            asked: Vec::new(alloc),
            is_seen: true,
            failing,
            count: 0,
            faults: 0,
            limits,
        }
    }

    /// Sets a variable, in the place of one of its name.
    pub fn set(&mut self, alloc: Global, name: &str, value: &str) -> Result<(), OutOfMemory>
        ensures set { OnOk result (⟦<MemEnv as Env>⟧.seen self.new ≡ option_map (sets name.now value.now)
            (⟦<MemEnv as Env>⟧.seen self.old)) }
        ensures same { OnErr result (⟦<MemEnv as Env>⟧.seen self.new ≡ ⟦<MemEnv as Env>⟧.seen self.old) }
        ensures limits { ⟦<MemEnv as Env>⟧.allows self.new ≡ ⟦<MemEnv as Env>⟧.allows self.old }
        ensures faults { ⟦<MemEnv as Env>⟧.faults self.new ≡ ⟦<MemEnv as Env>⟧.faults self.old }
    {
        let value = Text::of(alloc, value)?;
        self.variables.insert(alloc, name, value)
    }

    /// Puts a file at a path, in the place of one that is there.
    pub fn put_file(&mut self, alloc: Global, path: &str, bytes: Vec<u8>) -> Result<(), OutOfMemory>
        ensures put { OnOk result (⟦<MemEnv as Env>⟧.seen self.new ≡ option_map (puts path.now bytes.items)
            (⟦<MemEnv as Env>⟧.seen self.old)) }
        ensures same { OnErr result (⟦<MemEnv as Env>⟧.seen self.new ≡ ⟦<MemEnv as Env>⟧.seen self.old) }
        ensures limits { ⟦<MemEnv as Env>⟧.allows self.new ≡ ⟦<MemEnv as Env>⟧.allows self.old }
        ensures faults { ⟦<MemEnv as Env>⟧.faults self.new ≡ ⟦<MemEnv as Env>⟧.faults self.old }
    {
        self.files.insert(alloc, path, Content::new(bytes))
    }

    /// The paths of the files that were asked for, in order.
    pub fn asked(&self) -> &[Text]
        ensures { IfSome (⟦<MemEnv as Env>⟧.seen self.now) (λ env. env.asked ≡ result.now) }
    {
        &self.asked
    }

    // Whether this call of `file` is listed to fail.
    fn is_next_failing(&mut self) -> bool
        ensures seen { ⟦<MemEnv as Env>⟧.seen self.new ≡ ⟦<MemEnv as Env>⟧.seen self.old }
        ensures files { self.new.files ≡ self.old.files }
        ensures limits { self.new.limits ≡ self.old.limits }
        ensures faults { self.new.faults ≡ self.old.faults }
    {
        let is_failing = self.failing.contains(&self.count);
        self.count = self.count.saturating_add(1);
        is_failing
    }

    // A copy of the bytes of the file there.
    fn copy_at(
        &self,
        alloc: Global,
        path: &str,
        is_failing: bool,
    ) -> Result<Option<Vec<u8>>, EnvFault>
        ensures value { IfOk result (λ file. option_map (λ bytes. bytes.items) file ≡ get self.now.files path.now) }
        ensures bound { IfOk result (λ file. IfSome file (λ bytes. length bytes.items ≤ 1048576)) }
    {
        match self.files.get(path) {
            Some(file) if !is_failing && file.as_slice().len() <= MOST_FILE_BYTES => {
                match file.as_slice().to_vec(alloc) {
                    Ok(copy) => Ok(Some(copy)),
                    Err(_) => Err(EnvFault::Memory),
                }
            }
            None if !is_failing => Ok(None),
            _ => Err(EnvFault::Failed),
        }
    }

    // Adds a path to the list.
    fn record(&mut self, path: &str)
        ensures seen { IsSeenAfter (asks path.now) (⟦<MemEnv as Env>⟧.seen self.old) (⟦<MemEnv as Env>⟧.seen self.new)
            self.old.faults self.new.faults }
        ensures files { self.new.files ≡ self.old.files }
        ensures limits { self.new.limits ≡ self.old.limits }
        ensures later { self.old.faults ≤ self.new.faults }
    {
        if !self.is_seen {
            return;
        }
        let added = match Text::of(self.alloc, path) {
            Ok(path) => self.asked.push(path).is_ok(),
            Err(_) => false,
        };
        if !added {
            self.is_seen = false;
            count_fault(&mut self.faults);
        }
    }
}

impl Env for MemEnv {
    ghost use Rattle.s3_outside.specs.Env.{seen_env};

    ghost seen = { λ e. seen_env e.is_seen e.variables e.files e.asked.items };

    ghost allows = { λ e. e.limits };

    ghost faults = { λ e. e.faults };

    fn word(&mut self, _alloc: Global, name: &str) -> Result<Option<Text>, OutOfMemory> {
        match self.variables.get(name) {
            Some(value) => Ok(Some(value.copy()?)),
            None => Ok(None),
        }
    }

    fn file(&mut self, alloc: Global, path: &str) -> Result<Option<Vec<u8>>, EnvFault> {
        let is_failing = self.is_next_failing();
        self.record(path);
        match self.copy_at(alloc, path, is_failing) {
            Ok(file) => Ok(file),
            Err(EnvFault::Failed) => {
                count_fault(&mut self.faults);
                Err(EnvFault::Failed)
            }
            Err(EnvFault::Memory) => Err(EnvFault::Memory),
        }
    }

    fn limits(&self) -> Limits {
        self.limits
    }
}
