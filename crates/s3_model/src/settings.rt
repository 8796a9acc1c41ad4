//! Settings, limits and keys.

ghost use Rattle.std.specs.Prelude.{◌≡◌, IfOk};

use crate::list::OutOfMemory;
use crate::text::Text;

/// What a service allows of uploads in parts, in bytes; `max_parts` is a count.
#[derive(Clone, Copy)]
pub struct Limits {
    pub min_part: u64,
    pub max_part: u64,
    pub max_parts: u32,
    pub max_object: u64,
}

/// How transfers are made. `threshold` and `chunk` are in bytes, the others are counts.
#[derive(Clone, Copy)]
pub struct Config {
    pub threshold: u64,
    pub chunk: u64,
    pub lanes: u32,
    pub queue: u32,
    pub buffers: u32,
    pub attempts: u32,
}

/// What requests are signed with. It has no `Debug`, so that no secret is printed.
#[derive(Drop)]
pub struct Keys {
    pub id: Text,
    pub secret: Text,
    pub token: Option<Text>,
    pub region: Text,
}

impl Keys {
    /// The same keys in texts of their own.
    pub fn copy(&self) -> Result<Keys, OutOfMemory>
        ensures { IfOk result (λ copy. copy ≡ self.now) }
    {
        Ok(Keys {
            id: self.id.copy()?,
            secret: self.secret.copy()?,
            token: Text::copy_option(&self.token)?,
            region: self.region.copy()?,
        })
    }
}

/// What a run takes from its settings.
#[derive(Drop)]
pub struct Settings {
    pub keys: Keys,
    pub config: Config,
}

/// What the environment and the command line say of the settings; `named` says that the command line named the profile.
#[derive(Drop)]
pub struct EnvWords {
    pub id: Option<Text>,
    pub secret: Option<Text>,
    pub token: Option<Text>,
    pub region: Option<Text>,
    pub profile: Option<Text>,
    pub named: bool,
}
