//! Why the settings of a run were not read.

use s3_model::{OutOfMemory, ProfileFault};

/// Why the settings of a run were not read.
#[derive(Drop)]
pub enum SettingsFault {
    /// What is read does not make settings. Never `ProfileFault::Memory`.
    Profile(ProfileFault),
    /// A settings file is there and was not read.
    EnvRead,
    Memory,
}

impl From<OutOfMemory> for SettingsFault {
    ghost use Rattle.std.specs.Prelude.{◌≡◌};
    ghost use Rattle.env_settings.specs.declared.fault.SettingsFault.TheVariants.{Memory};

    ghost from_gives = { λ _ fault. fault ≡ Memory };

    fn from(_: OutOfMemory) -> SettingsFault {
        SettingsFault::Memory
    }
}
