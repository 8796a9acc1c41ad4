//! The two files of settings.

ghost use Rattle.std.specs.Prelude.{◌≡◌, ◌≤◌, ◌++◌, Err, IfErr, IfOk, IfSome, IsSome, OnErr, length};
ghost use Rattle.s3_model.specs.Counts.{Rose};
ghost use Rattle.s3_outside.specs.Seen.{IsSeenAfter};
ghost use Rattle.env_settings.specs.Calls.{AsksFirst, IsReadFault};
ghost use Rattle.env_settings.specs.Places.{bytes_at, listed};

use crate::fault::SettingsFault;
use crate::variables::Paths;
use s3_model::Text;
use s3_outside::{Env, EnvFault};
use std::alloc::Global;

/// What the two files hold.
#[derive(Drop)]
pub struct SettingsFiles {
    pub config: Vec<u8>,
    pub credentials: Vec<u8>,
}

/// The bytes of a file; without a path, and where there is no such file, it has none.
fn read_file<E: Env>(
    alloc: Global,
    env: &mut E,
    path: &Option<Text>,
) -> Result<Vec<u8>, SettingsFault>
    ensures value { IfSome (E.seen env.old) (λ seen. IfOk result (λ bytes. bytes.items ≡
        bytes_at seen.files path.now)) }
    ensures bound { IfOk result (λ bytes. length bytes.items ≤ 1048576) }
    ensures asked { IsSeenAfter (λ seen. record seen { asked = seen.asked ++ listed path.now }) (E.seen env.old)
        (E.seen env.new) (E.faults env.old) (E.faults env.new) }
    ensures place { OnErr result (IsSome path.now) }
    ensures fault { IfErr result IsReadFault }
    ensures failed { result ≡ Err SettingsFault.EnvRead → Rose (E.faults env.old) (E.faults env.new) }
    ensures limits { E.allows env.new ≡ E.allows env.old }
    ensures later { E.faults env.old ≤ E.faults env.new }
{
    let Some(path) = path else {
        return Ok(Vec::new(alloc));
    };
    match env.file(alloc, path.as_str()) {
        Ok(Some(bytes)) => Ok(bytes),
        Ok(None) => Ok(Vec::new(alloc)),
        Err(EnvFault::Failed) => Err(SettingsFault::EnvRead),
        Err(EnvFault::Memory) => Err(SettingsFault::Memory),
    }
}

/// Reads both files, the config file first.
pub(crate) fn read_files<E: Env>(
    alloc: Global,
    env: &mut E,
    paths: &Paths,
) -> Result<SettingsFiles, SettingsFault>
    ensures config { IfSome (E.seen env.new) (λ seen. IfOk result (λ files. files.config.items ≡
        bytes_at seen.files paths.now.config)) }
    ensures credentials { IfSome (E.seen env.new) (λ seen. IfOk result (λ files. files.credentials.items ≡
        bytes_at seen.files paths.now.credentials)) }
    ensures config_bound { IfOk result (λ files. length files.config.items ≤ 1048576) }
    ensures credentials_bound { IfOk result (λ files. length files.credentials.items ≤ 1048576) }
    ensures asked { AsksFirst (λ _. listed paths.now.config ++ listed paths.now.credentials) result (E.seen env.old)
        (E.seen env.new) (E.faults env.old) (E.faults env.new) }
    ensures fault { IfErr result IsReadFault }
    ensures failed { result ≡ Err SettingsFault.EnvRead → Rose (E.faults env.old) (E.faults env.new) }
    ensures limits { E.allows env.new ≡ E.allows env.old }
    ensures later { E.faults env.old ≤ E.faults env.new }
{
    let config = read_file(alloc, env, &paths.config)?;
    let credentials = read_file(alloc, env, &paths.credentials)?;
    Ok(SettingsFiles {
        config,
        credentials,
    })
}
