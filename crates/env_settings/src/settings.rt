//! The settings of a run.

ghost use Rattle.std.specs.Prelude.{◌≡◌, ◌≢◌, ◌≤◌, ◌++◌, Err, IfOk, IfSome, length};
ghost use Rattle.s3_model.specs.Counts.{Rose};
ghost use Rattle.s3_model.specs.Validity.{IsValidConfig};
ghost use Rattle.aws_profile.specs.Answers.{answer};
ghost use Rattle.env_settings.specs.Calls.{AnswersAs, AsksFirst};
ghost use Rattle.env_settings.specs.Places.{bytes_at, listed, settings_paths};
ghost use Rattle.env_settings.specs.Settings.{settings_of};

use crate::fault::SettingsFault;
use crate::files::{SettingsFiles, read_files};
use crate::variables::{Paths, Variables, read_variables};
use aws_profile::take_settings;
use s3_model::{EnvWords, ProfileFault, Settings, Text};
use s3_outside::Env;
use std::alloc::Global;
use std::mem;

fn settings_from(
    alloc: Global,
    words: EnvWords,
    files: &SettingsFiles,
) -> Result<Settings, SettingsFault>
    requires config { length files.now.config.items ≤ 1048576 }
    requires credentials { length files.now.credentials.items ≤ 1048576 }
    ensures settings { AnswersAs (answer words files.now.config.items files.now.credentials.items) result }
    ensures profile { result ≢ Err (SettingsFault.Profile ProfileFault.Memory) }
    ensures read { result ≢ Err SettingsFault.EnvRead }
    ensures valid { IfOk result (λ settings. IsValidConfig settings.config) }
{
    match take_settings(alloc, words, &files.config, &files.credentials) {
        Ok(settings) => Ok(settings),
        Err(ProfileFault::Memory) => Err(SettingsFault::Memory),
        Err(fault) => Err(SettingsFault::Profile(fault)),
    }
}

/// The settings that these words make with the files at these paths. Both files are read before anything is judged.
fn read_at<E: Env>(
    alloc: Global,
    env: &mut E,
    paths: &Paths,
    words: EnvWords,
) -> Result<Settings, SettingsFault>
    ensures settings { IfSome (E.seen env.new) (λ seen. AnswersAs (answer words (bytes_at seen.files paths.now.config)
        (bytes_at seen.files paths.now.credentials)) result) }
    ensures profile { result ≢ Err (SettingsFault.Profile ProfileFault.Memory) }
    ensures read { result ≡ Err SettingsFault.EnvRead → Rose (E.faults env.old) (E.faults env.new) }
    ensures asked { AsksFirst (λ _. listed paths.now.config ++ listed paths.now.credentials) result (E.seen env.old)
        (E.seen env.new) (E.faults env.old) (E.faults env.new) }
    ensures valid { IfOk result (λ settings. IsValidConfig settings.config) }
    ensures limits { E.allows env.new ≡ E.allows env.old }
    ensures later { E.faults env.old ≤ E.faults env.new }
{
    match read_files(alloc, env, paths) {
        Ok(files) => {
            let settings = settings_from(alloc, words, &files);
            mem::drop(files);
            settings
        }
        Err(fault) => {
            mem::drop(words);
            Err(fault)
        }
    }
}

/// Reads the settings of a run: variables, the AWS CLI's config and credentials files, and the command's `--region` and
/// `--profile`, which it takes over (AWS CLI User Guide, "Configuration and credential file settings", "Environment variables").
///
/// The config file is at AWS_CONFIG_FILE, else at `.aws/config` below HOME, the credentials file at
/// AWS_SHARED_CREDENTIALS_FILE, else at `.aws/credentials` there; one without a place, and one that is absent, is empty. A
/// variable that is empty counts as not set. Both files are read before anything is judged, each at most once, and a read
/// that fails ends the call with `EnvRead`.
pub fn read_settings<E: Env>(
    alloc: Global,
    env: &mut E,
    region: Option<Text>,
    profile: Option<Text>,
) -> Result<Settings, SettingsFault>
    ensures settings { IfSome (E.seen env.new) (λ seen. AnswersAs
        (settings_of seen.variables seen.files region profile) result) }
    ensures profile { result ≢ Err (SettingsFault.Profile ProfileFault.Memory) }
    ensures read { result ≡ Err SettingsFault.EnvRead → Rose (E.faults env.old) (E.faults env.new) }
    ensures asked { AsksFirst (λ seen. settings_paths seen.variables) result (E.seen env.old) (E.seen env.new)
        (E.faults env.old) (E.faults env.new) }
    ensures valid { IfOk result (λ settings. IsValidConfig settings.config) }
    ensures limits { E.allows env.new ≡ E.allows env.old }
    ensures later { E.faults env.old ≤ E.faults env.new }
{
    let Variables { paths, words } = read_variables(alloc, env, region, profile)?;
    let settings = read_at(alloc, env, &paths, words);
    mem::drop(paths);
    settings
}
