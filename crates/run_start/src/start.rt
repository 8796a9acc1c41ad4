//! What comes before the files are looked at: the words, and then the settings.

ghost use Rattle.std.specs.Prelude.{◌≡◌, ◌≢◌, ◌≤◌, ◌⊎◌, true, false, IfOk, IfErr, IfSome, map, string_bytes};
ghost use Rattle.s3_model.specs.Places.{IsListed};
ghost use Rattle.s3_words.specs.Options.{is_listing, is_presign};
ghost use Rattle.s3_words.specs.Commands.{NamesObject};
ghost use Rattle.upload_plans.specs.Commands.{CopiesUp, IsOffline, is_offline_dry_run, is_unbuilt};
ghost use Rattle.run_start.specs.Begun.{IsBegun, IsRead, RefusedFor, StopsInSettings, StopsInWords};
ghost use Rattle.run_start.specs.Settings.{AreSettings, AsksOnly, settings_fatal, without_settings};
ghost use Rattle.s3_model.specs.Validity.{IsValidConfig, IsWithin};

use env_settings::{SettingsFault, read_settings};
use run_report::Fatal;
use s3_model::{Endpoint, Keys, Settings, WordFault};
use s3_outside::Env;
use s3_words::{Command, read_words};
use std::alloc::Global;
use std::mem;
use upload_plans::is_unbuilt;

/// A command that the program does, and its settings.
#[derive(Drop)]
pub struct Start {
    /// Its region and its profile are with the settings.
    pub command: Command,
    pub settings: Settings,
}

/// Where the requests of a command go, what signs them, and how often each is tried.
#[derive(Drop)]
pub struct Service {
    pub endpoint: Endpoint,
    pub keys: Keys,
    /// The most attempts of a request.
    pub attempts: u32,
}

/// The service of a command, whose other parts are let go.
pub fn service_of(start: Start) -> Service
    ensures endpoint { result.endpoint ≡ start.command.endpoint }
    ensures keys { result.keys ≡ start.settings.keys }
    ensures attempts { result.attempts ≡ start.settings.config.attempts }
{
    let Start { command, settings } = start;
    let Command { endpoint, .. } = command;
    let Settings { keys, config } = settings;
    Service {
        endpoint,
        keys,
        attempts: config.attempts,
    }
}

/// How a fault of the words ends a run.
fn words_fatal(fault: WordFault) -> Fatal
    ensures memory { fault ≡ WordFault.Memory → result ≡ Fatal.Memory }
    ensures other { fault ≢ WordFault.Memory → result ≡ Fatal.Words fault }
{
    match fault {
        WordFault::Memory => Fatal::Memory,
        other => Fatal::Words(other),
    }
}

/// The command, unless it is not built yet.
fn if_built(command: Command) -> Result<Command, Fatal>
    ensures same { IfOk result (λ same. same ≡ command) }
    ensures built { IfOk result (λ _. is_unbuilt command ≡ false) }
    ensures fatal { IfErr result (λ why. why ≡ Fatal.NotYet) }
    ensures unbuilt { IfErr result (λ _. is_unbuilt command ≡ true) }
{
    if is_unbuilt(&command) {
        mem::drop(command);
        return Err(Fatal::NotYet);
    }
    Ok(command)
}

/// The command of the words; a fault of them ends the run, and so does a command that is not built yet.
fn read_command(alloc: Global, words: &[String]) -> Result<Command, Fatal>
    ensures read { IfOk result (IsRead (map string_bytes words.now)) }
    ensures stops { IfErr result (StopsInWords (map string_bytes words.now)) }
{
    match read_words(alloc, words) {
        Ok(command) => if_built(command),
        Err(fault) => Err(words_fatal(fault)),
    }
}

fn settings_fatal(fault: SettingsFault) -> Fatal
    ensures { result ≡ settings_fatal fault }
{
    match fault {
        SettingsFault::Profile(fault) => Fatal::Profile(fault),
        SettingsFault::EnvRead => Fatal::EnvRead,
        SettingsFault::Memory => Fatal::Memory,
    }
}

/// The settings of a command, which take over its region and its profile; the rest of it stays.
fn settings_for<E: Env>(
    alloc: Global,
    env: &mut E,
    command: &mut Command,
) -> Result<Settings, Fatal>
    ensures settled { IfSome (E.seen env.new) (λ seen. IfOk result (AreSettings command.old seen)) }
    ensures valid { IfOk result (λ settings. IsValidConfig settings.config) }
    ensures stops { IfErr result (RefusedFor command.old (E.seen env.new) (E.faults env.old) (E.faults env.new)) }
    ensures rest { command.new ≡ without_settings command.old }
    ensures asked { AsksOnly (E.seen env.old) (E.seen env.new) (E.faults env.old) (E.faults env.new) }
    ensures limits { E.allows env.new ≡ E.allows env.old }
    ensures later { E.faults env.old ≤ E.faults env.new }
{
    let region = command.region.take();
    let profile = command.profile.take();
    match read_settings(alloc, env, region, profile) {
        Ok(settings) => Ok(settings),
        Err(fault) => Err(settings_fatal(fault)),
    }
}

/// Reads the words, then the settings, which take over the command's region and profile; the first fault ends the run.
pub fn read_start<E: Env>(alloc: Global, words: &[String], env: &mut E) -> Result<Start, Fatal>
    ensures begun { IfOk result (λ start. IsBegun (map string_bytes words.now) (E.seen env.new) start.command
        start.settings) }
    ensures copies { IfOk result (λ start. is_presign start.command.verb ≡ false
        → is_listing start.command.verb ≡ false → is_offline_dry_run start.command ≡ false → CopiesUp start.command) }
    ensures carried { IfOk result (λ start. is_presign start.command.verb ≡ false
        → is_listing start.command.verb ≡ false
        → is_offline_dry_run start.command ≡ false → start.command.mode.dryrun ≡ false) }
    ensures offline { IfOk result (λ start. is_offline_dry_run start.command ≡ true → IsOffline start.command) }
    ensures listed { IfOk result (λ start. is_listing start.command.verb ≡ true → IsListed start.command.from) }
    ensures object { IfOk result (λ start. is_presign start.command.verb ≡ true → NamesObject start.command) }
    ensures least { IfOk result (λ start. 1 ≤ start.command.expires) }
    ensures most { IfOk result (λ start. start.command.expires ≤ 604800) }
    ensures attempts { IfOk result (λ start. IsWithin 1 start.settings.config.attempts 10) }
    ensures stops { IfErr result (λ why. StopsInWords (map string_bytes words.now) why ⊎
        StopsInSettings (map string_bytes words.now) (E.seen env.new) (E.faults env.old) (E.faults env.new) why) }
    ensures asked { AsksOnly (E.seen env.old) (E.seen env.new) (E.faults env.old) (E.faults env.new) }
    ensures limits { E.allows env.new ≡ E.allows env.old }
    ensures later { E.faults env.old ≤ E.faults env.new }
{
    let mut command = read_command(alloc, words)?;
    match settings_for(alloc, env, &mut command) {
        Ok(settings) => Ok(Start { command, settings }),
        Err(fatal) => {
            mem::drop(command);
            Err(fatal)
        }
    }
}
