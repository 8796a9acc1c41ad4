//! What the variables and the command line say.

ghost use Rattle.std.specs.Prelude.{◌≡◌, ◌≤◌, ◌++◌, None, IfOk, IfSome, codes, is_some, option_map};
ghost use Rattle.std.specs.FinMap.{get};
ghost use Rattle.std.specs.Option.{option_or};
ghost use Rattle.aws_profile.specs.Values.{usable};
ghost use Rattle.env_settings.specs.Places.{config_path, credentials_path, path_of, set_value};
ghost use Rattle.env_settings.specs.Settings.{region_of, words_of};

use aws_profile::is_visible;
use s3_model::{EnvWords, OutOfMemory, Text};
use s3_outside::Env;
use std::alloc::Global;
use std::mem;

/// The paths of the two files, where there are such.
#[derive(Drop)]
pub struct Paths {
    pub config: Option<Text>,
    pub credentials: Option<Text>,
}

/// The value of a variable that is not empty.
fn read_set<E: Env>(alloc: Global, env: &mut E, name: &str) -> Result<Option<Text>, OutOfMemory>
    ensures value { IfSome (E.seen env.old) (λ seen. IfOk result (λ word. word ≡ set_value seen.variables name.now)) }
    ensures same { E.seen env.new ≡ E.seen env.old }
    ensures limits { E.allows env.new ≡ E.allows env.old }
    ensures later { E.faults env.old ≤ E.faults env.new }
{
    match env.word(alloc, name)? {
        Some(word) if !word.as_str().is_empty() => Ok(Some(word)),
        other => {
            mem::drop(other);
            Ok(None)
        }
    }
}

/// The value of a variable that can stand in a header.
fn read_usable<E: Env>(alloc: Global, env: &mut E, name: &str) -> Result<Option<Text>, OutOfMemory>
    ensures value { IfSome (E.seen env.old) (λ seen. IfOk result (λ word. word ≡
        usable (get seen.variables name.now))) }
    ensures same { E.seen env.new ≡ E.seen env.old }
    ensures limits { E.allows env.new ≡ E.allows env.old }
    ensures later { E.faults env.old ≤ E.faults env.new }
{
    match env.word(alloc, name)? {
        Some(word) if is_visible(word.as_str().as_bytes()) => Ok(Some(word)),
        other => {
            mem::drop(other);
            Ok(None)
        }
    }
}

/// The path below the home folder, if that is known.
fn read_home<E: Env>(alloc: Global, env: &mut E, below: &str) -> Result<Option<Text>, OutOfMemory>
    ensures value { IfSome (E.seen env.old) (λ seen. IfOk result (λ path. path ≡
        option_map (λ home. home ++ below.now) (set_value seen.variables (codes "HOME")))) }
    ensures same { E.seen env.new ≡ E.seen env.old }
    ensures limits { E.allows env.new ≡ E.allows env.old }
    ensures later { E.faults env.old ≤ E.faults env.new }
{
    match read_set(alloc, env, "HOME")? {
        Some(home) => {
            let path = Text::joined(alloc, &[home.as_str(), below]);
            mem::drop(home);
            Ok(Some(path?))
        }
        None => Ok(None),
    }
}

/// The path that a variable names, else the one below the home folder.
fn read_path<E: Env>(
    alloc: Global,
    env: &mut E,
    name: &str,
    below: &str,
) -> Result<Option<Text>, OutOfMemory>
    ensures value { IfSome (E.seen env.old) (λ seen. IfOk result (λ path. path ≡
        path_of seen.variables name.now below.now)) }
    ensures same { E.seen env.new ≡ E.seen env.old }
    ensures limits { E.allows env.new ≡ E.allows env.old }
    ensures later { E.faults env.old ≤ E.faults env.new }
{
    match read_set(alloc, env, name)? {
        Some(path) => Ok(Some(path)),
        None => read_home(alloc, env, below),
    }
}

fn read_paths<E: Env>(alloc: Global, env: &mut E) -> Result<Paths, OutOfMemory>
    ensures config { IfSome (E.seen env.old) (λ seen. IfOk result (λ paths. paths.config ≡
        config_path seen.variables)) }
    ensures credentials { IfSome (E.seen env.old) (λ seen. IfOk result (λ paths. paths.credentials ≡
        credentials_path seen.variables)) }
    ensures same { E.seen env.new ≡ E.seen env.old }
    ensures limits { E.allows env.new ≡ E.allows env.old }
    ensures later { E.faults env.old ≤ E.faults env.new }
{
    let config = read_path(alloc, env, "AWS_CONFIG_FILE", "/.aws/config")?;
    let name = "AWS_SHARED_CREDENTIALS_FILE";
    match read_path(alloc, env, name, "/.aws/credentials") {
        Ok(credentials) => Ok(Paths {
            config,
            credentials,
        }),
        Err(fault) => {
            mem::drop(config);
            Err(fault)
        }
    }
}

/// The value of the first variable, else that of the second, of those that can stand in a header.
fn read_either<E: Env>(
    alloc: Global,
    env: &mut E,
    first: &str,
    second: &str,
) -> Result<Option<Text>, OutOfMemory>
    ensures value { IfSome (E.seen env.old) (λ seen. IfOk result (λ word. word ≡
        option_or (usable (get seen.variables first.now)) (usable (get seen.variables second.now)))) }
    ensures same { E.seen env.new ≡ E.seen env.old }
    ensures limits { E.allows env.new ≡ E.allows env.old }
    ensures later { E.faults env.old ≤ E.faults env.new }
{
    match read_usable(alloc, env, first)? {
        Some(word) => Ok(Some(word)),
        None => read_usable(alloc, env, second),
    }
}

/// The region of the variables, the first that can be used.
fn read_set_region<E: Env>(alloc: Global, env: &mut E) -> Result<Option<Text>, OutOfMemory>
    ensures value { IfSome (E.seen env.old) (λ seen. IfOk result (λ word. word ≡ region_of seen.variables None)) }
    ensures same { E.seen env.new ≡ E.seen env.old }
    ensures limits { E.allows env.new ≡ E.allows env.old }
    ensures later { E.faults env.old ≤ E.faults env.new }
{
    read_either(alloc, env, "AWS_REGION", "AWS_DEFAULT_REGION")
}

/// The region of the command line, else that of the variables.
fn read_region<E: Env>(
    alloc: Global,
    env: &mut E,
    region: Option<Text>,
) -> Result<Option<Text>, OutOfMemory>
    ensures value { IfSome (E.seen env.old) (λ seen. IfOk result (λ word. word ≡ region_of seen.variables region)) }
    ensures same { E.seen env.new ≡ E.seen env.old }
    ensures limits { E.allows env.new ≡ E.allows env.old }
    ensures later { E.faults env.old ≤ E.faults env.new }
{
    match region {
        Some(region) if is_visible(region.as_str().as_bytes()) => Ok(Some(region)),
        other => {
            mem::drop(other);
            read_set_region(alloc, env)
        }
    }
}

/// Whether the command line names the profile.
fn is_named(profile: &Option<Text>) -> bool
    ensures { result ≡ is_some profile.now }
{
    profile.is_some()
}

/// The profile of the command line, else that of the variables.
fn read_profile<E: Env>(
    alloc: Global,
    env: &mut E,
    profile: Option<Text>,
) -> Result<Option<Text>, OutOfMemory>
    ensures value { IfSome (E.seen env.old) (λ seen. IfOk result (λ word. word ≡
        option_or profile (set_value seen.variables (codes "AWS_PROFILE")))) }
    ensures same { E.seen env.new ≡ E.seen env.old }
    ensures limits { E.allows env.new ≡ E.allows env.old }
    ensures later { E.faults env.old ≤ E.faults env.new }
{
    match profile {
        Some(profile) => Ok(Some(profile)),
        None => read_set(alloc, env, "AWS_PROFILE"),
    }
}

/// The keys that the variables hold.
#[derive(Drop)]
struct KeyWords {
    id: Option<Text>,
    secret: Option<Text>,
    token: Option<Text>,
}

fn read_keys<E: Env>(alloc: Global, env: &mut E) -> Result<KeyWords, OutOfMemory>
    ensures id { IfSome (E.seen env.old) (λ seen. IfOk result (λ keys. keys.id ≡
        get seen.variables (codes "AWS_ACCESS_KEY_ID"))) }
    ensures secret { IfSome (E.seen env.old) (λ seen. IfOk result (λ keys. keys.secret ≡
        get seen.variables (codes "AWS_SECRET_ACCESS_KEY"))) }
    ensures token { IfSome (E.seen env.old) (λ seen. IfOk result (λ keys. keys.token ≡
        get seen.variables (codes "AWS_SESSION_TOKEN"))) }
    ensures same { E.seen env.new ≡ E.seen env.old }
    ensures limits { E.allows env.new ≡ E.allows env.old }
    ensures later { E.faults env.old ≤ E.faults env.new }
{
    let id = env.word(alloc, "AWS_ACCESS_KEY_ID")?;
    let secret = env.word(alloc, "AWS_SECRET_ACCESS_KEY")?;
    let token = env.word(alloc, "AWS_SESSION_TOKEN")?;
    Ok(KeyWords { id, secret, token })
}

/// The region and the profile, and whether the command line names the profile.
#[derive(Drop)]
struct Choice {
    region: Option<Text>,
    profile: Option<Text>,
    named: bool,
}

fn read_choice<E: Env>(
    alloc: Global,
    env: &mut E,
    region: Option<Text>,
    profile: Option<Text>,
) -> Result<Choice, OutOfMemory>
    ensures region { IfSome (E.seen env.old) (λ seen. IfOk result (λ choice. choice.region ≡
        region_of seen.variables region)) }
    ensures profile { IfSome (E.seen env.old) (λ seen. IfOk result (λ choice. choice.profile ≡
        option_or profile (set_value seen.variables (codes "AWS_PROFILE")))) }
    ensures named { IfOk result (λ choice. choice.named ≡ is_some profile) }
    ensures same { E.seen env.new ≡ E.seen env.old }
    ensures limits { E.allows env.new ≡ E.allows env.old }
    ensures later { E.faults env.old ≤ E.faults env.new }
{
    let named = is_named(&profile);
    match read_region(alloc, env, region) {
        Ok(region) => match read_profile(alloc, env, profile) {
            Ok(profile) => Ok(Choice {
                region,
                profile,
                named,
            }),
            Err(fault) => {
                mem::drop(region);
                Err(fault)
            }
        },
        Err(fault) => {
            mem::drop(profile);
            Err(fault)
        }
    }
}

fn words_of(keys: KeyWords, choice: Choice) -> EnvWords
    ensures { result ≡ record {
      id = keys.id;
      secret = keys.secret;
      token = keys.token;
      region = choice.region;
      profile = choice.profile;
      named = choice.named;
    } }
{
    let KeyWords { id, secret, token } = keys;
    let Choice {
        region,
        profile,
        named,
    } = choice;
    EnvWords {
        id,
        secret,
        token,
        region,
        profile,
        named,
    }
}

fn read_words<E: Env>(
    alloc: Global,
    env: &mut E,
    region: Option<Text>,
    profile: Option<Text>,
) -> Result<EnvWords, OutOfMemory>
    ensures value { IfSome (E.seen env.old) (λ seen. IfOk result (λ words. words ≡
        words_of seen.variables region profile)) }
    ensures same { E.seen env.new ≡ E.seen env.old }
    ensures limits { E.allows env.new ≡ E.allows env.old }
    ensures later { E.faults env.old ≤ E.faults env.new }
{
    match read_keys(alloc, env) {
        Ok(keys) => match read_choice(alloc, env, region, profile) {
            Ok(choice) => Ok(words_of(keys, choice)),
            Err(fault) => {
                mem::drop(keys);
                Err(fault)
            }
        },
        Err(fault) => {
            mem::drop(region);
            mem::drop(profile);
            Err(fault)
        }
    }
}

/// What the variables and the command line say, with the paths of the two files.
#[derive(Drop)]
pub(crate) struct Variables {
    pub paths: Paths,
    pub words: EnvWords,
}

/// Reads the paths, and then the words.
pub(crate) fn read_variables<E: Env>(
    alloc: Global,
    env: &mut E,
    region: Option<Text>,
    profile: Option<Text>,
) -> Result<Variables, OutOfMemory>
    ensures config { IfSome (E.seen env.old) (λ seen. IfOk result (λ read. read.paths.config ≡
        config_path seen.variables)) }
    ensures credentials { IfSome (E.seen env.old) (λ seen. IfOk result (λ read. read.paths.credentials ≡
        credentials_path seen.variables)) }
    ensures words { IfSome (E.seen env.old) (λ seen. IfOk result (λ read. read.words ≡
        words_of seen.variables region profile)) }
    ensures same { E.seen env.new ≡ E.seen env.old }
    ensures limits { E.allows env.new ≡ E.allows env.old }
    ensures later { E.faults env.old ≤ E.faults env.new }
{
    match read_paths(alloc, env) {
        Ok(paths) => match read_words(alloc, env, region, profile) {
            Ok(words) => Ok(Variables { paths, words }),
            Err(fault) => {
                mem::drop(paths);
                Err(fault)
            }
        },
        Err(fault) => {
            mem::drop(region);
            mem::drop(profile);
            Err(fault)
        }
    }
}
