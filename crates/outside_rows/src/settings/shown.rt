//! Settings and their faults as text.

use crate::rows::{add, add_number, add_shown};
use aws_profile::{Config, Keys, ProfileFault, Settings};

fn add_amounts(row: &mut String, config: &Config) {
    add_number(row, config.threshold);
    add_number(row, config.chunk);
    for count in [config.lanes, config.queue, config.buffers, config.attempts] {
        add_number(row, u64::from(count));
    }
}

fn token_of(keys: &Keys) -> &str {
    match &keys.token {
        Some(token) => token.as_str(),
        None => "-",
    }
}

fn add_keys(row: &mut String, keys: &Keys) {
    add(row, keys.id.as_str());
    for word in [keys.secret.as_str(), token_of(keys), keys.region.as_str()] {
        add(row, " ");
        add(row, word);
    }
}

/// Adds keys, region and numbers.
pub(crate) fn add_settings(row: &mut String, settings: &Settings) {
    add_keys(row, &settings.keys);
    add_amounts(row, &settings.config);
}

fn add_line(row: &mut String, line: u32, credentials: bool) {
    add(row, "line");
    add_number(row, u64::from(line));
    add(row, " ");
    add_shown(row, credentials);
}

fn add_setting(row: &mut String, name: &str, line: u32) {
    add(row, name);
    add(row, " in");
    add_number(row, u64::from(line));
}

pub(crate) fn add_fault(row: &mut String, fault: &ProfileFault) {
    match fault {
        ProfileFault::NoProfile(name) => {
            add(row, "no profile ");
            add(row, name.as_str());
        }
        ProfileFault::BadLine { credentials, line } => add_line(row, *line, *credentials),
        ProfileFault::BadSetting { line, name } => add_setting(row, name.as_str(), *line),
        ProfileFault::NoKeys => add(row, "no keys"),
        ProfileFault::NoRegion => add(row, "no region"),
        ProfileFault::Memory => add(row, "memory"),
    }
}
