//! Each law once.

ghost use Rattle.world_laws.specs.Rounds.{AreNone, NeverFailed, Told, ToldStatus};

use world_laws::{Command, Reading};

// The reading of talks over which each law has a run.
struct Plain;

impl Reading for Plain {
    ghost shows = { Told };
}

impl Command for Plain {
    ghost has_status = { ToldStatus };

    ghost plans = { AreNone };

    ghost call_failed = { NeverFailed };
}

#[test]
fn each_law_of_objects_stands() {
    world_laws::others_stay::<Plain>();
    world_laws::refusal::<Plain>();
    world_laws::small_upload::<Plain>();
    world_laws::small_copy::<Plain>();
    world_laws::removal::<Plain>();
    world_laws::multipart_upload::<Plain>();
    world_laws::multipart_copy::<Plain>();
    world_laws::abort();
    world_laws::moved_copy::<Plain>();
    world_laws::other_uploads::<Plain>();
    world_laws::download::<Plain>();
    world_laws::found_source::<Plain>();
    world_laws::task::<Plain>();
    world_laws::carried_jobs::<Plain>();
    world_laws::truthful::<Plain>();
    world_laws::complete::<Plain>();
}

#[test]
fn each_law_of_files_stands() {
    file_laws::other_files::<Plain>();
    file_laws::file_removal::<Plain>();
    file_laws::download::<Plain>();
    file_laws::moved_file::<Plain>();
    file_laws::file_task::<Plain>();
    file_laws::plan::<Plain>();
    file_completeness::complete::<Plain>();
}
