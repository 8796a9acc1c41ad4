//! Causes and stages, run.

use jobs::Ending;
use s3_model::{Cause, FileCall, Kind, Op, OutOfMemory, Reply, Text, Why};
use s3_outside::FileFault;
use std::alloc::Global;
use std::mem;
use std::test::Fail;
use task_acts::{Act, FileCame, Stage, Work};
use task_causes::{ended_cause, file_cause, file_stage, given_stage};

/// A download of 5 bytes in one piece.
const WHOLE: Work = Work {
    of_kind: Kind::Download,
    moves: false,
    small: true,
    size: 5,
    piece: 5,
    count: 1,
    attempts: 3,
};

/// A name of each cause that a row wants.
fn name_of(cause: &Option<Cause>) -> &'static str {
    match cause {
        None => "none",
        Some(Cause::Changed) => "changed",
        Some(Cause::Service { .. }) => "refused",
        Some(Cause::BadReply { op: Op::Get }) => "bad Get",
        Some(
            Cause::Lost {
                op: Op::Put,
                why: Why::EndedEarly,
            },
        ) => "lost Put",
        Some(
            Cause::Files {
                call: FileCall::Rename,
            },
        ) => "failed rename",
        Some(Cause::Blocked { length: 3 }) => "blocked at 3",
        Some(_) => "another",
    }
}

/// The name of a cause, which is let go.
fn name_at_end(cause: Option<Cause>) -> &'static str {
    let name = name_of(&cause);
    mem::drop(cause);
    name
}

/// The name of the cause that the ending of the first job of that op shows.
fn ended_name(op: Op, ending: Ending) -> &'static str {
    name_at_end(ended_cause(&WHOLE, op, 0, ending))
}

/// The name of the cause that a call on files shows.
fn call_name(act: Act, came: FileCame) -> &'static str {
    name_at_end(file_cause(act, came))
}

fn got(status: u16, length: u64) -> Ending {
    Ending::Gained(Reply::Got {
        status,
        range: None,
        length,
    })
}

#[test]
fn replies_are_what_was_asked_for(rt: HostRuntime) {
    let rows = [(200, 5, "none"), (206, 5, "bad Get"), (200, 4, "bad Get")];
    for (status, length, name) in rows {
        assert_eq!(rt; ended_name(Op::Get, got(status, length)), name);
    }
}

fn refusal(alloc: Global, status: u16, code: &str) -> Result<Ending, OutOfMemory> {
    let code = Text::of(alloc, code)?;
    let message = Text::of(alloc, "m")?;
    Ok(Ending::Refused {
        status,
        code,
        message,
    })
}

#[test]
fn refusals_say_that_the_source_has_changed(rt: HostRuntime) -> Result<(), Fail> {
    let rows = [
        (Op::Get, 412, "InvalidRequest", "changed"),
        (Op::Copy, 409, "PreconditionFailed", "changed"),
        (Op::PartCopy, 403, "412", "refused"),
        (Op::Put, 412, "PreconditionFailed", "refused"),
    ];
    for (op, status, code, name) in rows {
        let refused = refusal(rt.alloc(), status, code)?;
        assert_eq!(rt; ended_name(op, refused), name);
    }
    Ok(())
}

#[test]
fn an_answer_is_lost(rt: HostRuntime) {
    let lost = Ending::Uncertain(Why::EndedEarly);
    assert_eq!(rt; ended_name(Op::Put, lost), "lost Put");
}

#[test]
fn calls_on_files_show_causes(rt: HostRuntime) {
    let failed = FileCame::Fault(FileFault::Failed);
    let blocked = FileCame::Fault(FileFault::Blocked { length: 3 });
    let rows = [
        (Act::Rename, failed, "failed rename"),
        (Act::Stamp, failed, "none"),
        (Act::Assemble, blocked, "blocked at 3"),
    ];
    for (act, came, name) in rows {
        assert_eq!(rt; call_name(act, came), name);
    }
}

#[test]
fn acts_go_on_in_stages(rt: HostRuntime) {
    assert_eq!(rt;
        [file_stage(FileCame::Fine), given_stage(Stage::Kept)],
        [Stage::Fine, Stage::Again]
    );
}
