//! The URL of an object, for somebody who has no keys.

ghost use Rattle.std.specs.Prelude.{◌≡◌, ◌≤◌, ◌<◌, [], ◌∷◌, IfOk, map, string_bytes};
ghost use Rattle.s3_model.specs.Places.{IsObject, bucket_at, key_at};
ghost use Rattle.s3_words.specs.Commands.{NamesObject};
ghost use Rattle.job_terms.specs.Gains.{Gains};
ghost use Rattle.run_show.specs.Urls.{IsMoment, MakesLine, url_line};

use presigned_urls::{PresignFault, presign};
use run_report::{Executed, Fatal, end_early, end_with_text};
use run_start::Start;
use s3_model::{OutOfMemory, Place, Text};
use s3_outside::Wire;
use s3_paths::S3Uri;
use std::alloc::Global;
use std::mem;

fn uri_of(place: Option<Place>) -> S3Uri
    requires { IsObject place }
    ensures { result ≡ record { bucket = bucket_at place; key = key_at place } }
{
    let Some(Place::Object { bucket, key }) = place else {
        unreachable!()
    };
    S3Uri { bucket, key }
}

/// The line of the URL of a command's object, from a moment on.
fn url_line(alloc: Global, mut start: Start, moment: u64) -> Result<Text, OutOfMemory>
    requires object { NamesObject start.command }
    requires least { 1 ≤ start.command.expires }
    requires most { start.command.expires ≤ 604800 }
    requires moment { moment < 253402300800 }
    ensures { IfOk result (λ line. line ≡ url_line start.command start.settings moment) }
{
    let uri = uri_of(start.command.from.take());
    let made = presign(
        alloc,
        &uri,
        &start.command.endpoint,
        &start.settings.keys,
        moment,
        start.command.expires,
    );
    mem::drop(uri);
    mem::drop(start);
    match made {
        Ok(url) => Text::joined(alloc, &[url.as_str(), "\n"]),
        Err(PresignFault::Memory) => Err(OutOfMemory),
        Err(_) => unreachable!(),
    }
}

/// The wire's moment.
fn moment_of<W: Wire>(wire: &mut W) -> u64
    ensures bound { result < 253402300800 }
    ensures noted { Gains (W.seen wire.old) (W.seen wire.new) (IsMoment result) }
    ensures later { W.faults wire.old ≤ W.faults wire.new }
{
    wire.moment()
}

/// Makes the URL of a command's object.
pub fn execute_presign<W: Wire>(
    alloc: Global,
    words: &[String],
    start: Start,
    wire: &mut W,
) -> Executed
    requires object { NamesObject start.command }
    requires least { 1 ≤ start.command.expires }
    requires most { start.command.expires ≤ 604800 }
    ensures made { MakesLine (map string_bytes words.now) start.command start.settings (W.seen wire.old)
        (W.seen wire.new) result.run result.text }
    ensures later { W.faults wire.old ≤ W.faults wire.new }
{
    let moment = moment_of(wire);
    match url_line(alloc, start, moment) {
        Ok(line) => end_with_text(alloc, line),
        Err(_) => end_early(alloc, words, Fatal::Memory),
    }
}
