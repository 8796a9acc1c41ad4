//! The request of a job.

ghost use Rattle.std.specs.Prelude.{◌≡◌, ◌<◌, ℕ, List, Some, true, IfOk};
ghost use Rattle.std.specs.Arc.{arc_value};
ghost use Rattle.s3_model.specs.Lists.{Reserved};
ghost use Rattle.s3_model.specs.declared.requests.Ask.TheVariants as ask;
ghost use Rattle.s3_model.specs.declared.requests.Op.TheVariants as op;
ghost use Rattle.job_terms.specs.Ops.{IsPlanning};
ghost use Rattle.job_terms.specs.Jobs.{IsObject, IsSource, Origin, Target};
ghost use Rattle.jobs.specs.Jobs.{
  HasBytes,
  HasRange,
  IsAskOf,
  IsDelete,
  IsStepAsk,
  asked_range,
  ends_of,
  stated_content,
};

use crate::job::Job;
use crate::what::What;
use s3_model::{Ask, JobId, Kind, Op, OutOfMemory, Place, Task, Text, Texts, UploadId};
use std::alloc::Global;

fn copy_all(alloc: Global, texts: &Texts) -> Result<Texts, OutOfMemory>
    ensures { IfOk result (λ copies. copies.items ≡ texts.now.items) }
{
    let mut copies = Texts::make(alloc);
    copies.reserve(texts.len())?;
    for text in texts.as_slice() {
        copies.push(text.copy()?);
    }
    Ok(copies)
}

/// A bucket and a key in it.
#[derive(Drop)]
struct Object {
    bucket: Text,
    key: Text,
}

fn object_of(bucket: &Text, key: &Text) -> Result<Object, OutOfMemory>
    ensures bucket { IfOk result (λ object. object.bucket ≡ bucket.now) }
    ensures key { IfOk result (λ object. object.key ≡ key.now) }
{
    Ok(Object {
        bucket: bucket.copy()?,
        key: key.copy()?,
    })
}

/// The object that a task writes or removes.
fn dest(task: &Task) -> Result<Object, OutOfMemory>
    requires { Target task.now }
    ensures { IfOk result (λ object. IsObject task.now.dest object.bucket object.key) }
{
    let Place::Object { bucket, key } = &task.dest else {
        unreachable!()
    };
    object_of(bucket, key)
}

/// The object that a task reads or moves.
fn source(task: &Task) -> Result<Object, OutOfMemory>
    requires { Origin task.now }
    ensures { IfOk result (λ object. IsSource task.now.source object.bucket object.key) }
{
    let Some(Place::Object { bucket, key }) = &task.source else {
        unreachable!()
    };
    object_of(bucket, key)
}

/// Where a copy goes, and where it comes from.
#[derive(Drop)]
struct Route {
    to: Object,
    from: Object,
}

fn route_of(task: &Task) -> Result<Route, OutOfMemory>
    requires to { Target task.now }
    requires from { Origin task.now }
    ensures to { IfOk result (λ route. IsObject task.now.dest route.to.bucket route.to.key) }
    ensures from { IfOk result (λ route. IsSource task.now.source route.from.bucket route.from.key) }
{
    Ok(Route {
        to: dest(task)?,
        from: source(task)?,
    })
}

/// The text of an upload that is there.
fn upload_of(alloc: Global, upload: &Option<UploadId>) -> Result<Text, OutOfMemory>
    requires { (id : List ℕ) × (upload.now ≡ Some id) }
    ensures { IfOk result (λ text. upload.now ≡ Some text) }
{
    let Some(id) = upload else { unreachable!() };
    Text::of(alloc, id.as_str())
}

/// An upload in parts, with the object that it makes.
#[derive(Drop)]
struct Upload {
    to: Object,
    id: Text,
}

fn upload_to(alloc: Global, task: &Task, upload: &Option<UploadId>) -> Result<Upload, OutOfMemory>
    requires to { Target task.now }
    requires upload { (id : List ℕ) × (upload.now ≡ Some id) }
    ensures to { IfOk result (λ made. IsObject task.now.dest made.to.bucket made.to.key) }
    ensures id { IfOk result (λ made. upload.now ≡ Some made.id) }
{
    Ok(Upload {
        to: dest(task)?,
        id: upload_of(alloc, upload)?,
    })
}

/// The first and the last byte of a range that has one.
fn ends(range: (u64, u64)) -> (u64, u64)
    requires { HasBytes range }
    ensures { result ≡ ends_of range }
{
    (range.0, range.0 + (range.1 - 1))
}

/// The range of a Get of that number.
fn range_of_get(number: u32, range: (u64, u64)) -> Option<(u64, u64)>
    requires { 0 < number → HasBytes range }
    ensures { result ≡ asked_range number range }
{
    if number == 0 { None } else { Some(ends(range)) }
}

fn put(task: &Task) -> Result<Ask, OutOfMemory>
    requires { Target task.now }
    ensures { IfOk result (λ asked. (to : Target task.now)
        × (asked ≡ ask.Put to.bucket to.key task.now.content task.now.fresh)) }
{
    let content = Text::copy_option(&task.content)?;
    let to = dest(task)?;
    Ok(Ask::Put {
        bucket: to.bucket,
        key: to.key,
        content,
        fresh: task.fresh,
    })
}

fn get(task: &Task, number: u32, range: (u64, u64)) -> Result<Ask, OutOfMemory>
    requires from { Origin task.now }
    requires range { 0 < number → HasBytes range }
    ensures { IfOk result (λ asked. (from : Origin task.now)
        × (asked ≡ ask.Get from.bucket from.key task.now.etag (asked_range number range))) }
{
    let etag = task.etag.copy()?;
    let from = source(task)?;
    Ok(Ask::Get {
        bucket: from.bucket,
        key: from.key,
        etag,
        range: range_of_get(number, range),
    })
}

fn copy(task: &Task) -> Result<Ask, OutOfMemory>
    requires to { Target task.now }
    requires from { Origin task.now }
    ensures { IfOk result (λ asked. (to : Target task.now) × (from : Origin task.now)
        × (asked ≡ ask.Copy to.bucket to.key from.bucket from.key task.now.etag)) }
{
    let etag = task.etag.copy()?;
    let route = route_of(task)?;
    Ok(Ask::Copy {
        bucket: route.to.bucket,
        key: route.to.key,
        from_bucket: route.from.bucket,
        from_key: route.from.key,
        etag,
    })
}

fn delete(task: &Task) -> Result<Ask, OutOfMemory>
    requires { (asked : Ask) × IsDelete task.now task.now.kind asked }
    ensures { IfOk result (IsDelete task.now task.now.kind) }
{
    let object = match task.kind {
        Kind::RemoveObject => dest(task)?,
        _ => source(task)?,
    };
    Ok(Ask::Delete {
        bucket: object.bucket,
        key: object.key,
    })
}

/// The content type that an upload in parts states.
fn content_of(task: &Task) -> Result<Option<Text>, OutOfMemory>
    ensures { IfOk result (λ content. content ≡ stated_content task.now.kind task.now.content) }
{
    match task.kind {
        Kind::Copy => Ok(None),
        _ => Text::copy_option(&task.content),
    }
}

fn create(task: &Task) -> Result<Ask, OutOfMemory>
    requires { Target task.now }
    ensures { IfOk result (λ asked. (to : Target task.now)
        × (asked ≡ ask.Create to.bucket to.key (stated_content task.now.kind task.now.content))) }
{
    let content = content_of(task)?;
    let to = dest(task)?;
    Ok(Ask::Create {
        bucket: to.bucket,
        key: to.key,
        content,
    })
}

fn part(
    alloc: Global,
    task: &Task,
    upload: &Option<UploadId>,
    number: u32,
) -> Result<Ask, OutOfMemory>
    requires to { Target task.now }
    requires upload { (id : List ℕ) × (upload.now ≡ Some id) }
    ensures { IfOk result (λ asked. (to : Target task.now) × (id : List ℕ) × (upload.now ≡ Some id)
        × (asked ≡ ask.Part to.bucket to.key id number)) }
{
    let made = upload_to(alloc, task, upload)?;
    Ok(Ask::Part {
        bucket: made.to.bucket,
        key: made.to.key,
        upload: made.id,
        number,
    })
}

fn part_copy(
    alloc: Global,
    task: &Task,
    upload: &Option<UploadId>,
    number: u32,
    range: (u64, u64),
) -> Result<Ask, OutOfMemory>
    requires to { Target task.now }
    requires from { Origin task.now }
    requires upload { (id : List ℕ) × (upload.now ≡ Some id) }
    requires range { HasBytes range }
    ensures { IfOk result (λ asked. (to : Target task.now) × (from : Origin task.now) × (id : List ℕ)
        × (upload.now ≡ Some id) × (asked ≡ ask.PartCopy to.bucket to.key id number from.bucket from.key task.now.etag
        (ends_of range))) }
{
    let upload = upload_of(alloc, upload)?;
    let etag = task.etag.copy()?;
    let route = route_of(task)?;
    Ok(Ask::PartCopy {
        bucket: route.to.bucket,
        key: route.to.key,
        upload,
        number,
        from_bucket: route.from.bucket,
        from_key: route.from.key,
        etag,
        range: ends(range),
    })
}

fn complete(
    alloc: Global,
    task: &Task,
    upload: &Option<UploadId>,
    etags: &Option<Texts>,
) -> Result<Ask, OutOfMemory>
    requires to { Target task.now }
    requires upload { (id : List ℕ) × (upload.now ≡ Some id) }
    requires etags { (given : Reserved (List ℕ)) × (etags.now ≡ Some given) }
    ensures { IfOk result (λ asked. (to : Target task.now) × (id : List ℕ) × (given : Reserved (List ℕ)) × (spare : ℕ)
        × (upload.now ≡ Some id) × (etags.now ≡ Some given) × (asked ≡ ask.Complete to.bucket to.key id
        (record { items = given.items; spare = spare }) task.now.fresh)) }
{
    let Some(etags) = etags else { unreachable!() };
    let etags = copy_all(alloc, etags)?;
    let made = upload_to(alloc, task, upload)?;
    Ok(Ask::Complete {
        bucket: made.to.bucket,
        key: made.to.key,
        upload: made.id,
        etags,
        fresh: task.fresh,
    })
}

fn abort(alloc: Global, task: &Task, upload: &Option<UploadId>) -> Result<Ask, OutOfMemory>
    requires to { Target task.now }
    requires upload { (id : List ℕ) × (upload.now ≡ Some id) }
    ensures { IfOk result (λ asked. (to : Target task.now) × (id : List ℕ) × (upload.now ≡ Some id)
        × (asked ≡ ask.Abort to.bucket to.key id)) }
{
    let made = upload_to(alloc, task, upload)?;
    Ok(Ask::Abort {
        bucket: made.to.bucket,
        key: made.to.key,
        upload: made.id,
    })
}

/// The request of a step of a task.
fn step(
    alloc: Global,
    id: JobId,
    task: &Task,
    range: (u64, u64),
    upload: &Option<UploadId>,
    etags: &Option<Texts>,
) -> Result<Ask, OutOfMemory>
    requires asks { (asked : Ask) × IsStepAsk task.now range upload.now etags.now id.op id.number asked }
    requires range { HasRange id.op id.number range }
    ensures { IfOk result (IsStepAsk task.now range upload.now etags.now id.op id.number) }
{
    match id.op {
        Op::Put => put(task),
        Op::Get => get(task, id.number, range),
        Op::Copy => copy(task),
        Op::Delete => delete(task),
        Op::Create => create(task),
        Op::Part => part(alloc, task, upload, id.number),
        Op::PartCopy => part_copy(alloc, task, upload, id.number, range),
        Op::Complete => complete(alloc, task, upload, etags),
        Op::Abort => abort(alloc, task, upload),
        Op::Head | Op::List | Op::Buckets => unreachable!(),
    }
}

fn head(bucket: &Text, key: &Text) -> Result<Ask, OutOfMemory>
    ensures { IfOk result (λ asked. asked ≡ ask.Head bucket.now key.now) }
{
    let object = object_of(bucket, key)?;
    Ok(Ask::Head {
        bucket: object.bucket,
        key: object.key,
    })
}

fn list(
    bucket: &Text,
    prefix: &Text,
    delimited: bool,
    token: &Option<Text>,
) -> Result<Ask, OutOfMemory>
    ensures { IfOk result (λ asked. asked ≡ ask.List bucket.now prefix.now delimited token.now) }
{
    Ok(Ask::List {
        bucket: bucket.copy()?,
        prefix: prefix.copy()?,
        delimited,
        token: Text::copy_option(token)?,
    })
}

/// A copy of a request of the planning.
fn planned(ask: &Ask) -> Result<Ask, OutOfMemory>
    requires { IsPlanning ask.now }
    ensures { IfOk result (λ asked. asked ≡ ask.now) }
{
    match ask {
        Ask::Head { bucket, key } => head(bucket, key),
        Ask::List {
            bucket,
            prefix,
            delimited,
            token,
        } => list(bucket, prefix, *delimited, token),
        Ask::Buckets => Ok(Ask::Buckets),
        _ => unreachable!(),
    }
}

/// The request of a job.
pub fn ask_of(alloc: Global, job: &Job) -> Result<Ask, OutOfMemory>
    ensures { IfOk result (IsAskOf job.now.id job.now.what) }
{
    match &job.what {
        What::Plan(ask) => planned(ask),
        What::Step {
            task,
            range,
            upload,
            etags,
        } => step(alloc, job.id, task, *range, upload, etags),
    }
}
