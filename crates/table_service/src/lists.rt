//! What a service in memory does for requests that list buckets or objects.

ghost use Rattle.std.specs.Prelude.{◌≡◌, ℕ, List, Option, IfOk, OnOk, OnErr, map};
ghost use Rattle.std.specs.FinMap.{keys};
ghost use Rattle.object_table.specs.Pages.{IsBehind};
ghost use Rattle.object_table.specs.Refused.{IsNotRefused};
ghost use Rattle.s3_model.specs.declared.answers.Reply.{Reply};
ghost use Rattle.s3_model.specs.declared.places.Entry.{Entry};
ghost use Rattle.s3_model.specs.declared.settings.Limits.{Limits};
ghost use Rattle.s3_service.specs.Listing.{GoesOnAfter};
ghost use Rattle.s3_service.specs.ServiceState.{HasBucket, State};
ghost use Rattle.s3_service.specs.Serves.{Succeeds};
ghost use Rattle.table_service.specs.Served.{IsList, IsServed};

use crate::requests::Manner;
use object_table::{ObjectTable, Query, TableFault};
use s3_model::{Ask, Entries, Entry, Listed, OutOfMemory, Text};
use service_answers::Gained;
use std::alloc::Global;

// A bucket of that name, made at that time.
fn bucket_entry(alloc: Global, name: &Text, micros: u64) -> Result<Entry, OutOfMemory>
    ensures { IfOk result (λ entry. entry.key ≡ name.now) }
{
    Ok(Entry {
        key: name.copy()?,
        size: 0,
        etag: Text::of(alloc, "")?,
        micros,
    })
}

// All buckets, each made at one time.
fn buckets(alloc: Global, table: &ObjectTable, micros: u64) -> Result<Entries, OutOfMemory>
    ensures { IfOk result (λ entries. map (λ (entry : Entry). entry.key) entries.items ≡ keys table.now.objects) }
{
    let names = table.buckets(alloc)?;
    let mut entries = Entries::make(alloc);
    for name in names.as_slice() {
        entries.reserve(1)?;
        entries.push(bucket_entry(alloc, name, micros)?);
    }
    Ok(entries)
}

// The next names of a listing, at most so many.
fn list(
    alloc: Global,
    table: &mut ObjectTable,
    bucket: &str,
    query: Query<'_>,
    token: &Option<Text>,
    most: usize,
) -> Result<Listed, TableFault>
    ensures bucket { OnOk result (HasBucket table.old bucket.now) }
    ensures behind { IfOk result (λ page. (last : Option (List ℕ)) × GoesOnAfter table.old token.now last ×
        IsBehind last page) }
    ensures objects { table.new.objects ≡ table.old.objects }
    ensures uploads { table.new.uploads ≡ table.old.uploads }
    ensures ended { table.new.ended ≡ table.old.ended }
    ensures same { OnErr result (table.new ≡ table.old) }
    ensures willing { (last : Option (List ℕ)) → GoesOnAfter table.old token.now last →
        HasBucket table.old bucket.now → IsNotRefused result }
{
    match token {
        Some(token) => table.list(alloc, bucket, query, Some(token.as_str()), most),
        None => table.list(alloc, bucket, query, None, most),
    }
}

/// Serves a request that lists buckets or objects.
pub(crate) fn serve_list(
    alloc: Global,
    table: &mut ObjectTable,
    manner: &Manner,
    ask: &Ask,
) -> Result<Gained, TableFault>
    requires { IsList ask.now }
    ensures served { IfOk result (λ gained. (limits : Limits) (body : List ℕ) →
        IsServed limits table.old ask.now body gained table.new) }
    ensures same { OnErr result (table.new ≡ table.old) }
    ensures willing { (limits : Limits) (body : List ℕ) (answered : Reply) (bytes : List ℕ) (new : State) →
        Succeeds limits table.old ask.now body answered bytes new → IsNotRefused result }
{
    match ask {
        Ask::List {
            bucket,
            prefix,
            delimited,
            token,
        } => {
            let query = Query {
                prefix: prefix.as_str(),
                delimited: *delimited,
            };
            let page = list(alloc, table, bucket.as_str(), query, token, manner.page)?;
            Ok(Gained::Listed(page))
        }
        Ask::Buckets => {
            let entries = buckets(alloc, table, manner.micros)?;
            Ok(Gained::Buckets(entries))
        }
        _ => unreachable!(),
    }
}
