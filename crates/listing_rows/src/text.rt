//! The rows of a listing, one after the other in one text.

ghost use Rattle.std.specs.Prelude.{◌≡◌, ◌++◌, IfOk, OnOk, string_bytes};
ghost use Rattle.answer_dates.specs.Dates.{AreDated, IsDated};
ghost use Rattle.result_lines.specs.Rows.{IsBucketRow};
ghost use Rattle.listing_rows.specs.Listings.{AddsRows, AreRows, IsListingText, IsObjectRow, IsPrefixRow};

use crate::names::{key_name, prefix_name};
use list_walk::Pages;
use result_lines::{bucket_row, ls_prefix, ls_row};
use s3_model::{Entries, Entry, OutOfMemory, Text};
use std::alloc::Global;

fn add(rows: &mut String, row: &Text) -> Result<(), OutOfMemory>
    ensures { OnOk result (string_bytes rows.new ≡ string_bytes rows.old ++ row.now) }
{
    rows.push_str(row.as_str())?;
    Ok(())
}

fn object_row(alloc: Global, recursive: bool, entry: &Entry) -> Result<Text, OutOfMemory>
    requires { IsDated entry.now }
    ensures { IfOk result (IsObjectRow recursive entry.now) }
{
    ls_row(alloc, entry, key_name(recursive, entry.key.as_str()))
}

fn row_of_prefix(alloc: Global, recursive: bool, prefix: &Text) -> Result<Text, OutOfMemory>
    ensures { IfOk result (IsPrefixRow recursive prefix.now) }
{
    let name = prefix_name(alloc, recursive, prefix.as_str())?;
    ls_prefix(alloc, name.as_str())
}

/// Adds the rows of objects.
fn add_objects(
    alloc: Global,
    rows: &mut String,
    recursive: bool,
    entries: &[Entry],
) -> Result<(), OutOfMemory>
    requires { AreDated entries.now }
    ensures { OnOk result (AddsRows (IsObjectRow recursive) entries.now (string_bytes rows.old)
        (string_bytes rows.new)) }
{
    for entry in entries {
        let row = object_row(alloc, recursive, entry)?;
        add(rows, &row)?;
    }
    Ok(())
}

/// Adds the rows of prefixes.
fn add_prefixes(
    alloc: Global,
    rows: &mut String,
    recursive: bool,
    prefixes: &[Text],
) -> Result<(), OutOfMemory>
    ensures { OnOk result (AddsRows (IsPrefixRow recursive) prefixes.now (string_bytes rows.old)
        (string_bytes rows.new)) }
{
    for prefix in prefixes {
        let row = row_of_prefix(alloc, recursive, prefix)?;
        add(rows, &row)?;
    }
    Ok(())
}

/// Adds the rows of buckets.
fn add_buckets(alloc: Global, rows: &mut String, buckets: &[Entry]) -> Result<(), OutOfMemory>
    requires { AreDated buckets.now }
    ensures { OnOk result (AddsRows IsBucketRow buckets.now (string_bytes rows.old) (string_bytes rows.new)) }
{
    for bucket in buckets {
        let row = bucket_row(alloc, bucket)?;
        add(rows, &row)?;
    }
    Ok(())
}

/// What `ls` prints of a listing (AWS CLI Command Reference, `s3 ls`): the rows of all prefixes, and then those of all
/// objects, in the order in which they were listed.
///
/// Under `recursive` each has its whole name, else an object what follows the last `/` of its key, and a prefix its
/// last component with `/`. The times lie before the year 10000.
pub fn listing_text(alloc: Global, pages: &Pages, recursive: bool) -> Result<Text, OutOfMemory>
    requires dated { AreDated pages.now.gathered.entries }
    ensures rows { IfOk result (IsListingText recursive pages.now.gathered) }
{
    let mut rows = String::new(alloc);
    add_prefixes(alloc, &mut rows, recursive, pages.prefixes().as_slice())?;
    add_objects(alloc, &mut rows, recursive, pages.entries().as_slice())?;
    Ok(Text::from(rows))
}

/// What `ls` prints of the buckets of a service: a row of each, in the order in which they were listed. The times lie
/// before the year 10000.
pub fn buckets_text(alloc: Global, buckets: &Entries) -> Result<Text, OutOfMemory>
    requires dated { AreDated buckets.now.items }
    ensures rows { IfOk result (AreRows IsBucketRow buckets.now.items) }
{
    let mut rows = String::new(alloc);
    add_buckets(alloc, &mut rows, buckets.as_slice())?;
    Ok(Text::from(rows))
}
