//! Names of a listing: in order, and below its prefix.

ghost use Rattle.std.specs.Prelude.{◌≡◌, ◌≢◌, ℕ, List, None, Some, OnOk, IfErr, map, nat_eq, option_copied};
ghost use Rattle.std.specs.List.{starts_with};
ghost use Rattle.list_walk.specs.Pages.{last_of, order_fault, prefix_fault, name_fault, names_fault};

use crate::items::Item;
use s3_model::{BadListing, Text};

fn out_of_order(before: &Text, after: &Text) -> BadListing
    ensures { result ≢ BadListing.Memory → result ≡ BadListing.Order before.now after.now }
{
    match (before.copy(), after.copy()) {
        (Ok(before), Ok(after)) => BadListing::Order { before, after },
        _ => BadListing::Memory,
    }
}

fn outside(name: &Text) -> BadListing
    ensures { result ≢ BadListing.Memory → result ≡ BadListing.Outside name.now }
{
    match name.copy() {
        Ok(name) => BadListing::Outside(name),
        Err(_) => BadListing::Memory,
    }
}

fn check_order(before: Option<&Text>, name: &Text) -> Result<(), BadListing>
    ensures ok { OnOk result (order_fault (option_copied before.entry) name.now ≡ None) }
    ensures err { IfErr result (λ fault. fault ≢ BadListing.Memory
        → order_fault (option_copied before.entry) name.now ≡ Some fault) }
{
    match before {
        Some(before) if before.as_str() >= name.as_str() => Err(out_of_order(before, name)),
        _ => Ok(()),
    }
}

fn begins_with(text: &str, prefix: &str) -> bool
    ensures { result ≡ starts_with nat_eq text.now prefix.now }
{
    text.starts_with(prefix)
}

fn check_prefix(prefix: &str, name: &Text) -> Result<(), BadListing>
    ensures ok { OnOk result (prefix_fault prefix.now name.now ≡ None) }
    ensures err { IfErr result (λ fault. fault ≢ BadListing.Memory → prefix_fault prefix.now name.now ≡ Some fault) }
{
    if begins_with(name.as_str(), prefix) {
        Ok(())
    } else {
        Err(outside(name))
    }
}

/// Whether a name may stand behind the one before it.
fn check_name(prefix: &str, before: Option<&Text>, name: &Text) -> Result<(), BadListing>
    ensures ok { OnOk result (name_fault prefix.now (option_copied before.entry) name.now ≡ None) }
    ensures err { IfErr result (λ fault. fault ≢ BadListing.Memory
        → name_fault prefix.now (option_copied before.entry) name.now ≡ Some fault) }
{
    check_order(before, name)?;
    check_prefix(prefix, name)
}

/// Whether names may stand one behind the other, and behind the one before them.
pub(crate) fn check_names<T: Item>(
    prefix: &str,
    before: Option<&Text>,
    items: &[T],
) -> Result<(), BadListing>
    ensures ok { OnOk result (names_fault prefix.now (option_copied before.entry) (map T.name_of items.now) ≡ None) }
    ensures err { IfErr result (λ fault. fault ≢ BadListing.Memory
        → names_fault prefix.now (option_copied before.entry) (map T.name_of items.now) ≡ Some fault) }
{
    let mut last = before;
    for item in items {
        check_name(prefix, last, item.name())?;
        last = Some(item.name());
    }
    Ok(())
}

/// The name of the last of them.
pub(crate) fn last_name<T: Item>(items: &[T]) -> Option<&Text>
    ensures { option_copied result ≡ last_of (map T.name_of items.now) }
{
    match items.last() {
        Some(item) => Some(item.name()),
        None => None,
    }
}
