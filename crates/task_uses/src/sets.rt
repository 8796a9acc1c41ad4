//! A set, run.

ghost use Rattle.std.specs.Prelude.{◌≡◌, ◌<◌, length};

use number_sets::NumberSet;
use std::alloc::{AllocError, Global};
use std::test::Fail;

/// Puts a number in or takes it out; the least member then.
fn first_behind(set: &mut NumberSet, number: u32, is_member: bool) -> Option<u32>
    requires { number < length set.old }
    ensures { length set.new ≡ length set.old }
{
    set.put(number, is_member);
    set.first()
}

/// Two words of one word of the summary, and the last number, of another.
#[test]
fn the_least_member_is_found(rt: HostRuntime) -> Result<(), Fail> {
    let mut set = NumberSet::make(rt.alloc(), 10_000)?;
    let firsts = [
        set.first(),
        first_behind(&mut set, 9_999, true),
        first_behind(&mut set, 127, true),
        first_behind(&mut set, 64, true),
        first_behind(&mut set, 64, false),
        first_behind(&mut set, 0, true),
        first_behind(&mut set, 0, false),
        first_behind(&mut set, 127, false),
        first_behind(&mut set, 9_999, false),
    ];
    assert_eq!(rt;
        firsts,
        [
            None,
            Some(9_999),
            Some(127),
            Some(64),
            Some(127),
            Some(0),
            Some(127),
            Some(9_999),
            None
        ]
    );
    Ok(())
}

/// The least of so many numbers.
fn first_of_all(alloc: Global, count: u32) -> Result<Option<u32>, AllocError> {
    Ok(NumberSet::all(alloc, count)?.first())
}

#[test]
fn all_numbers_are_members(rt: HostRuntime) -> Result<(), Fail> {
    let firsts = [first_of_all(rt.alloc(), 65)?, first_of_all(rt.alloc(), 0)?];
    assert_eq!(rt; firsts, [Some(0), None]);
    Ok(())
}

#[test]
fn the_next_number_is_found(rt: HostRuntime) -> Result<(), Fail> {
    let mut set = NumberSet::all(rt.alloc(), 65)?;
    assert_eq!(rt; first_behind(&mut set, 0, false), Some(1));
    Ok(())
}
