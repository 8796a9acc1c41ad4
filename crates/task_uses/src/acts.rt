//! Four tasks, run.

ghost use Rattle.std.specs.Prelude.{◌≡◌, length};

use act_queues::{ActQueues, ActSort};
use std::process::Abort;
use std::test::Fail;

/// The least tasks that may call, with a part and without one, and that may give: with room and a part, with room alone,
/// with a part alone.
fn firsts(acts: &ActQueues) -> [Option<u32>; 5] {
    [
        acts.first_call(true),
        acts.first_call(false),
        acts.first_giving(true, true),
        acts.first_giving(true, false),
        acts.first_giving(false, true),
    ]
}

fn put_four(acts: &mut ActQueues)
    requires { length acts.old ≡ 100 }
    ensures { length acts.new ≡ 100 }
{
    acts.put(3, Some(ActSort::Read));
    acts.put(70, Some(ActSort::Call));
    acts.put(64, Some(ActSort::Get));
    acts.put(99, Some(ActSort::Job));
}

fn expect(rt: &impl Abort, acts: &ActQueues, wanted: [Option<u32>; 5]) {
    assert_eq!(rt; firsts(acts), wanted);
}

#[test]
fn the_least_task_that_can_move(rt: HostRuntime) -> Result<(), Fail> {
    let mut acts = ActQueues::make(rt.alloc(), 100)?;
    expect(&rt, &acts, [None, None, None, None, None]);
    put_four(&mut acts);
    expect(&rt, &acts, [Some(3), Some(70), Some(64), Some(99), None]);
    acts.put(70, None);
    expect(&rt, &acts, [Some(3), None, Some(64), Some(99), None]);
    Ok(())
}
