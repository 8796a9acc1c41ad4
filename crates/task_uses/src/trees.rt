//! Each call once.

use minimum_tree::MinimumTree;
use std::alloc::AllocError;

#[test]
fn the_first_of_the_least_numbers_is_found(rt: HostRuntime) -> Result<(), AllocError> {
    let mut tree = MinimumTree::make(rt.alloc(), 5, 7)?;
    assert!(rt; tree.len() == 8);
    assert!(rt; tree.least() == 0);
    tree.set(3, 2);
    tree.set(4, 2);
    tree.set(0, 9);
    assert!(rt; tree.least() == 3);
    assert!(rt; tree.get(4) == 2);
    Ok(())
}
