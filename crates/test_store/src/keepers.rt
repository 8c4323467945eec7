//! A keeper that fails the calls that a list names.

use fixture_failing_keeper::FailingKeeper;
use fixture_keepers::failing_reads;
use keep_core::{Keeper, MemoryKeeper};
use snap_tree::{List, Text};
use std::alloc::Global;
use std::test::Fail;

fn numbers(alloc: Global, numbers: &[u64]) -> Result<List<u64>, Fail> {
    Ok(List::from_vec(Vec::from_slice(alloc, numbers)?))
}

// Which of the reading calls fail, made one after another.
fn failing<K: Keeper + Drop>(alloc: Global, mut keeper: K) -> Result<[bool; 8], Fail> {
    let name = Text::from_str(alloc, "a")?;
    Ok(failing_reads(alloc, &mut keeper, &name, &name, &name))
}

// The first call fails by the outer list and isn't passed on, so the inner keeper's second call is the third, and its fourth
// the sixth, behind the fifth, which isn't passed on either.
#[test]
fn a_call_that_the_list_names_is_not_passed_on(rt: HostRuntime) -> Result<(), Fail> {
    let inner = MemoryKeeper::new(rt.alloc(), numbers(rt.alloc(), &[2, 4])?);
    let keeper = FailingKeeper::new(inner, numbers(rt.alloc(), &[1, 5, 7])?);
    assert_eq!(rt;
        failing(rt.alloc(), keeper)?,
        [true, false, true, false, true, true, true, false]
    );
    Ok(())
}
