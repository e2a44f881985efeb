//! master_core: no_such_master, group_highest and the `merged` of submaster_and_grand.

use super::rows::{S1, show_of};
use master_core::{Masters, NoMaster};
use std::test::Fail;

#[test]
fn no_such_master(rt: HostRuntime) -> Result<(), Fail> {
    let show = show_of(rt.alloc(), S1)?;
    let mut masters = Masters::new();
    assert!(rt; masters.set_sub(&show, 2, 10) == Err(NoMaster::NoSub));
    assert!(rt; masters.set_group(&show, 1, 10) == Err(NoMaster::NoGroup));
    assert!(rt; masters.grand() == 255);
    assert!(rt; masters.merged(&show, 1, 0) == 0);
    masters.set_grand(128);
    assert!(rt; masters.grand() == 128);
    Ok(())
}

#[test]
fn submaster_and_grand(rt: HostRuntime) -> Result<(), Fail> {
    let show = show_of(rt.alloc(), S1)?;
    let mut masters = Masters::new();
    assert!(rt; masters.set_sub(&show, 1, 128) == Ok(()));
    assert!(rt; masters.merged(&show, 1, 0) == 16384);
    assert!(rt; masters.set_sub(&show, 1, 255) == Ok(()));
    assert!(rt; masters.merged(&show, 1, 32640) == 32640);
    assert!(rt; masters.merged(&show, 2, 0) == 0);
    Ok(())
}

#[test]
fn group_highest(rt: HostRuntime) -> Result<(), Fail> {
    let show = show_of(rt.alloc(), b"GROUP 3\nCHAN 5@FL")?;
    let mut masters = Masters::new();
    assert!(rt; masters.set_group(&show, 3, 128) == Ok(()));
    assert!(rt; masters.merged(&show, 5, 0) == 32640);
    assert!(rt; masters.merged(&show, 5, 40000) == 40000);
    Ok(())
}
