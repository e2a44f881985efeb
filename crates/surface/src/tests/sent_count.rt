//! sacn_source's `sent`.

use super::links::TestLink;
use super::rows::player;
use sacn_source::Sender;
use std::test::Fail;

// Lost ones included, 0 for any other universe.
#[test]
fn sent(rt: HostRuntime) -> Result<(), Fail> {
    let dark = [0; 512];
    let mut link = TestLink::failing(rt.alloc(), 1);
    let mut sender = Sender::open(rt.alloc(), player(&rt), &[1])?;
    assert!(rt; sender.sent(1) == 0);
    let _first = sender.offer(0, 1, &dark, &mut link);
    let _second = sender.offer(25, 1, &dark, &mut link);
    let _last = sender.terminate(1, &mut link);
    let sent: u64 = sender.sent(1);
    assert!(rt; sent == 3);
    assert!(rt; sender.sent(2) == 0);
    Ok(())
}
