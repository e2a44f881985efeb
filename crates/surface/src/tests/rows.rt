//! What the worked rows share.

use sacn_packet::SourceName;
use sacn_source::Identity;
use show_core::Show;
use show_reader::{ShowFault, read_show};
use std::alloc::{AllocError, Global};
use std::process::Abort;

/// c0ffee00-0000-4000-8000-00000000e131
pub const CID: [u8; 16] = [
    0xc0, 0xff, 0xee, 0x00, 0x00, 0x00, 0x40, 0x00, 0x80, 0x00, 0x00, 0x00, 0x00, 0x00, 0xe1, 0x31,
];

/// The show S1, of 12 lines.
pub const S1: &[u8] = b"IDENT 3:0\nCUE 1\nUP 5\nCHAN 1@FL\nCUE 2\nUP 2\nDOWN 4\nCHAN 2@FL\n\
SUB 1\nCHAN 1@50\nPATCH 1 1<1@FL 2<2@FL\nENDDATA\n";

/// S1 with FOLLOWON 10 after UP 5.
pub const FOLLOWED: &[u8] = b"IDENT 3:0\nCUE 1\nUP 5\nFOLLOWON 10\nCHAN 1@FL\nCUE 2\nUP 2\n\
DOWN 4\nCHAN 2@FL\nSUB 1\nCHAN 1@50\nPATCH 1 1<1@FL 2<2@FL\nENDDATA\n";

/// S1 with FOLLOWON 0 after UP 5.
pub const FOLLOWED_AT_ONCE: &[u8] = b"IDENT 3:0\nCUE 1\nUP 5\nFOLLOWON 0\nCHAN 1@FL\nCUE 2\nUP 2\n\
DOWN 4\nCHAN 2@FL\nSUB 1\nCHAN 1@50\nPATCH 1 1<1@FL 2<2@FL\nENDDATA\n";

/// The show of look_one.
pub const ONE_LAMP: &[u8] = b"IDENT 3:0\nCUE 1\nCHAN 1@H80\nPATCH 1 1<1@H80\nENDDATA\n";

/// A comment of so many bytes.
pub fn comment(alloc: Global, size: usize) -> Result<Vec<u8>, AllocError> {
    vec![in alloc; b'!'; size]
}

/// The show that a text means.
pub fn show_of(alloc: Global, text: &[u8]) -> Result<Show, ShowFault> {
    let loaded = read_show(alloc, text)?;
    Ok(loaded.show)
}

/// Who sends in the rows.
pub fn player(rt: &impl Abort) -> Identity {
    let name = SourceName::new("cueplayer").expect(rt, "a name");
    Identity::new(CID, name, 100).expect(rt, "a priority")
}

/// Whether slots 1 and 2 are these, and all others 0.
pub fn are_slots(slots: &[u8; 512], first: u8, second: u8) -> bool {
    slots[0] == first && slots[1] == second && slots[2..] == [0; 510]
}
