use super::end;

// The whole script of row `rehearse_basic`.
pub(super) const BASIC: &[u8] = b"console 1 100 c0ffee00-0000-4000-8000-00000000e131\nreceiver 1\n\
0 do 0 go\n1000 tick 0\n1000 deliver 0 0 1 0\n2000 tick 0\n\
2000 slots 0\n2010 deliver 0 0 1 1\n2010 slots 0\n2011 deliver 0 0 1 1\n2022 tick 0\n\
2030 do 0 go\n2030 do 0 go\n2031 deliver 0 0 1 2\n";

const BASIC_TEXT: &[u8] = b"3 ok\n4 live 1:s0\n5 taken 0\n6 live 1:s1\n7 slots 1:51\n\
8 taken 1\n9 slots 1:102\n10 ignored OutOfSequence\n11 refused TooSoon\n12 ok\n\
13 refused AtEnd\n14 skipped NotSent\nend 0 slots 1:102\n";

// The first lines of that.
pub(super) fn first_lines(count: u64) -> &'static [u8] {
    let mut left = count;
    for (place, byte) in BASIC_TEXT.iter().enumerate() {
        if left == 0 {
            return &BASIC_TEXT[..place];
        }
        if *byte == b'\n' {
            left -= 1;
        }
    }
    BASIC_TEXT
}

#[test]
fn rehearse_basic(rt: HostRuntime) {
    let (answer, out) = end(rt.alloc(), BASIC, (0, 0));
    assert!(rt; answer == Ok(()) && out.bytes.as_slice() == BASIC_TEXT);
}
