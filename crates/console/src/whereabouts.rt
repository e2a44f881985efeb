ghost use Rattle.std.specs.Prelude.{◌≡◌, ◌≤◌, ◌+◌, ◌++◌, List, length, codes};
ghost use Rattle.master_core.specs.Settings.{Setting, StandsFor};
ghost use Rattle.console.specs.WhereLine.{cue_part, groups_text, master_text, subs_text};
ghost use Rattle.console.specs.WhereLine.{where_line};

use crate::move_line::cue_number;
use arrayvec::ArrayString;
use itoa::Buffer;
use master_core::Masters;
use show_core::{GROUPS, SUBMASTERS};

/// The line of `where`: there is room for a moment of 20 digits, two cue numbers, the grand master,
/// and each submaster and each group at full.
pub type WhereLine = ArrayString<8320>;

/// The line of where a night is at a moment, in milliseconds: the current cue and the one that GO
/// would come to, in thousandths, the grand master, and each submaster and group that stands above
/// 0, with its byte.
pub fn where_line(
    moment: u64,
    current: Option<u32>,
    next: Option<u32>,
    masters: &Masters,
) -> WhereLine
    ensures { (settings : List Setting) → StandsFor masters.now settings
        → result.bytes ≡ where_line moment current next settings }
{
    let mut line = WhereLine::new();
    line.push_str(Buffer::new().format(moment));
    line.push_str(" where");
    push_cue(&mut line, " cue ", current);
    push_cue(&mut line, " next ", next);
    line.push_str(" master ");
    line.push_str(Buffer::new().format(masters.grand()));
    push_subs(&mut line, masters);
    push_groups(&mut line, masters);
    line.push_str("\n");
    line
}

fn push_cue(line: &mut WhereLine, word: &str, cue: Option<u32>)
    requires { length line.old.bytes + length word.now ≤ 100 }
    ensures text { line.new.bytes ≡ line.old.bytes ++ cue_part word.now cue }
    ensures room { length line.new.bytes ≤ length line.old.bytes + length word.now + 11 }
{
    if let Some(cue) = cue {
        line.push_str(word);
        line.push_str(cue_number(cue).as_str());
    }
}

fn push_subs(line: &mut WhereLine, masters: &Masters)
    requires { length line.old.bytes ≤ 100 }
    ensures text { (settings : List Setting) → StandsFor masters.now settings
        → line.new.bytes ≡ line.old.bytes ++ subs_text settings }
    ensures room { length line.new.bytes ≤ length line.old.bytes + 1200 }
{
    for n in 1..=SUBMASTERS {
        push_master(line, "sub", n, masters.sub(n));
    }
}

fn push_groups(line: &mut WhereLine, masters: &Masters)
    requires { length line.old.bytes ≤ 1300 }
    ensures text { (settings : List Setting) → StandsFor masters.now settings
        → line.new.bytes ≡ line.old.bytes ++ groups_text settings }
    ensures room { length line.new.bytes ≤ length line.old.bytes + 7000 }
{
    for n in 1..=GROUPS {
        push_master(line, "group", n, masters.group(n));
    }
}

fn push_master(line: &mut WhereLine, word: &str, n: u16, byte: u8)
    requires number { n ≤ 500 }
    requires word { length word.now ≤ 5 }
    requires room { length line.old.bytes ≤ 8300 }
    ensures text { line.new.bytes ≡ line.old.bytes ++ master_text word.now n byte }
    ensures room { length line.new.bytes ≤ length line.old.bytes + length word.now + 9 }
{
    if byte == 0 {
        return;
    }
    line.push_str(" ");
    line.push_str(word);
    line.push_str(" ");
    line.push_str(Buffer::new().format(n));
    line.push_str(":");
    line.push_str(Buffer::new().format(byte));
}
