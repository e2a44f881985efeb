use ascii_text::{Words, cue_number, level, number, same_word, time};
use show_core::{CHANNELS, DIMMERS, GROUPS, SUBMASTERS};
use show_line::{Keyword, LineFault};

// What a word is meant to be, by its place in a line.
#[derive(Clone, Copy)]
enum Role {
    Version,
    Cue,
    Group,
    Sub,
    Page,
    // Of a CHAN line; and of a triple, where it may be 0.
    Channel,
    PatchedChannel,
    Dimmer,
    Level,
    PatchLevel,
    Time,
    LastTime,
    // It is not looked at.
    Any,
}

/// The first of the words behind a keyword that has this fault by itself.
pub fn faulty_word<'a>(keyword: Keyword, fault: LineFault, words: Words<'a>) -> Option<&'a [u8]> {
    let mut role = first_role(keyword);
    for word in words {
        if fault_of(role, word) == Some(fault) {
            return Some(word);
        }
        role = next_role(keyword, role);
    }
    None
}

fn first_role(keyword: Keyword) -> Role {
    match keyword {
        Keyword::Ident => Role::Version,
        Keyword::Cue => Role::Cue,
        Keyword::Group => Role::Group,
        Keyword::Sub => Role::Sub,
        Keyword::Patch => Role::Page,
        Keyword::Chan => Role::Channel,
        Keyword::Up | Keyword::Down => Role::Time,
        Keyword::FollowOn => Role::LastTime,
        _ => Role::Any,
    }
}

fn next_role(keyword: Keyword, role: Role) -> Role {
    match role {
        Role::Cue | Role::Group | Role::Sub => Role::Page,
        Role::Page if matches!(keyword, Keyword::Patch) => Role::PatchedChannel,
        Role::PatchedChannel => Role::Dimmer,
        Role::Dimmer => Role::PatchLevel,
        Role::PatchLevel => Role::PatchedChannel,
        Role::Channel => Role::Level,
        Role::Level => Role::Channel,
        Role::Time => Role::LastTime,
        _ => Role::Any,
    }
}

fn fault_of(role: Role, word: &[u8]) -> Option<LineFault> {
    match role {
        Role::Version => fault_unless(same_word(word, b"3:0"), LineFault::Ident),
        Role::Cue => fault_unless(cue_number(word).is_some(), LineFault::BadNumber),
        Role::Page => fault_unless(number(word).is_some(), LineFault::BadNumber),
        Role::Group => number_fault(word, 1, GROUPS),
        Role::Sub => number_fault(word, 1, SUBMASTERS),
        Role::Channel => number_fault(word, 1, CHANNELS),
        Role::PatchedChannel => number_fault(word, 0, CHANNELS),
        Role::Dimmer => number_fault(word, 1, DIMMERS),
        Role::Level | Role::PatchLevel => fault_unless(level(word).is_some(), LineFault::BadLevel),
        Role::Time | Role::LastTime => fault_unless(time(word).is_some(), LineFault::BadTime),
        Role::Any => None,
    }
}

fn fault_unless(is_right: bool, fault: LineFault) -> Option<LineFault> {
    if is_right { None } else { Some(fault) }
}

fn number_fault(word: &[u8], least: u16, most: u16) -> Option<LineFault> {
    match number(word) {
        None => Some(LineFault::BadNumber),
        Some(n) if n < u32::from(least) || u32::from(most) < n => Some(LineFault::Limit),
        Some(_) => None,
    }
}
