//! What an operator is told at the start of a night, and about its network.
//!
//! Each line is made from plain data, and has room in its text. Which lines are told at the start,
//! and in which order, is decided here too ([`start_lines`]). Nothing here opens, looks or tells
//! itself.
#![tactic(auto)]

mod booth_lines;
mod cid;
mod clock;
mod contents;
mod ending;
mod follow;
mod found_network;
mod lines;
mod night_source;
mod notices;
mod other_cards;
mod path_notices;
mod place;
mod record;
mod sends;
mod source_notices;
mod sources;
mod start;
mod start_network;
mod target_lines;

use arrayvec::ArrayString;
pub use booth_lines::keys_ignored_line;
pub use clock::{ClockText, clock_text};
pub use contents::{ContentsLine, contents_line};
pub use ending::{ending_line, input_ended_line, typed_end_line};
pub use follow::{
    FollowingLine, MainNight, leading_line, led_help_line, led_reason, led_reminder_line,
    main_line, missing_line, over_line, take_line,
};
pub use found_network::{FoundNetwork, host_told, night_sources, with_route};
pub use lines::{Line, Lines};
pub use night_source::{NightSource, NightSources};
pub use notices::{NoticeNetwork, notice_line};
pub use other_cards::{OtherCardsLine, other_cards_line};
pub use path_notices::{Way, path_notice_line};
pub use place::Place;
pub use record::{Recording, no_record_line, record_line};
pub use sends::{Transmission, sends_line};
pub use source_notices::{NoticeLine, source_notice_line};
pub use sources::{NoRouteLine, OriginLine, no_route_line, origin_line};
pub use start::{NightStart, StartShow, start_lines};
pub use start_network::{StartNetwork, are_cards_told, first_host};
pub use target_lines::{TargetLine, sole_target, target_line};

/// A line of what is sent, recorded or followed: 16 universes, or a file's name of 256 bytes, have
/// room.
pub type StartLine = ArrayString<400>;
