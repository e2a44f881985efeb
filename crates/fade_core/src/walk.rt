ghost use Rattle.std.specs.Prelude.{◌≡◌, ℕ, ◌*◌, ◌+◌, ◌^◌, ◌<◌, ◌≤◌};
ghost use Rattle.std.specs.Prelude.{IsTrue, All, EachIndex, length, slice_index};
ghost use Rattle.std.specs.Ordering.{nat_cmp};
ghost use Rattle.std.specs.FinMap.{is_sorted};
ghost use Rattle.show_core.specs.Numbers.{AreLevels};
ghost use Rattle.fade_core.specs.Level.{byte_of, split_fade};
ghost use Rattle.fade_core.specs.Share.{AreMoved, level_between};
ghost use Rattle.fade_core.specs.Digits.{share_by};
ghost use Rattle.fade_core.specs.Stepping.{AreChannels, IsUnlisted};

use crate::digits::Digits;
use crate::share::Shares;
use crate::target::{Goal, aim};
use crate::ways::Ways;

// Fewer channels are taken one by one; more are quicker all together.
const FEW: usize = 1024;

// Puts each channel at its level. Each that is not among the first `count` of the list is there.
pub fn bring(levels: &mut [u16], ways: Ways<'_>, moving: &[u16], count: usize, shares: &Shares)
    requires from { length ways.from.now ≡ length levels.old }
    requires to { length ways.to.now ≡ length levels.old }
    requires count { count ≤ length moving.now }
    requires listed { AreChannels moving.now count (length levels.old) }
    requires others { (place : ℕ) → place < length levels.old → IsUnlisted moving.now count place
        → slice_index levels.old place ≡ level_between (slice_index ways.from.now place)
        (slice_index ways.to.now place) shares.now.rising shares.now.falling }
    ensures { let ways = ways.entry in
        AreMoved ways.from.now ways.to.now levels.new shares.now.rising shares.now.falling }
{
    let Ways { from, to } = ways;
    if count >= FEW {
        bring_all(levels, from, to, shares);
        return;
    }
    for index in 0..count {
        let place = usize::from(moving[index]) - 1;
        levels[place] = shares.level(from[place], to[place]);
    }
}

// The same, whatever the levels are.
fn bring_all(levels: &mut [u16], from: &[u16], to: &[u16], shares: &Shares)
    requires from { length from.now ≡ length levels.old }
    requires to { length to.now ≡ length levels.old }
    ensures { AreMoved from.now to.now levels.new shares.now.rising shares.now.falling }
{
    let rising = Digits::of(shares.rising);
    let falling = Digits::of(shares.falling);
    if shares.rising == shares.falling && rising.is_short() {
        walk_alike(levels, from, to, &rising);
    } else if rising.is_coarse() && falling.is_coarse() {
        walk_coarse(levels, from, to, &rising, &falling);
    } else {
        walk_fine(levels, from, to, &rising, &falling);
    }
}

// Out of line and by reference: else LLVM keeps the digits of a share in one number, and takes the
// channels one by one.
#[inline(never)]
fn walk_fine(levels: &mut [u16], from: &[u16], to: &[u16], rising: &Digits, falling: &Digits)
    requires from { length from.now ≡ length levels.old }
    requires to { length to.now ≡ length levels.old }
    ensures { AreMoved from.now to.now levels.new (share_by rising.now) (share_by falling.now) }
{
    walk(levels, from, to, rising.copy(), falling.copy());
}

#[inline(never)]
fn walk_coarse(levels: &mut [u16], from: &[u16], to: &[u16], rising: &Digits, falling: &Digits)
    requires from { length from.now ≡ length levels.old }
    requires to { length to.now ≡ length levels.old }
    requires rising { rising.now.low ≡ 0 }
    requires falling { falling.now.low ≡ 0 }
    ensures { AreMoved from.now to.now levels.new (share_by rising.now) (share_by falling.now) }
{
    walk(
        levels,
        from,
        to,
        rising.copied_coarse(),
        falling.copied_coarse(),
    );
}

// The same where what rises and what falls has gone one share of its way, and no whole one.
#[inline(never)]
fn walk_alike(levels: &mut [u16], from: &[u16], to: &[u16], share: &Digits)
    requires from { length from.now ≡ length levels.old }
    requires to { length to.now ≡ length levels.old }
    requires low { share.now.low ≡ 0 }
    requires whole { share.now.whole ≡ 0 }
    ensures { AreMoved from.now to.now levels.new (share_by share.now) (share_by share.now) }
{
    let share = share.copied_short();
    walk(levels, from, to, share, share);
}

#[inline(always)]
fn walk(levels: &mut [u16], from: &[u16], to: &[u16], rising: Digits, falling: Digits)
    requires from { length from.now ≡ length levels.old }
    requires to { length to.now ≡ length levels.old }
    ensures { AreMoved from.now to.now levels.new (share_by rising) (share_by falling) }
{
    for place in 0..levels.len() {
        levels[place] = Digits::level(from[place], to[place], rising, falling);
    }
}

// Sends each channel from its level to the goal, and answers how many have somewhere to go.
pub fn restart(
    from: &mut [u16],
    to: &mut [u16],
    levels: &mut [u16],
    moving: &mut [u16],
    goal: Goal<'_>,
) -> usize
    requires ascending { IsTrue (is_sorted nat_cmp goal.look.now) }
    requires in_range { All (λ pair. (1 ≤ pair.0) × (pair.0 ≤ length to.old)) goal.look.now }
    requires few { length from.old < 2 ^ 16 }
    requires to { length to.old ≡ length from.old }
    requires levels { length levels.old ≡ length from.old }
    requires moving { length moving.old ≡ length from.old }
    ensures from { from.new ≡ levels.old }
    ensures to { EachIndex to.new (λ place.
        slice_index to.new place ≡ 255 * byte_of goal.entry.look.now (place + 1)) }
    ensures full { AreLevels to.new }
    ensures levels { let goal = goal.entry in EachIndex levels.new (λ place.
        slice_index levels.new place ≡ split_fade (slice_index from.new place)
        (slice_index to.new place) goal.up goal.down 0) }
    ensures count { result ≤ length from.old }
    ensures listed { AreChannels moving.new result (length from.old) }
    ensures others { (place : ℕ) → place < length from.old → IsUnlisted moving.new result place
        → slice_index from.new place ≡ slice_index to.new place }
{
    let Goal { look, up, down } = goal;
    from.copy_from_slice(levels);
    aim(to, look);
    let count = list_moving(moving, from, to);
    let shares = Shares::at(up, down, 0);
    bring(levels, Ways { from, to }, moving, count, &shares);
    count
}

// Lists the channels that have somewhere to go, and answers how many.
fn list_moving(moving: &mut [u16], from: &[u16], to: &[u16]) -> usize
    requires few { length from.now < 2 ^ 16 }
    requires to { length to.now ≡ length from.now }
    requires room { length moving.old ≡ length from.now }
    ensures count { result ≤ length from.now }
    ensures listed { AreChannels moving.new result (length from.now) }
    ensures others { (place : ℕ) → place < length from.now → IsUnlisted moving.new result place
        → slice_index from.now place ≡ slice_index to.now place }
{
    let mut count = 0;
    for place in 0..from.len() {
        if from[place] != to[place] {
            moving[count] = place as u16 + 1;
            count += 1;
        }
    }
    count
}
