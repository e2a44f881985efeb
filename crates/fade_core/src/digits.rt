ghost use Rattle.std.specs.Prelude.{◌≡◌, ◌↔◌, ◌+◌, ◌*◌, ◌/◌, ◌^◌, ◌≤◌};
ghost use Rattle.std.specs.Prelude.{IsTrue, if◌then◌else◌};

// A share by its digits of 16 bits: LLVM multiplies eight ways at a time by a digit.
#[derive(Clone, Copy, Debug)]
pub struct Digits {
    low: u16,
    middle: u16,
    high: u16,
    whole: u16,
    ghost at_most_one: { low + 2 ^ 16 * middle + 2 ^ 32 * high + 2 ^ 48 * whole ≤ 2 ^ 48 },
}

impl Digits {
    ghost use Rattle.fade_core.specs.Digits.{share_by};
    ghost use Rattle.fade_core.specs.Share.{level_between};

    // The digits of a share.
    pub fn of(share: u64) -> Self
        requires { share ≤ 2 ^ 48 }
        ensures { share_by result ≡ share }
    {
        Digits {
            low: (share % (1 << 16)) as u16,
            middle: (share / (1 << 16) % (1 << 16)) as u16,
            high: (share / (1 << 32) % (1 << 16)) as u16,
            whole: (share / (1 << 48)) as u16,
        }
    }

    // Whether the lowest digit is 0, as it is with short times.
    pub fn is_coarse(&self) -> bool
        ensures { IsTrue result ↔ (self.now.low ≡ 0) }
    {
        self.low == 0
    }

    // Whether it is coarse and no whole way.
    pub fn is_short(&self) -> bool
        ensures { IsTrue result ↔ (self.now.low ≡ 0) × (self.now.whole ≡ 0) }
    {
        self.low == 0 && self.whole == 0
    }

    // A copy, digit by digit, so that LLVM has each in a number of its own.
    #[inline(always)]
    pub fn copy(&self) -> Self
        ensures { result ≡ self.now }
    {
        Digits {
            low: self.low,
            middle: self.middle,
            high: self.high,
            whole: self.whole,
        }
    }

    // The same, where LLVM is told that the lowest digit is 0 and leaves it out.
    #[inline(always)]
    pub fn copied_coarse(&self) -> Self
        requires { self.now.low ≡ 0 }
        ensures { result ≡ self.now }
    {
        Digits {
            low: 0,
            middle: self.middle,
            high: self.high,
            whole: self.whole,
        }
    }

    // The same, where both the lowest digit and the whole are 0.
    #[inline(always)]
    pub fn copied_short(&self) -> Self
        requires low { self.now.low ≡ 0 }
        requires whole { self.now.whole ≡ 0 }
        ensures { result ≡ self.now }
    {
        Digits {
            low: 0,
            middle: self.middle,
            high: self.high,
            whole: 0,
        }
    }

    // The level of a channel that goes from `a` to `b`.
    #[inline(always)]
    #[tactic(auto, unfolding(crate::specs::Share::level_between))]
    pub fn level(a: u16, b: u16, rising: Digits, falling: Digits) -> u16
        ensures { result ≡ level_between a b (share_by rising) (share_by falling) }
    {
        let rises = a < b;
        let lower = a.min(b);
        let way = a.max(b) - lower;
        let gone = Digits::choose(rises, rising, falling).part_of(way);
        if rises {
            lower + gone
        } else {
            lower + (way - gone)
        }
    }

    #[inline(always)]
    fn choose(first: bool, a: Digits, b: Digits) -> Digits
        ensures { result ≡ (if first then a else b) }
    {
        Digits {
            low: pick(first, a.low, b.low),
            middle: pick(first, a.middle, b.middle),
            high: pick(first, a.high, b.high),
            whole: pick(first, a.whole, b.whole),
        }
    }

    // That share of the way.
    #[inline(always)]
    #[tactic(auto, using(crate::proofs::ByDigits::three_digits))]
    fn part_of(self, way: u16) -> u16
        ensures part { result ≡ way * share_by self / 2 ^ 48 }
        ensures most { result ≤ way }
    {
        let lower = carry(way, self.low, 0);
        let middle = carry(way, self.middle, lower);
        let upper = carry(way, self.high, middle);
        way * self.whole + upper
    }
}

#[inline(always)]
fn pick(first: bool, a: u16, b: u16) -> u16
    ensures { result ≡ (if first then a else b) }
{
    if first { a } else { b }
}

// One digit of a product, with what the digit below it carries. Its halves stay in 16 bits, so that
// LLVM multiplies eight at a time.
#[inline(always)]
fn carry(way: u16, digit: u16, below: u16) -> u16
    ensures { result ≡ (way * digit + below) / 2 ^ 16 }
{
    let low = way.wrapping_mul(digit);
    let high = ((u32::from(way) * u32::from(digit)) >> 16) as u16;
    let sum = low.wrapping_add(below);
    let carry = if sum < below { 1 } else { 0 };
    high.wrapping_add(carry)
}
