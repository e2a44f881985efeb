ghost use Rattle.std.specs.Prelude.{◌≡◌, ◌≤◌, ◌+◌, ◌++◌, length, take};

use arrayvec::ArrayVec;
use devices::LinkFault;
use live_machine::{Came, MachineInput};
use memchr::memchr;

/// The first bytes of a line: one more than a line of a night may have, so that a longer one is
/// seen.
pub type LineFront = ArrayVec<u8, 201>;

/// Bytes that come in pieces, and are given in lines. A line whose LF has not come yet waits.
#[derive(Drop)]
pub struct NightLines {
    block: [u8; 4096],
    // So many bytes of the block came,
    came: usize,
    // and so many of these were looked at.
    seen: usize,
    // What was looked at of a line whose LF has not come yet.
    line: LineFront,
    // So many bytes came before those of the block,
    place: u64,
    // and so many were given in lines.
    taken: u64,
    ghost came_is_room: { came ≤ 4096 },
    ghost seen_came: { seen ≤ came },
}

impl NightLines {
    ghost use Rattle.std.specs.Prelude.{◌<◌, ◌∷◌, ◌^◌, ℕ, List, [], true, false, Ok};
    ghost use Rattle.std.specs.Prelude.{IfSome, IsNone, IsSome, IfOk, None, OnErr};
    ghost use Rattle.std.specs.List.{list_any};
    ghost use Rattle.ascii_text.specs.Text.{is_newline};
    ghost use Rattle.live_machine.specs.Input.{brought_by, fault};
    ghost use Rattle.live_machine.specs.declared.input.Came.TheVariants.{Nothing};
    ghost use Rattle.night_record.specs.Coming.{AsksBehind, KeepsPart, StandsFor, StandsForMore};
    ghost use Rattle.night_record.specs.Coming.{rest_in, bytes_given, typed_bytes, unseen_bytes};
    ghost use Rattle.night_record.specs.WholeLines.{line_fronts, whole_lines};

    /// No byte has come yet.
    pub fn new() -> Self
        ensures { StandsFor result [] [] }
    {
        NightLines {
            block: [0; 4096],
            came: 0,
            seen: 0,
            line: LineFront::new(),
            place: 0,
            taken: 0,
        }
    }

    /// The next line that is whole, without its LF; of a long one the first 201 bytes.
    pub fn next_line(&mut self) -> Option<LineFront>
        ensures line { IfSome result (λ line. (text : List ℕ) (given : List (List ℕ))
            → length text < 2 ^ 64 → StandsFor self.old text given
            → StandsFor self.new text (line.items ∷ given)) }
        ensures none { IsNone result → (text : List ℕ) (given : List (List ℕ))
            → length text < 2 ^ 64 → StandsFor self.old text given
            → StandsFor self.new text given × (given ≡ line_fronts text)
            × (unseen_bytes self.new ≡ []) }
    {
        let mut line = self.line.take();
        let unseen = &self.block[self.seen..self.came];
        let Some(length) = memchr(b'\n', unseen) else {
            keep_front(&mut line, unseen);
            self.seen = self.came;
            self.line = line;
            return None;
        };
        keep_front(&mut line, &unseen[..length]);
        self.seen += length + 1;
        self.taken = self.place.saturating_add(self.seen as u64);
        Some(line)
    }

    /// Whether a whole line came that was not given yet.
    pub fn has_line(&self) -> bool
        ensures { result ≡ list_any is_newline (unseen_bytes self.now) }
    {
        memchr(b'\n', &self.block[self.seen..self.came]).is_some()
    }

    /// How many bytes were given in lines, their LFs included.
    pub fn bytes_given(&self) -> u64
        ensures { result ≡ bytes_given self.now }
    {
        self.taken
    }

    /// What was not given in lines, at most 4,096 bytes: of a line that began the first 201, and
    /// what was not looked at.
    pub fn rest(&self) -> ArrayVec<u8, 4096>
        ensures { result.items ≡ rest_in self.now }
    {
        let mut rest = ArrayVec::new();
        keep_front(&mut rest, self.line.as_slice());
        keep_front(&mut rest, &self.block[self.seen..self.came]);
        rest
    }

    /// Waits at most so long for what is typed, in milliseconds. Where bytes came that were not
    /// looked at, it does not wait, and brings nothing.
    ///
    /// # Errors
    ///
    /// Where nothing can be waited for.
    pub fn hear<I: MachineInput>(
        &mut self,
        input: &mut I,
        milliseconds: u64,
    ) -> Result<Came, LinkFault>
        ensures told { I.tells input.new → I.tells input.old }
        ensures first { 1 ≤ length (unseen_bytes self.old)
            → (result ≡ Ok Nothing) × (self.new ≡ self.old) × (input.new ≡ input.old) }
        ensures ok { IfOk result (λ came. unseen_bytes self.old ≡ [] → (block : List ℕ)
            × StandsForMore self.old (typed_bytes came block) self.new
            × (I.tells input.new → I.waits input.new ≡ I.waits input.old
            ++ record { most = milliseconds; brought = brought_by came block } ∷ [])) }
        ensures err { OnErr result (StandsForMore self.old [] self.new
            × (I.tells input.new → I.waits input.new ≡ I.waits input.old
            ++ record { most = milliseconds; brought = fault } ∷ [])) }
    {
        if self.seen < self.came {
            return Ok(Came::Nothing);
        }
        self.begin_block();
        match input.wait(milliseconds, &mut self.block) {
            Ok(Came::Bytes(count)) => {
                self.came = count;
                Ok(Came::Bytes(count))
            }
            Ok(Came::End) => Ok(Came::End),
            Ok(Came::TypedEnd) => Ok(Came::TypedEnd),
            Ok(Came::Nothing) => Ok(Came::Nothing),
            Err(fault) => Err(fault),
        }
    }

    /// Makes room for what came since of a record that another process writes, and returns behind
    /// how many of its bytes that stands: of a file behind the lines that were given, since a night
    /// that goes on in it cuts off a part of a line; but not where a line is too long to be one of
    /// a night. `None` where bytes came that were not looked at.
    pub fn next_place(&mut self, is_file: bool) -> Option<u64>
        ensures first { 1 ≤ length (unseen_bytes self.old)
            → (result ≡ None) × (self.new ≡ self.old) }
        ensures room { IsSome result → unseen_bytes self.new ≡ [] }
        ensures place { IfSome result (λ place. AsksBehind is_file self.old self.new place) }
    {
        if self.seen < self.came {
            return None;
        }
        self.make_room(is_file);
        Some(self.place)
    }

    /// Takes up the next bytes, at most 4,096, for which there is room.
    pub fn take_up(&mut self, bytes: &[u8])
        requires room { unseen_bytes self.old ≡ [] }
        requires few { length bytes.now ≤ 4096 }
        ensures more { StandsForMore self.old bytes.now self.new }
        ensures unseen { unseen_bytes self.new ≡ bytes.now }
    {
        self.begin_block();
        fill_front(&mut self.block, bytes);
        self.came = bytes.len();
    }

    // The next bytes come to the front of the block: of a file those behind the whole lines.
    fn make_room(&mut self, is_file: bool)
        requires { unseen_bytes self.old ≡ [] }
        ensures keeps { KeepsPart is_file self.old self.new }
        ensures none { unseen_bytes self.new ≡ [] }
        ensures front { (self.new.seen ≡ 0) × (self.new.came ≡ 0) }
    {
        if is_file {
            self.read_again();
        } else {
            self.begin_block();
        }
    }

    fn read_again(&mut self)
        requires { unseen_bytes self.old ≡ [] }
        ensures keeps { KeepsPart true self.old self.new }
        ensures none { unseen_bytes self.new ≡ [] }
        ensures front { (self.new.seen ≡ 0) × (self.new.came ≡ 0) }
    {
        if self.line.is_full() {
            self.begin_block();
        } else {
            self.forget_line();
        }
    }

    // What came of a line that began is forgotten.
    fn forget_line(&mut self)
        requires { unseen_bytes self.old ≡ [] }
        ensures whole { (text : List ℕ) (given : List (List ℕ)) → length text < 2 ^ 64
            → StandsFor self.old text given → StandsFor self.new (whole_lines text) given }
        ensures none { unseen_bytes self.new ≡ [] }
        ensures front { (self.new.seen ≡ 0) × (self.new.came ≡ 0) }
    {
        self.line.clear();
        self.place = self.taken;
        self.came = 0;
        self.seen = 0;
    }

    // The next bytes come to the front of the block.
    fn begin_block(&mut self)
        requires { unseen_bytes self.old ≡ [] }
        ensures more { StandsForMore self.old [] self.new }
        ensures keeps { KeepsPart false self.old self.new }
        ensures none { unseen_bytes self.new ≡ [] }
        ensures front { (self.new.seen ≡ 0) × (self.new.came ≡ 0) }
    {
        self.place = self.place.saturating_add(self.came as u64);
        self.came = 0;
        self.seen = 0;
    }
}

// Puts bytes to the front of a block.
fn fill_front(block: &mut [u8; 4096], bytes: &[u8])
    requires { length bytes.now ≤ 4096 }
    ensures { take (length bytes.now) block.new ≡ bytes.now }
{
    block[..bytes.len()].copy_from_slice(bytes);
}

// Puts bytes behind others, as far as there is room.
fn keep_front<const CAP: usize>(kept: &mut ArrayVec<u8, CAP>, bytes: &[u8])
    ensures { kept.new.items ≡ take CAP (kept.old.items ++ bytes.now) }
{
    let room = kept.remaining_capacity().min(bytes.len());
    push(kept, &bytes[..room]);
}

fn push<const CAP: usize>(kept: &mut ArrayVec<u8, CAP>, bytes: &[u8])
    requires { length kept.old.items + length bytes.now ≤ CAP }
    ensures { kept.new.items ≡ kept.old.items ++ bytes.now }
{
    let _ = kept.try_extend_from_slice(bytes);
}
