ghost use Rattle.std.specs.Prelude.{◌≡◌, ◌≤◌, IsSome, drop, vec_capacity, vec_len};
ghost use Rattle.line_queue.specs.Pipes.{is_passing};

use crate::{Notice, OutputLook, Pipe};
use std::alloc::{AllocError, Global};
use std::io::ErrorKind;

// So many bytes may wait until a pipe takes them.
const ROOM: usize = 65_536;

// So many are written at a time.
const PART: usize = 256;

// So many parts are handed on at a time.
const PARTS: usize = 16;

// At the end a pipe that takes nothing for so many milliseconds is waited for no more.
const PATIENCE: u64 = 1000;

/// Lines on their way to a pipe, which holds nobody up: what the pipe does not take at once waits,
/// up to 65,536 bytes. A line for which there is no room is dropped, and so are those behind it
/// until all that waits is taken; a notice then says how many were. After a write that failed
/// nothing more is written.
#[derive(Drop)]
pub struct LineQueue<P> {
    pub pipe: P,
    notice: Notice,
    waiting: Vec<u8>,
    // Bytes that the pipe took.
    taken: u64,
    // Lines that were dropped, and are not told of.
    dropped: u64,
    // Notices that were put in place of lines.
    gaps: u64,
    failure: Option<ErrorKind>,
    ghost room: { 65536 ≤ vec_capacity waiting },
    ghost bounded: { vec_len waiting ≤ 65536 },
    ghost over: { IsSome failure → vec_len waiting ≡ 0 },
}

impl<P: Pipe + Drop> LineQueue<P> {
    ghost use Rattle.std.specs.Prelude.{[], IfOk};
    ghost use Rattle.line_queue.specs.Pipes.{IsNewTape};
    ghost use Rattle.line_queue.specs.Stands.{HasRoom, StandsFor, notice_in};

    /// An empty queue in front of a pipe, with the words of its notices.
    ///
    /// # Errors
    ///
    /// If an allocation failed.
    pub fn new(alloc: Global, pipe: P, notice: Notice) -> Result<Self, AllocError>
        ensures stands { IfOk result (λ queue. P.tells queue.pipe → IsNewTape (P.tape queue.pipe)
            → StandsFor queue (P.tape queue.pipe) []) }
        ensures pipe { IfOk result (λ queue. queue.pipe ≡ pipe) }
        ensures notice { IfOk result (λ queue. notice_in queue ≡ notice) }
        ensures empty { IfOk result (λ queue. HasRoom queue []) }
    {
        Ok(LineQueue {
            pipe,
            notice,
            waiting: Vec::with_capacity(alloc, ROOM)?,
            taken: 0,
            dropped: 0,
            gaps: 0,
            failure: None,
        })
    }
}

impl<P: Pipe> LineQueue<P> {
    ghost use Rattle.std.specs.Prelude.{◌<◌, ◌+◌, ◌++◌, ◌∷◌, ◌&&◌, [], length, nat_eq, nat_le};
    ghost use Rattle.std.specs.Prelude.{IsNone, None};
    ghost use Rattle.line_queue.specs.Handing.{HandsOn, Puts, Takes};
    ghost use Rattle.line_queue.specs.Stands.{HasRoom, Keeps, TakesMore, dropped_in, failure_in};
    ghost use Rattle.line_queue.specs.Stands.{notice_in, waiting_in};

    /// Takes a line and hands it on, or drops it.
    pub fn put(&mut self, line: &[u8])
        ensures puts { Puts P.tells P.tape line.now self.old self.new }
        ensures over { IsSome (failure_in self.old) → self.new ≡ self.old }
    {
        self.take(line);
        self.hand_on();
    }

    /// Takes a line for the next time that lines are handed on, or drops it. So many lines cost no
    /// more calls of the system than their bytes do.
    pub fn take(&mut self, line: &[u8])
        ensures takes { Takes P.tells P.tape (line.now ∷ []) 16 0 self.old self.new }
        ensures kept { HasRoom self.old line.now → (self.new.pipe ≡ self.old.pipe)
            × (waiting_in self.new ≡ waiting_in self.old ++ line.now) × HasRoom self.new [] }
        // Where it is the first that is dropped, it does not fit behind what waits.
        ensures dropped { IsNone (failure_in self.new) → dropped_in self.new ≡ 1
            → 65536 < length (waiting_in self.new) + length line.now }
        ensures over { IsSome (failure_in self.old) → self.new ≡ self.old }
    {
        self.make_room(line);
        if self.failure.is_some() {
            return;
        }
        if self.can_keep(line) {
            let _ = self.waiting.extend_from_slice(line);
        } else {
            self.drop_line();
        }
    }

    // Hands on where a line does not fit behind what waits.
    fn make_room(&mut self, line: &[u8])
        ensures takes { Takes P.tells P.tape [] 16 0 self.old self.new }
        ensures no_drop { dropped_in self.new ≤ dropped_in self.old }
        ensures empty { waiting_in self.old ≡ [] → self.new ≡ self.old }
        ensures room { length (waiting_in self.old) + length line.now ≤ 65536
            → self.new ≡ self.old }
    {
        if self.has_room(line) {
            return;
        }
        self.hand_on();
    }

    // Whether a line can stand behind what waits.
    fn can_keep(&self, line: &[u8]) -> bool
        ensures { result ≡ (nat_eq (dropped_in self.now) 0
            && nat_le (length (waiting_in self.now) + length line.now) 65536) }
    {
        self.dropped == 0 && self.has_room(line)
    }

    // Whether a line fits behind what waits.
    fn has_room(&self, line: &[u8]) -> bool
        ensures { result ≡ nat_le (length (waiting_in self.now) + length line.now) 65536 }
    {
        line.len() <= ROOM - self.waiting.len()
    }

    /// Hands on what waits, as far as it is taken at once: 16 parts at most.
    pub fn hand_on(&mut self)
        ensures { HandsOn P.tells P.tape 16 0 self.old self.new }
    {
        self.write_parts(PARTS, 0);
    }

    /// Hands on what waits, as long as some of it is taken within a second.
    pub fn finish(&mut self)
        ensures { HandsOn P.tells P.tape 65536 1000 self.old self.new }
    {
        self.write_parts(ROOM, PATIENCE);
    }

    // Writes so many parts at most, as long as the pipe takes bytes within so many milliseconds.
    fn write_parts(&mut self, parts: usize, milliseconds: u64)
        ensures { HandsOn P.tells P.tape parts milliseconds self.old self.new }
    {
        for _ in 0..parts {
            if self.waiting.is_empty() {
                return;
            }
            if !self.pipe.takes_bytes(milliseconds) {
                return;
            }
            self.write_part();
        }
    }

    fn write_part(&mut self)
        requires { 0 < length (waiting_in self.old) }
        ensures told { P.tells self.new.pipe → P.tells self.old.pipe }
        ensures notice { notice_in self.new ≡ notice_in self.old }
        ensures stands { P.tells self.new.pipe → TakesMore [] self.old (P.tape self.old.pipe)
            self.new (P.tape self.new.pipe) }
        ensures once { P.tells self.new.pipe
            → (P.tape self.new.pipe).writes ≡ (P.tape self.old.pipe).writes + 1 }
        ensures no_wait { P.tells self.new.pipe
            → (P.tape self.new.pipe).wait ≡ (P.tape self.old.pipe).wait }
        ensures no_drop { dropped_in self.new ≤ dropped_in self.old }
        ensures kept { P.tells self.new.pipe → HasRoom self.old []
            → Keeps [] self.old (P.tape self.old.pipe) self.new (P.tape self.new.pipe) }
    {
        let count = self.waiting.len().min(PART);
        match self.pipe.write(&self.waiting.as_slice()[..count]) {
            Ok(count) => self.let_go(count),
            Err(kind) if is_passing(kind) => {}
            Err(kind) => self.fail(kind),
        }
    }
}

impl<P> LineQueue<P> {
    ghost use Rattle.std.specs.Prelude.{◌<◌, ◌++◌, ◌∷◌, [], List, ℕ, None, Some, false, length};
    ghost use Rattle.std.specs.Prelude.{take};
    ghost use Rattle.line_queue.specs.Entries.{IsQueueText};
    ghost use Rattle.line_queue.specs.Owed.{piped_bytes};
    ghost use Rattle.line_queue.specs.Pipes.{PipeTape, after_write};
    ghost use Rattle.line_queue.specs.Stands.{Accounts, StandsFor, dropped_in, failure_in, gaps_in};
    ghost use Rattle.line_queue.specs.Stands.{is_late, notice_in, bytes_taken, waiting_in};
    ghost use Rattle.line_queue.specs.Watches.{look_at};

    // A line for which there is no room was given.
    fn drop_line(&mut self)
        requires { failure_in self.old ≡ None }
        ensures stands { (line : List ℕ) (tape : PipeTape) (given : List (List ℕ))
            → StandsFor self.old tape given → StandsFor self.new tape (given ++ line ∷ []) }
        ensures pipe { self.new.pipe ≡ self.old.pipe }
        ensures notice { notice_in self.new ≡ notice_in self.old }
        ensures room { dropped_in self.new ≡ 1 → (dropped_in self.old ≡ 0)
            × (waiting_in self.new ≡ waiting_in self.old) }
    {
        self.dropped = self.dropped.saturating_add(1);
        self.tell_gap();
    }

    // So many bytes were taken.
    fn let_go(&mut self, count: usize)
        requires some { 0 < length (waiting_in self.old) }
        requires within { count ≤ length (waiting_in self.old) }
        ensures stands { (tape : PipeTape) (given : List (List ℕ)) → StandsFor self.old tape given
            → StandsFor self.new (after_write tape (take count (waiting_in self.old)) None) given }
        ensures pipe { self.new.pipe ≡ self.old.pipe }
        ensures notice { notice_in self.new ≡ notice_in self.old }
        ensures no_drop { dropped_in self.new ≤ dropped_in self.old }
        ensures kept { dropped_in self.old ≡ 0
            → (waiting_in self.new ≡ drop count (waiting_in self.old)) × (dropped_in self.new ≡ 0) }
    {
        self.taken = self.taken.saturating_add(count as u64);
        remove_front(&mut self.waiting, count);
        self.tell_gap();
    }

    // Puts a notice in place of the lines that were dropped, if nothing waits in front of it.
    fn tell_gap(&mut self)
        requires { failure_in self.old ≡ None }
        ensures stands { (tape : PipeTape) (given : List (List ℕ)) → Accounts self.old tape given
            → StandsFor self.new tape given }
        ensures pipe { self.new.pipe ≡ self.old.pipe }
        ensures notice { notice_in self.new ≡ notice_in self.old }
        ensures no_drop { dropped_in self.new ≤ dropped_in self.old }
        ensures still { 0 < dropped_in self.new → self.new ≡ self.old }
        ensures none { dropped_in self.old ≡ 0 → self.new ≡ self.old }
    {
        if self.dropped == 0 || !self.waiting.is_empty() {
            return;
        }
        let notice = self.notice.text(self.dropped);
        let _ = self.waiting.extend_from_slice(notice.as_str().as_bytes());
        self.dropped = 0;
        self.gaps = self.gaps.saturating_add(1);
    }

    // A write failed so.
    fn fail(&mut self, kind: ErrorKind)
        requires { is_passing kind ≡ false }
        ensures stands { (tape : PipeTape) (given : List (List ℕ)) → StandsFor self.old tape given
            → StandsFor self.new (after_write tape [] (Some kind)) given }
        ensures pipe { self.new.pipe ≡ self.old.pipe }
        ensures notice { notice_in self.new ≡ notice_in self.old }
        ensures dropped { dropped_in self.new ≡ dropped_in self.old }
        ensures failed { failure_in self.new ≡ Some kind }
    {
        self.failure = Some(kind);
        self.waiting.clear();
    }

    /// The system's reason where a write failed. Nothing is written any more then.
    pub fn failure(&self) -> Option<ErrorKind>
        ensures { result ≡ failure_in self.now }
    {
        self.failure
    }

    /// How many bytes the pipe took, up to 2^64 - 1.
    pub fn bytes_taken(&self) -> u64
        ensures { result ≡ bytes_taken self.now }
    {
        self.taken
    }

    /// How many bytes the process that writes its file was given, if there is one: 0 where a write
    /// failed.
    pub fn piped_bytes(&self) -> u64
        ensures { result ≡ piped_bytes (failure_in self.now) (bytes_taken self.now) }
    {
        match self.failure {
            Some(_) => 0,
            None => self.taken,
        }
    }

    /// How many times lines are missing, and a notice stands in their place, up to 2^64 - 1.
    pub fn gaps(&self) -> u64
        ensures { result ≡ gaps_in self.now }
    {
        self.gaps
    }

    /// Whether lines wait until they are taken, or were dropped and it is not told yet.
    pub fn is_late(&self) -> bool
        ensures late { result ≡ is_late self.now }
        ensures all { result ≡ false → failure_in self.now ≡ None → (tape : PipeTape)
            (given : List (List ℕ)) → StandsFor self.now tape given
            → IsQueueText (notice_in self.now) given tape.taken }
    {
        !self.waiting.is_empty() || self.dropped > 0
    }

    /// How the output is, for what an operator is told of it.
    pub fn look(&self) -> OutputLook
        ensures { result ≡ look_at self.now }
    {
        OutputLook {
            has_failed: self.failure.is_some(),
            is_late: self.is_late(),
            gaps: self.gaps,
        }
    }
}

fn is_passing(kind: ErrorKind) -> bool
    ensures { result ≡ is_passing kind }
{
    matches!(kind, ErrorKind::Interrupted | ErrorKind::WouldBlock)
}

fn remove_front(bytes: &mut Vec<u8>, count: usize)
    requires { count ≤ vec_len bytes.old }
    ensures items { bytes.new.items ≡ drop count bytes.old.items }
    ensures capacity { vec_capacity bytes.new ≡ vec_capacity bytes.old }
{
    let length = bytes.len();
    bytes.as_mut_slice().copy_within(count..length, 0);
    bytes.truncate(length - count);
}
