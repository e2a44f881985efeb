ghost use Rattle.std.specs.Prelude.{◌≡◌, ◌≤◌, List, [], ◌∷◌, ◌++◌, take, length, true, false, IfOk};
ghost use Rattle.std.specs.Prelude.{OnErr};
ghost use Rattle.std.specs.Prelude.{Ok};
ghost use Rattle.live_machine.specs.Input.{CameFits, Wait, brought_by, fault, with_typed_end};
ghost use Rattle.live_machine.specs.Input.{read_brought, wait_for};
ghost use Rattle.live_machine.specs.declared.input.Came.TheVariants.{Bytes, End};

use arrayvec::ArrayVec;
use devices::LinkFault;
use std::io::ErrorKind;

/// What is typed is waited for so long at most, in milliseconds, before the network is looked at.
pub const TURN: u64 = 500;

/// What a wait brought.
#[derive(Clone, Copy, Debug, PartialEq, Eq)]
pub enum Came {
    /// So many bytes, at the front of the block.
    Bytes(usize),
    /// The end of the input: nothing more can come.
    End,
    /// An end of input that was typed at a terminal, as by control-D: more may be typed.
    TypedEnd,
    /// Nothing.
    Nothing,
}

impl Came {
    /// What a read brought, by its answer, and by whether a terminal is read.
    pub fn of_read(read: Result<usize, ErrorKind>, is_terminal: bool) -> Came
        ensures { result ≡ read_brought read is_terminal }
    {
        match read {
            Ok(0) if is_terminal => Came::TypedEnd,
            Ok(0) => Came::End,
            Ok(count) => Came::Bytes(count),
            Err(ErrorKind::Interrupted | ErrorKind::WouldBlock) => Came::Nothing,
            Err(_) => Came::End,
        }
    }
}

/// Where a night's lines are typed.
///
/// It *tells* where contracts can see for what it was waited, under the rules of an
/// [`Output`](devices::Output).
pub trait MachineInput {
    /// Contracts can see the waits.
    ghost tells: { Self → Type 0 };

    /// The waits, the first first.
    ghost waits: { Self → List Wait };

    /// Waits for bytes, or until so many milliseconds have passed, and writes the bytes to the
    /// front of the block.
    ///
    /// # Errors
    ///
    /// Where nothing can be waited for.
    fn wait(&mut self, milliseconds: u64, block: &mut [u8; 4096]) -> Result<Came, LinkFault>
        ensures told { tells self.new → tells self.old }
        ensures within { IfOk result CameFits }
        ensures ok { IfOk result (λ came. tells self.new → waits self.new ≡ waits self.old
            ++ record { most = milliseconds; brought = brought_by came block.new } ∷ []) }
        ensures err { OnErr result (tells self.new → waits self.new ≡ waits self.old
            ++ record { most = milliseconds; brought = fault } ∷ []) };
}

/// The input of a night: the machine's, and what was typed before the night led.
#[derive(Debug, Drop)]
pub struct NightInput<I> {
    pub input: I,
    /// The night ends with its input.
    pub ends_night: bool,
    /// What was typed already, and comes first.
    pub held: ArrayVec<u8, 4096>,
    /// The input ended behind that.
    pub has_ended: bool,
}

impl<I: MachineInput> NightInput<I> {
    /// An input of which nothing was typed yet.
    pub fn new(input: I, ends_night: bool) -> Self
        ensures { result ≡ record {
          input = input;
          ends_night = ends_night;
          held = record { items = [] };
          has_ended = false;
        } }
    {
        NightInput {
            input,
            ends_night,
            held: ArrayVec::new(),
            has_ended: false,
        }
    }

    /// Holds what was typed already, and whether the input ended behind it, until it is heard.
    pub fn hold(&mut self, typed: ArrayVec<u8, 4096>, has_ended: bool)
        ensures { self.new ≡ record self.old { held = typed; has_ended = has_ended } }
    {
        self.held = typed;
        self.has_ended = has_ended;
    }

    /// Waits for what is typed, from a moment to what is due, both in milliseconds from the start
    /// of the night, and at most [`TURN`]; and writes it to the front of the block. What was typed
    /// already comes first, and then that the input ended: neither is waited for.
    ///
    /// # Errors
    ///
    /// Where nothing can be waited for.
    pub fn hear(&mut self, moment: u64, due: u64, block: &mut [u8; 4096]) -> Result<Came, LinkFault>
        ensures told { I.tells self.new.input → I.tells self.old.input }
        ensures within { IfOk result CameFits }
        ensures held { 1 ≤ length self.old.held.items
            → (result ≡ Ok (Bytes (length self.old.held.items)))
            × (take (length self.old.held.items) block.new ≡ self.old.held.items)
            × (self.new ≡ record self.old { held = record { items = [] } }) }
        ensures ended { self.old.held.items ≡ [] → self.old.has_ended ≡ true
            → (result ≡ Ok End) × (self.new ≡ record self.old { has_ended = false }) }
        ensures waits { self.old.held.items ≡ [] → self.old.has_ended ≡ false
            → IfOk result (λ answer. (came : Came)
            × (answer ≡ with_typed_end self.old.ends_night came)
            × (I.tells self.new.input → I.waits self.new.input ≡ I.waits self.old.input
            ++ record { most = wait_for moment due; brought = brought_by came block.new } ∷ [])) }
        ensures fails { OnErr result ((self.old.held.items ≡ []) × (self.old.has_ended ≡ false)
            × (I.tells self.new.input → I.waits self.new.input ≡ I.waits self.old.input
            ++ record { most = wait_for moment due; brought = fault } ∷ [])) }
        ensures same { (self.new.ends_night ≡ self.old.ends_night)
            × (self.old.held.items ≡ [] → self.new.held ≡ self.old.held) }
    {
        let count = self.held.len();
        if count > 0 {
            block[..count].copy_from_slice(self.held.as_slice());
            self.held.clear();
            return Ok(Came::Bytes(count));
        }
        if self.has_ended {
            self.has_ended = false;
            return Ok(Came::End);
        }
        let most = due.saturating_sub(moment).min(TURN);
        match self.input.wait(most, block)? {
            Came::TypedEnd if self.ends_night => Ok(Came::End),
            came => Ok(came),
        }
    }
}
