ghost use Rattle.std.specs.Prelude.{◌≡◌, ℕ, ◌+◌, ◌≤◌, List, [], ◌∷◌, length, OnOk, OnErr, IfErr};
ghost use Rattle.devices.specs.Tape.{with_more};
ghost use Rattle.sacn_receiver.specs.Kept.{StandsFor};
ghost use Rattle.cmd_listen.specs.Listening.{history_at_0, reply_line, Listens, NextFails};

use cmd_faults::RunFault;
use devices::{Datagrams, Output};
use sacn_receiver::{Receiver, reply_line, slots_line};

/// Receives so many datagrams as a receiver of the universe, and prints the reply to each and,
/// after the last one, the slots.
///
/// The universe is 1 to 63,999. Every datagram is taken at moment 0, so that no source is lost by
/// silence. Each line goes out by one write, before the next datagram is waited for. No memory is
/// taken.
///
/// # Errors
///
/// `Device` where the source failed, or a write.
pub fn listen<D: Datagrams, W: Output>(
    source: &mut D,
    universe: u16,
    count: u32,
    out: &mut W,
) -> Result<(), RunFault>
    requires from_1 { 1 ≤ universe }
    requires to_63999 { universe ≤ 63999 }
    ensures told_source { D.tells source.new → D.tells source.old }
    ensures told_output { W.tells out.new → W.tells out.old }
    ensures text { D.tells source.new → W.tells out.new → Listens result universe count
        (D.tape source.old) (D.tape source.new) (W.tape out.old) (W.tape out.new) }
    ensures fault { IfErr result (λ fault. fault ≡ RunFault.Device) }
{
    let mut receiver = Receiver::new(universe);
    for older in 0..count {
        reply_to_next(source, &mut receiver, older + 1, out)?;
    }
    let mut slots = [0; 512];
    receiver.slots(0, &mut slots);
    out.write(slots_line(&slots).as_str().as_bytes())?;
    Ok(())
}

// Takes the next datagram, at moment 0, and prints the reply to it under its number.
fn reply_to_next<D: Datagrams, W: Output>(
    source: &mut D,
    receiver: &mut Receiver,
    number: u32,
    out: &mut W,
) -> Result<(), RunFault>
    ensures told_source { D.tells source.new → D.tells source.old }
    ensures told_output { W.tells out.new → W.tells out.old }
    ensures universe { receiver.new.universe ≡ receiver.old.universe }
    ensures ok { OnOk result ((universe : ℕ) (older : List (List ℕ)) → receiver.old.universe
        ≡ universe
        → number ≡ length older + 1 → StandsFor receiver.old (history_at_0 universe older)
        → (datagram : List ℕ) × StandsFor receiver.new (history_at_0 universe (datagram ∷ older))
        × (D.tells source.new → D.tape source.new ≡ with_more (D.tape source.old) (datagram ∷ []))
        × (W.tells out.new → W.tape out.new
        ≡ with_more (W.tape out.old) (reply_line universe datagram older))) }
    ensures err { OnErr result (D.tells source.new → W.tells out.new → NextFails
        (D.tape source.old) (D.tape source.new) (W.tape out.old) (W.tape out.new)) }
    ensures fault { IfErr result (λ fault. fault ≡ RunFault.Device) }
{
    let mut datagram = [0; 1500];
    let length = source.receive(&mut datagram)?;
    let reply = receiver.take(0, &datagram[..length]);
    out.write(reply_line(u64::from(number), reply).as_str().as_bytes())?;
    Ok(())
}
