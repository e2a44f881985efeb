ghost use Rattle.std.specs.Prelude.{◌≡◌, ◌∷◌, false, reverse};

use night_record::LineFront;

/// Keeps an event behind those before it, or sees that memory for it was refused.
pub fn note<E: Drop>(events: &mut Vec<E>, is_lost: &mut bool, event: E)
    ensures told { is_lost.new ≡ false → is_lost.old ≡ false }
    ensures kept { is_lost.new ≡ false
        → reverse events.new.items ≡ event ∷ reverse events.old.items }
{
    if events.push(event).is_err() {
        *is_lost = true;
    }
}

/// The same line.
pub fn copy(line: &LineFront) -> LineFront
    ensures { result ≡ line.now }
{
    let mut copied = LineFront::new();
    let _ = copied.try_extend_from_slice(line.as_slice());
    copied
}
