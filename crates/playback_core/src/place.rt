ghost use Rattle.std.specs.Prelude.{◌≡◌, ◌^◌, ◌<◌, ◌≤◌, Bool, false, IsTrue, List, [], ◌∷◌};
ghost use Rattle.std.specs.Prelude.{Some, None, IfSome, IfNone};
ghost use Rattle.std.specs.Option.{OnSome};
ghost use Rattle.std.specs.FinMap as map;
ghost use Rattle.playback_core.specs.Placed.{IsPlaceAfter, cues_above};
ghost use Rattle.playback_core.specs.Played.{Move, current_after, due_moment, moves_by, is_by};

use show_core::Show;

/// A place in the cue list.
#[derive(Clone, Copy, Debug)]
pub struct Place {
    /// The current cue, in thousandths.
    pub current: Option<u32>,
    /// The moment at which the next cue follows it by itself, in milliseconds.
    pub due: Option<u64>,
}

impl Place {
    /// At no cue.
    pub(crate) fn start() -> Place
        ensures current { result.current ≡ None }
        ensures due { result.due ≡ None }
    {
        Place {
            current: None,
            due: None,
        }
    }

    /// At cue `n`, which went at this moment.
    pub(crate) fn at(show: &Show, n: u32, moment: u64) -> Place
        requires { moment < 2 ^ 48 }
        ensures current { result.current ≡ Some n }
        ensures due { let move : Move = record { cue = n; moment = moment; time = None } in
            result.due ≡ due_moment show.now false (move ∷ []) }
        ensures in_order { IfSome result.due (λ due. moment ≤ due) }
    {
        Place {
            current: Some(n),
            due: followed_at(show, n, moment),
        }
    }

    /// Whether the next cue is due by this moment.
    pub(crate) fn is_due(self, moment: u64) -> bool
        ensures { result ≡ is_by self.due moment }
    {
        self.due.is_some_and(|due| due <= moment)
    }

    /// Goes on to the next cue, where it is due by this moment, below 2^48: that cue, and the
    /// moment of the move.
    pub fn follow(&mut self, show: &Show, moment: u64) -> Option<(u32, u64)>
        requires { moment < 2 ^ 48 }
        ensures due { IfSome result (λ next. self.old.due ≡ Some next.1) }
        ensures by { IfSome result (λ next. next.1 ≤ moment) }
        ensures there { IfSome result (λ next. IsTrue (map.contains_key show.now.cues next.0)) }
        ensures in_order { IfSome result (λ next. IfSome self.new.due (λ due. next.1 ≤ due)) }
        ensures fewer { OnSome result (cues_above show.now.cues self.new.current
            < cues_above show.now.cues self.old.current) }
        ensures moved { IfSome result (λ next. (moves : List Move) (stopped : Bool)
            → IsPlaceAfter show.now self.old moves stopped
            → let move : Move = record { cue = next.0; moment = next.1; time = None } in
            IsPlaceAfter show.now self.new (move ∷ moves) stopped
            × (moves_by show.now stopped moment moves
            ≡ moves_by show.now stopped moment (move ∷ moves))) }
        ensures stays { IfNone result ((moves : List Move) (stopped : Bool)
            → IsPlaceAfter show.now self.old moves stopped
            → IsPlaceAfter show.now self.new moves stopped
            × (moves_by show.now stopped moment moves ≡ moves)) }
        ensures later { IfNone result (IfSome self.new.due (λ due. moment ≤ due)) }
    {
        if !self.is_due(moment) {
            return None;
        }
        let due = self.due.take()?;
        let n = show.next(self.current.unwrap_or(0))?;
        *self = Place::at(show, n, due);
        Some((n, due))
    }

    /// The cue that is current once the moves due by this moment are made.
    pub(crate) fn current_by(mut self, show: &Show, moment: u64) -> Option<u32>
        requires { moment < 2 ^ 48 }
        ensures { (moves : List Move) (stopped : Bool) → IsPlaceAfter show.now self moves stopped
            → result ≡ current_after (moves_by show.now stopped moment moves) }
    {
        while self.follow(show, moment).is_some() {}
        self.current
    }
}

// The moment at which the next cue follows cue `n`, which went at this moment.
fn followed_at(show: &Show, n: u32, moment: u64) -> Option<u64>
    requires { moment < 2 ^ 48 }
    ensures due { let move : Move = record { cue = n; moment = moment; time = None } in
        result ≡ due_moment show.now false (move ∷ []) }
    ensures in_order { IfSome result (λ due. moment ≤ due) }
{
    let _next = show.next(n)?;
    let time = show.cue(n)?.follow()?;
    Some(moment + u64::from(time))
}
