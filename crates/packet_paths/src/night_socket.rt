/// A socket of a night.
#[derive(Clone, Copy, Debug, PartialEq, Eq)]
pub enum NightSocket {
    /// The one that is bound to no address: for hosts to which there was no route so far.
    Unbound,
    /// The one that is bound to the address of the source at this place: its multicast leaves by
    /// the card of that address, and by no other.
    Bound(usize),
    /// The one that is tied to the card of the source at this place: its packets leave by that card
    /// alone, and fail where the route leads by another.
    Tied(usize),
}
