ghost use Rattle.night_opening.specs.RefusedCards.{IsRefusedCard, IsRefusedRoute};
ghost use Rattle.packet_paths.specs.RefusedRoutes.{refusal_seen};

use network_tables::Cards;
use packet_paths::{NamedRefusal, RefusedRoute};
use remarks::{DownCards, JobFault, of_card, of_route};

/// Why a night is not sent by the card that its words name, on a machine with these cards.
pub fn of_refused_card(named: &str, refusal: &NamedRefusal, cards: &Cards) -> JobFault
    ensures { IsRefusedCard named.now refusal.now cards.now.rows.items result }
{
    let down = DownCards {
        names: refusal.hidden.names.as_str(),
        count: refusal.hidden.count,
    };
    JobFault::Words(of_card(named, refusal.reason, cards, down))
}

/// Why a night is not sent by the card that its words name: a route leads by another one.
pub fn of_refused_route(refused: &RefusedRoute) -> JobFault
    ensures { IsRefusedRoute (refusal_seen refused.now) result }
{
    let (card, other) = (refused.card.as_str(), refused.other.as_str());
    JobFault::Words(of_route(refused.host, card, other))
}
