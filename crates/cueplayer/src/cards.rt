use crate::jobs::of_socket_fault;
use cmd_words::{Name, Night};
use night_opening::{of_refused_card, of_refused_route};
use remarks::JobFault;
use system_devices::{Leaving, Network, NetworkRefusal, SocketFault, read_cards, source_by_name};

/// Opens the sockets of a night.
///
/// # Errors
///
/// `Words` where there is no card as it was named, or the route to a host leads by another one;
/// `Run` where the system refuses a socket.
pub fn open_network(
    rt: &HostRuntime,
    night: &Night,
    never_waits: bool,
) -> Result<Network, JobFault> {
    let leaving = Leaving {
        source: source_of(rt, night)?,
        is_any_route: night.any_route,
        ttl: night.ttl,
        never_waits,
    };
    Network::open(rt, &night.targets, leaving).map_err(of_network_refusal)
}

fn of_network_refusal(refusal: NetworkRefusal) -> JobFault {
    match refusal {
        NetworkRefusal::Socket(fault) => {
            JobFault::Run(of_socket_fault(SocketFault::of_night(fault)))
        }
        NetworkRefusal::Route(refused) => of_refused_route(&refused),
    }
}

// The address that packets come from, where a card is named.
fn source_of(rt: &HostRuntime, night: &Night) -> Result<Option<[u8; 4]>, JobFault> {
    let Some(named) = night.interface.as_ref().map(Name::as_str) else {
        return Ok(None);
    };
    let cards = read_cards(rt);
    match source_by_name(rt, named, &cards) {
        Ok(address) => Ok(Some(address)),
        Err(refusal) => Err(of_refused_card(named, &refusal, &cards)),
    }
}
