ghost use Rattle.std.specs.Prelude.{◌≤◌};

use crate::jobs::output;
use crate::reading::suitable_show;
use crate::standard::HeldStandard;
use cmd_faults::RunFault;
use cmd_play::play;
use cmd_words::Night;
use fade_core::StepFader;
use job_devices::JobOutput;
use remarks::{Failure, JobFault, LostPacket, Remark};
use show_jobs::{identity, seeming_remark};
use std::cell::RefCell;
use std::io::ErrorKind;
use system_devices::{Network, SharedNetwork, SystemInput};
use targets::TargetLink;

/// Plays the lines of standard input, and remarks what the file of the show seems to be, where that
/// is no show.
pub fn play_lines(rt: &HostRuntime, night: &Night) -> Result<Remark, JobFault>
    requires { night.now.priority ≤ 200 }
{
    let show = suitable_show(rt, night)?;
    let identity = identity(night)?;
    let held = HeldStandard::open(rt)?;
    let network = RefCell::new(held.open_network(rt, night)?);
    let mut link = link_of(rt, &network, night);
    let mut input = SystemInput::new(rt.stdin());
    let mut out = output(rt);
    let show = show.as_slice();
    let answer = play::<StepFader, _, _, _>(
        rt.alloc(),
        show,
        identity,
        night.base,
        &mut input,
        &mut link,
        &mut out,
    );
    night_end(answer, show, &network, out.failure())?;
    Ok(seeming_remark(rt.alloc(), show))
}

/// What sends the packets of a night.
pub fn link_of<'a>(
    rt: &'a HostRuntime,
    network: &'a RefCell<Network>,
    night: &Night,
) -> TargetLink<SharedNetwork<'a>> {
    TargetLink::new(SharedNetwork::new(rt, network), night.targets.copy())
}

/// How a night ended, with the packet that its network lost last.
pub fn night_end(
    answer: Result<(), RunFault>,
    show: &[u8],
    network: &RefCell<Network>,
    output: Option<ErrorKind>,
) -> Result<(), Failure> {
    let failure = match network.try_borrow() {
        Ok(network) => network.failure(),
        Err(_) => None,
    };
    let lost = failure.as_ref().map(|(address, kind)| LostPacket {
        address: address.as_str(),
        kind: *kind,
    });
    remarks::night_end(answer, show, lost, output)
}
