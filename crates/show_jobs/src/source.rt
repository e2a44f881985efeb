ghost use Rattle.std.specs.Prelude.{◌≤◌};
ghost use Rattle.show_jobs.specs.Sources.{IsSourceOf};

use cmd_words::{Night, source_name};
use remarks::{JobFault, plain};
use sacn_packet::SourceName;
use sacn_source::Identity;

/// Who sends in a night.
///
/// # Errors
///
/// `Words` where the name is too long, or has a zero.
pub fn identity(night: &Night) -> Result<Identity, JobFault>
    requires { night.now.priority ≤ 200 }
    ensures { IsSourceOf night.now result }
{
    let Some(name) = SourceName::new(source_name(night)) else {
        return Err(JobFault::Words(plain("--name has at most 63 bytes, none of them zero")));
    };
    Ok(Identity::new(night.cid, name, night.priority).unwrap())
}
