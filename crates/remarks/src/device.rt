ghost use Rattle.std.specs.Prelude.{◌≡◌};
ghost use Rattle.remarks.specs.Devices as spec;
ghost use Rattle.remarks.specs.Devices.{IsDeviceFailure, IsLockFailure, IsRecordFault};

use crate::failure::{Failure, JobFault};
use crate::refusal::Refusal;
use crate::remark::part;
use cmd_faults::RunFault;
use night_files::{DeviceFault, LockFault, RecordFault};

/// The line that is told where a night has no lock of its CID.
pub fn no_lock() -> &'static [u8]
    ensures { result.now ≡ spec.no_lock }
{
    part("cid: no lock can be made, so a second console of this CID would begin\n")
}

/// The lock of a CID is not had.
pub fn of_lock(fault: LockFault) -> Failure
    ensures { IsLockFailure fault result }
{
    match fault {
        LockFault::Held(path) => Failure::of_cid_lock(path.as_str()),
        LockFault::Memory => Failure::from(RunFault::Memory),
    }
}

/// A device is not had.
pub fn of_missing(fault: DeviceFault) -> Failure
    ensures { IsDeviceFailure fault result }
{
    match fault {
        DeviceFault::Device(name, kind) => Failure::of_device(name, kind),
        DeviceFault::Memory => Failure::from(RunFault::Memory),
    }
}

/// No record is kept in the file of this name.
pub fn of_record(name: &str, fault: RecordFault) -> JobFault
    ensures { IsRecordFault name.now fault result }
{
    match fault {
        RecordFault::NoFile => JobFault::Record(Refusal::no_record()),
        RecordFault::InUse(process) => JobFault::Record(Refusal::in_use(process)),
        RecordFault::File(kind) => JobFault::Run(Failure::of_device(name, kind)),
        RecordFault::NotEmpty => JobFault::Run(Failure::device(
            "the record's file is not empty: --resume goes on with it",
        )),
        RecordFault::NoLocks => JobFault::Run(Failure::device(
            "no lock can be made on the record: a spare could not tell who plays",
        )),
        RecordFault::Way(fault) => JobFault::Run(of_missing(fault)),
        RecordFault::Memory => JobFault::Run(Failure::from(RunFault::Memory)),
    }
}
