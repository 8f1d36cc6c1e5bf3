ghost use Rattle.std.specs.Prelude.{◌≡◌, ◌≢◌};
ghost use Rattle.ap_session.specs.Session.{written_fault, fault_status};

use crate::report::Status;
use ap_list::NoMemory;
use ap_outside::{ReadFault, WriteFault};

/// Why a session ended before its end.
#[derive(Clone, Copy, Debug, PartialEq, Eq)]
pub(crate) enum Fault {
    /// The library failed at a read, which it counted.
    Read,
    /// The sink failed, which it counted.
    Write,
    NoMemory,
}

/// The status that a fault gives.
pub(crate) fn fault_status(fault: Fault) -> Status
    ensures { result ≡ fault_status fault }
{
    match fault {
        Fault::Read => Status::ReadFault,
        Fault::Write => Status::WriteFault,
        Fault::NoMemory => Status::NoMemory,
    }
}

impl From<NoMemory> for Fault {
    ghost use Rattle.std.specs.Prelude.{◌≡◌};
    ghost use Rattle.ap_session.specs.declared.fault.Fault.TheVariants.{NoMemory};

    ghost from_gives = { λ _ e. e ≡ NoMemory };

    fn from(_fault: NoMemory) -> Fault {
        Fault::NoMemory
    }
}

impl From<WriteFault> for Fault {
    ghost use Rattle.std.specs.Prelude.{◌≡◌};
    ghost use Rattle.ap_session.specs.Session.{written_fault};

    ghost from_gives = { λ f e. e ≡ written_fault f };

    fn from(fault: WriteFault) -> Fault {
        at_write(fault)
    }
}

/// A fault of reading.
pub(crate) fn at_read(fault: ReadFault) -> Fault
    ensures failed { result ≡ Fault.Read → fault ≡ ReadFault.Failed }
    ensures told { fault ≡ ReadFault.Failed → result ≡ Fault.Read }
    ensures unwritten { result ≢ Fault.Write }
{
    match fault {
        ReadFault::Failed => Fault::Read,
        ReadFault::NoMemory => Fault::NoMemory,
    }
}

/// A fault of writing.
pub(crate) fn at_write(fault: WriteFault) -> Fault
    ensures made { result ≡ written_fault fault }
    ensures failed { result ≡ Fault.Write → fault ≡ WriteFault.Failed }
    ensures told { fault ≡ WriteFault.Failed → result ≡ Fault.Write }
    ensures unread { result ≢ Fault.Read }
{
    match fault {
        WriteFault::Failed => Fault::Write,
        WriteFault::NoMemory => Fault::NoMemory,
    }
}
