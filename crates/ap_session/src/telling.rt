ghost use Rattle.std.specs.Prelude.{◌≡◌, ◌≤◌, Err, OnOk, OnErr};
ghost use Rattle.ap_outside.specs.Faults.{Rose};
ghost use Rattle.ap_outside.specs.Gains.{Gained, GainedPart};
ghost use Rattle.ap_session.specs.Session.{message_of};

use crate::report::Status;
use ap_outside::{Sink, WriteFault, put_all};

/// What stands on standard error: a line where a fault ended the session.
fn message(status: Status) -> &'static str
    ensures { result.now ≡ message_of status }
{
    match status {
        Status::Certified => "",
        Status::NotCertified => "",
        Status::Usage => "",
        Status::ReadFault => "acl2p: read fault\n",
        Status::WriteFault => "acl2p: write fault\n",
        Status::NoMemory => "acl2p: no memory\n",
    }
}

/// Puts what stands on standard error. Where the sink fails a prefix of it stands there.
pub fn tell<S: Sink>(status: Status, errors: &mut S) -> Result<(), WriteFault>
    ensures whole { OnOk result (Gained (S.content errors.old) (S.content errors.new) (message_of status)) }
    ensures part { OnErr result (GainedPart (S.content errors.old) (S.content errors.new) (message_of status)) }
    ensures later { S.faults errors.old ≤ S.faults errors.new }
    ensures failed { result ≡ Err WriteFault.Failed → Rose (S.faults errors.old) (S.faults errors.new) }
{
    put_all(errors, message(status).as_bytes())
}
