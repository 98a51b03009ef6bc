// Messages about a close at which the device failed.
ghost use Rattle.std.specs.Prelude.{◌≡◌};
ghost use Rattle.std.specs.Process.{exit_status};
ghost use Rattle.dlog.specs.Status.{closing_status};

use crate::FAILED;
use crate::faults::{Failure, Place, say, tell_failure};
use dl_disk::Reason;
use dl_pipe::{Closing, PipeFault};
use dl_types::{FileName, Name, Refusal};
use std::process::ExitCode;

/// Reports that a log was closed after all, though the device failed at one of its files in the first try.
pub fn tell_finished(rt: &HostRuntime, log: Name, file: FileName) {
    let _ = eprintln!(rt;
        "dlog: {log}: the device failed at {file} as the log was closed: it was tried again, and all was written"
    );
}

/// Reports what happens to a log that was not closed, since the device failed at each try.
pub fn tell_lingering(rt: &HostRuntime, what: &str) {
    say(
        rt,
        format_args!(
            "the close was tried again in vain: what waited in memory is lost, and the files have the {what} before that"
        ),
    );
}

/// Reports the result of closing a log that was repaired, by why the system refused a file last.
pub fn tell_closing(
    rt: &HostRuntime,
    place: Place<'_>,
    closing: Closing,
    reason: Option<Reason>,
) -> ExitCode
    ensures { exit_status result ≡ closing_status closing }
{
    match closing {
        Closing::Closed => ExitCode::SUCCESS,
        Closing::Finished(file) => {
            tell_finished(rt, place.log, file);
            ExitCode::SUCCESS
        }
        Closing::Lingers(file) => {
            let fault = PipeFault::Refused(Refusal::DeviceFault(file));
            let told = tell_failure(rt, place, Failure::of(fault, reason), FAILED);
            say(
                rt,
                "the close was tried again in vain: the log needs a repair still",
            );
            told
        }
        Closing::Refused(fault) => tell_failure(rt, place, Failure::of(fault, reason), FAILED),
    }
}
