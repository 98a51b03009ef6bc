// Messages about an append.
ghost use Rattle.std.specs.Prelude.{◌≡◌, IfOk, OnErr};
ghost use Rattle.std.specs.Process.{exit_status};
ghost use Rattle.dlog.specs.Status.{append_status};

use crate::closed::{tell_finished, tell_lingering};
use crate::faults::{Failure, Place, Whys, advise, say, tell_failure};
use crate::{FAILED, tell};
use dl_pipe::{Appended, Closing, Cut, PipeFault, Source, Stage, Stop, Syncs};
use dl_tool::Closed;
use dl_types::Refusal;
use std::process::ExitCode;

/// What the report on an append has to know of it.
#[derive(Clone, Copy)]
pub struct Report<'a> {
    pub place: Place<'a>,
    pub source: Source,
    pub syncs: Syncs,
    /// What the last file of the log was closed with, if it was closed.
    pub closed: Option<Closed>,
}

/// Reports the result of an append, unless all items were logged, nothing was repaired, and the device did not fail.
pub fn end(
    rt: &HostRuntime,
    report: Report<'_>,
    whys: Whys,
    done: Result<Appended, PipeFault>,
) -> ExitCode
    ensures appended { IfOk done (λ appended. exit_status result ≡ append_status appended.stopped) }
    ensures refused { OnErr done (exit_status result ≡ 1) }
{
    match done {
        Ok(appended) => tell_appended(rt, report, whys, appended),
        Err(fault) => tell_failure(rt, report.place, Failure { fault, whys }, FAILED),
    }
}

// Says what was repaired, whether the device failed at the close, and where the append stopped.
fn tell_appended(rt: &HostRuntime, report: Report<'_>, whys: Whys, appended: Appended) -> ExitCode
    ensures { exit_status result ≡ append_status appended.stopped }
{
    let log = report.place.log;
    if let Some(cut) = appended.repair {
        tell_repair(rt, report, cut);
    }
    if let Closing::Finished(file) = appended.closing {
        tell_finished(rt, log, file);
    }
    match appended.stopped {
        Some(stop) => tell_stop(rt, report, whys, stop, appended),
        None => ExitCode::SUCCESS,
    }
}

// Says what was repaired, and with how many items the last file was closed, if that was another number of them.
fn tell_repair(rt: &HostRuntime, report: Report<'_>, cut: Cut) {
    let log = report.place.log;
    let Cut { kept, bytes } = cut;
    let _ = match report.closed {
        Some(Closed { file, items }) if items != kept => eprintln!(rt;
            "dlog: {log}: repaired: {kept} items kept, {bytes} bytes cut; {file} was closed with {items} items"
        ),
        _ => eprintln!(rt; "dlog: {log}: repaired: {kept} items kept, {bytes} bytes cut"),
    };
}

// Says where an append stopped, which of the items that it took are kept, and what to do.
fn tell_stop(
    rt: &HostRuntime,
    report: Report<'_>,
    whys: Whys,
    stop: Stop,
    appended: Appended,
) -> ExitCode
    ensures { exit_status result ≡ 1 }
{
    let fault = stop.fault;
    let failure = Failure { fault, whys };
    let told = tell_stage(rt, report, failure, stop.at, appended.items);
    if let Closing::Lingers(_) = appended.closing {
        let (_, many) = words_of(report.source);
        tell_lingering(rt, many);
    }
    tell_kept(rt, report.place, appended);
    if let (Stage::Item, Syncs::Every(_)) = (stop.at, report.syncs) {
        tell_unsynced(rt, report, fault, appended.items);
    }
    advise(rt, report.place, failure);
    told
}

// Says that the item at which the device failed may be in the log: it is logged before it is synced.
fn tell_unsynced(rt: &HostRuntime, report: Report<'_>, fault: PipeFault, items: u64) {
    let Place { folder, log, .. } = report.place;
    let (one, _) = words_of(report.source);
    let next = items.saturating_add(1);
    if let PipeFault::Refused(Refusal::DeviceFault(_)) = fault {
        say(
            rt,
            format_args!(
                "{one} {next} may be in the log all the same: dlog check {folder} {log} counts what is there"
            ),
        );
    }
}

// Says at which stage an append stopped, after it had taken `items` items.
fn tell_stage(
    rt: &HostRuntime,
    report: Report<'_>,
    failure: Failure,
    at: Stage,
    items: u64,
) -> ExitCode
    ensures { exit_status result ≡ 1 }
{
    let log = report.place.log;
    let (one, many) = words_of(report.source);
    match at {
        Stage::Item => {
            let next = items.saturating_add(1);
            tell(
                rt,
                format_args!("{log}: {failure}: {items} {many} were taken, {one} {next} was not"),
                FAILED,
            )
        }
        Stage::Sync => tell(
            rt,
            format_args!(
                "{log}: {failure}: all {items} {many} were taken, but the last were not put on the device"
            ),
            FAILED,
        ),
        Stage::Close => tell(
            rt,
            format_args!(
                "{log}: {failure}: all {items} {many} were taken, but the log was not closed"
            ),
            FAILED,
        ),
    }
}

// What an item of the input is called, and several of them.
fn words_of(source: Source) -> (&'static str, &'static str) {
    match source {
        Source::Raw => ("item", "items"),
        Source::Lines | Source::Escaped => ("line", "lines"),
    }
}

// Says which of the items that were taken are kept, as far as that is known.
fn tell_kept(rt: &HostRuntime, place: Place<'_>, appended: Appended) {
    let Place { folder, log, .. } = place;
    let synced = appended.synced;
    match kept_of(appended) {
        Kept::Nothing => {}
        Kept::OnDevice => say(rt, "all that were taken are on the device"),
        Kept::InLog => say(
            rt,
            "all that were taken are in the log, which was closed, and may not be on the device yet",
        ),
        Kept::Synced if synced == 0 => say(
            rt,
            format_args!(
                "none is known to be on the device, and some may be lost: dlog check {folder} {log} counts what is there"
            ),
        ),
        Kept::Synced => say(
            rt,
            format_args!(
                "the first {synced} are on the device, and others may be lost: dlog check {folder} {log} counts what is there"
            ),
        ),
    }
}

// What is known of the items that an append took.
#[derive(Clone, Copy)]
enum Kept {
    // There are none.
    Nothing,
    // All were put on the device.
    OnDevice,
    // All are in the files of the log.
    InLog,
    // Those that were synced are on the device, and others may be lost.
    Synced,
}

// What is known of the items that an append took.
fn kept_of(appended: Appended) -> Kept {
    let Appended {
        items,
        synced,
        closing,
        ..
    } = appended;
    if items == 0 {
        Kept::Nothing
    } else if synced == items {
        Kept::OnDevice
    } else if closing.is_whole() {
        Kept::InLog
    } else {
        Kept::Synced
    }
}
