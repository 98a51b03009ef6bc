// Notices as text.
ghost use Rattle.std.specs.Prelude.{◌≡◌, ◌++◌, ℕ, List, IfErr, OnOk, codes};
ghost use Rattle.dl_types.specs.Printed.{refusal_text};
ghost use Rattle.dl_types.specs.Notice.{said_by};
ghost use Rattle.dl_app.specs.Notices.{IsChangeText, IsNoticeText, IsDeliveryText, AreDeliveryTexts, sent_text, told_text, truncated_text, wrap_text};

use crate::answer::push_items;
use crate::fault::ScriptFault;
use dl_types::{Change, ClientId, Delivery, Items, Name, Notice, Refusal, Status};
use std::alloc::Allocator;
use std::io::Write;

/// Adds notices in their order, with the client and the log of each.
pub fn push_notices<A: Allocator + Copy>(
    text: &mut Vec<u8, A>,
    deliveries: &[Delivery<A>],
) -> Result<(), ScriptFault>
    ensures text { OnOk result ((told : List ℕ) × AreDeliveryTexts deliveries.now told × (text.new.items ≡ text.old.items ++ told)) }
    ensures fault { IfErr result (λ e. e ≡ ScriptFault.OutOfMemory) }
{
    for delivery in deliveries {
        push_delivery(text, delivery)?;
    }
    Ok(())
}

// Adds a notice after a bar, with its client and its log.
fn push_delivery<A: Allocator + Copy>(
    text: &mut Vec<u8, A>,
    delivery: &Delivery<A>,
) -> Result<(), ScriptFault>
    ensures text { OnOk result ((told : List ℕ) × IsDeliveryText delivery.now told × (text.new.items ≡ text.old.items ++ told)) }
    ensures fault { IfErr result (λ e. e ≡ ScriptFault.OutOfMemory) }
{
    push_told(text, delivery.client(), delivery.log())?;
    push_notice(text, delivery.notice())
}

// Adds a bar, the client and the log.
fn push_told<A: Allocator>(
    text: &mut Vec<u8, A>,
    client: ClientId,
    log: Name,
) -> Result<(), ScriptFault>
    ensures text { OnOk result (text.new.items ≡ text.old.items ++ told_text client log) }
    ensures fault { IfErr result (λ e. e ≡ ScriptFault.OutOfMemory) }
{
    write!(text, " | {client} {log} ").map_err(|_| ScriptFault::OutOfMemory)
}

// Adds what a notice says.
fn push_notice<A: Allocator + Copy>(
    text: &mut Vec<u8, A>,
    notice: &Notice<A>,
) -> Result<(), ScriptFault>
    ensures text { OnOk result ((said : List ℕ) × IsNoticeText (said_by notice.now) said × (text.new.items ≡ text.old.items ++ said)) }
    ensures fault { IfErr result (λ e. e ≡ ScriptFault.OutOfMemory) }
{
    match notice {
        Notice::Change(change) => push_change(text, *change),
        Notice::ReadOnly(items) => push_sent(text, b"readonly", items),
        Notice::Blocked(items) => push_sent(text, b"blocked", items),
        Notice::NoSuchLog => push_bytes(text, b"nosuchlog"),
    }
}

// Adds a word, and items that were sent and not logged.
fn push_sent<A: Allocator>(
    text: &mut Vec<u8, A>,
    word: &[u8],
    items: &Items<A>,
) -> Result<(), ScriptFault>
    ensures text { OnOk result (text.new.items ≡ text.old.items ++ sent_text word.now items.now) }
    ensures fault { IfErr result (λ e. e ≡ ScriptFault.OutOfMemory) }
{
    text.extend_from_slice(word)?;
    push_items(text, items.as_slice())?;
    Ok(())
}

// Adds how a log has changed.
fn push_change<A: Allocator + Copy>(
    text: &mut Vec<u8, A>,
    change: Change,
) -> Result<(), ScriptFault>
    ensures text { OnOk result ((said : List ℕ) × IsChangeText change said × (text.new.items ≡ text.old.items ++ said)) }
    ensures fault { IfErr result (λ e. e ≡ ScriptFault.OutOfMemory) }
{
    match change {
        Change::Wrap(count) => push_wrap(text, count),
        Change::Truncated(count) => push_truncated(text, count),
        Change::Full => push_bytes(text, b"full"),
        Change::ErrorStatus(Status::Ok) => push_bytes(text, b"status ok"),
        Change::ErrorStatus(Status::Fault(refusal)) => push_status(text, refusal),
    }
}

// Adds how many items are gone with the files that the next one replaced.
fn push_wrap<A: Allocator>(text: &mut Vec<u8, A>, count: u64) -> Result<(), ScriptFault>
    ensures text { OnOk result (text.new.items ≡ text.old.items ++ wrap_text count) }
    ensures fault { IfErr result (λ e. e ≡ ScriptFault.OutOfMemory) }
{
    write!(text, "wrap {count}").map_err(|_| ScriptFault::OutOfMemory)
}

// Adds how many items an emptied log is said to lose.
fn push_truncated<A: Allocator>(text: &mut Vec<u8, A>, count: u64) -> Result<(), ScriptFault>
    ensures text { OnOk result (text.new.items ≡ text.old.items ++ truncated_text count) }
    ensures fault { IfErr result (λ e. e ≡ ScriptFault.OutOfMemory) }
{
    write!(text, "truncated {count}").map_err(|_| ScriptFault::OutOfMemory)
}

// Adds an error status.
fn push_status<A: Allocator>(text: &mut Vec<u8, A>, refusal: Refusal) -> Result<(), ScriptFault>
    ensures text { OnOk result (text.new.items ≡ text.old.items ++ (codes "status " ++ refusal_text refusal)) }
    ensures fault { IfErr result (λ e. e ≡ ScriptFault.OutOfMemory) }
{
    write!(text, "status {refusal}").map_err(|_| ScriptFault::OutOfMemory)
}

// Adds bytes as they are.
fn push_bytes<A: Allocator>(text: &mut Vec<u8, A>, bytes: &[u8]) -> Result<(), ScriptFault>
    ensures text { OnOk result (text.new.items ≡ text.old.items ++ bytes.now) }
    ensures fault { IfErr result (λ e. e ≡ ScriptFault.OutOfMemory) }
{
    text.extend_from_slice(bytes)?;
    Ok(())
}
