// What is found of a log is what its open answers.
ghost use Rattle.std.specs.Prelude.{◌≡◌, ◌≢◌, ◌↔◌, true, false, None};
ghost use Rattle.dl_types.specs.declared.call.Call.TheVariants as call;
ghost use Rattle.dl_types.specs.declared.event.Event.TheVariants as event;
ghost use Rattle.dl_types.specs.declared.name.ClientId.{ClientId};
ghost use Rattle.dl_types.specs.declared.name.Name.{Name};
ghost use Rattle.dl_types.specs.declared.reply.Reply.TheVariants as reply;
ghost use Rattle.dl_types.specs.declared.size.Kind.{Kind};
ghost use Rattle.dl_types.specs.FileName.{Content};
ghost use Rattle.dl_types.specs.Alone.{alone};
ghost use Rattle.dl_types.specs.Mode.{plain_args};
ghost use Rattle.dl_types.specs.Name.{base_of};
ghost use Rattle.dl_types.specs.State.{LogState};
ghost use Rattle.dl_types.specs.State as files;
ghost use Rattle.dl_tool.specs.declared.finding.Finding.{Finding};
ghost use Rattle.dl_tool.specs.Finding.{IsFinding};
ghost use Rattle.dl_tool.specs.Report.{is_opened, is_unread};

use std::alloc::Allocator;

/// The law of a check, by the definitions alone. Take a log that could be read, and an open that asks for nothing but
/// a log of its kind. The check finds that the log is opened as it is if and only if the log is there and the open
/// answers that it was opened.
pub fn clean_is_opened<A: Allocator>()
    ensures { (client : ClientId) (name : Name) (kind : Kind) (s : LogState) (content : Content) (found : Finding) → s.open_as ≡ None → IsFinding A content (base_of name) kind (s.files (base_of name) kind) found
        → is_unread found ≡ false → (is_opened found ≡ true) ↔ ((s.files (base_of name) kind ≢ files.Absent) × ((alone {Z = A} name s (event.Call client name (call.Open (plain_args kind)))).reply ≡ reply.Opened)) }
{}
