// The options of an open.
ghost use Rattle.std.specs.Prelude.{◌≡◌, true, false, Bool, List, None, Some, Err, IfOk, IfErr, IfSome, IfNone, if◌then◌else◌};
ghost use Rattle.dl_types.specs.declared.size.Link.{Link};
ghost use Rattle.dl_types.specs.declared.size.Mode.{Mode};
ghost use Rattle.dl_types.specs.declared.size.Repair.{Repair};
ghost use Rattle.dl_types.specs.Mode.{plain_args};
ghost use Rattle.dl_app.specs.declared.options.Setting.{Setting};
ghost use Rattle.dl_app.specs.Items.{is_item, head_refusal};
ghost use Rattle.dl_app.specs.Words.{words_left};
ghost use Rattle.dl_app.specs.Options.{mode_word, repair_word, notify_word, link_word, WritesSetting, GiveSettings, SetAll};
ghost use Rattle.dl_app.specs.Settings.{no_settings, is_set, also_set, args_of};

use crate::items::{head_of, is_item};
use crate::words::{Words, size, small_number};
use dl_types::{Base, Fail, Kind, Link, Mode, OpenArgs, Repair, Size};
use std::alloc::Allocator;

/// What an option of an open sets.
#[derive(Clone, Copy)]
pub enum Setting<'a> {
    Base(Base),
    Size(Size),
    Mode(Mode),
    Repair(Repair),
    /// The word of the head item.
    Head(&'a [u8]),
    Notify(bool),
    Link(Link),
    /// The most blocks of the cache that the log may have at a time.
    Hold(u32),
}

/// What the options of an open have set.
#[derive(Clone, Copy)]
pub struct Settings<'a> {
    base: Option<Base>,
    size: Option<Size>,
    mode: Option<Mode>,
    repair: Option<Repair>,
    // The word of the head item.
    head: Option<&'a [u8]>,
    notify: Option<bool>,
    link: Option<Link>,
    hold: Option<u32>,
}

impl<'a> Settings<'a> {
    // Nothing is set.
    fn none() -> Settings<'a>
        ensures { result ≡ no_settings }
    {
        Settings {
            base: None,
            size: None,
            mode: None,
            repair: None,
            head: None,
            notify: None,
            link: None,
            hold: None,
        }
    }

    // These settings and one more, or `None` if one of its sort is among them.
    fn with(self, setting: Setting<'a>) -> Option<Settings<'a>>
        ensures { result ≡ (if is_set self.entry setting.entry then None else Some (also_set self.entry setting.entry)) }
    {
        match setting {
            Setting::Base(base) if self.base.is_none() => Some(Settings {
                base: Some(base),
                ..self
            }),
            Setting::Size(size) if self.size.is_none() => Some(Settings {
                size: Some(size),
                ..self
            }),
            Setting::Mode(mode) if self.mode.is_none() => Some(Settings {
                mode: Some(mode),
                ..self
            }),
            Setting::Repair(repair) if self.repair.is_none() => Some(Settings {
                repair: Some(repair),
                ..self
            }),
            Setting::Head(word) if self.head.is_none() => Some(Settings {
                head: Some(word),
                ..self
            }),
            Setting::Notify(notify) if self.notify.is_none() => Some(Settings {
                notify: Some(notify),
                ..self
            }),
            Setting::Link(link) if self.link.is_none() => Some(Settings {
                link: Some(link),
                ..self
            }),
            Setting::Hold(blocks) if self.hold.is_none() => Some(Settings {
                hold: Some(blocks),
                ..self
            }),
            _ => None,
        }
    }

    // Adds a setting, unless one of its sort is among them.
    fn add(&mut self, setting: Setting<'a>) -> Option<()>
        ensures added { IfSome result (λ _. (is_set self.old setting.entry ≡ false) × (self.new ≡ also_set self.old setting.entry)) }
        ensures twice { IfNone result (is_set self.old setting.entry ≡ true) }
    {
        *self = self.with(setting)?;
        Some(())
    }

    /// Makes the arguments of an open of a log of this kind, or returns why the head item cannot be made.
    pub fn args<A: Allocator>(self, alloc: A, kind: Kind) -> Result<OpenArgs<A>, Fail>
        ensures args { IfOk result (λ args. args ≡ args_of self.entry (plain_args kind)) }
        ensures refused { IfSome (head_refusal self.entry.head) (λ refusal. result ≡ Err (Fail.Refused refusal)) }
        ensures memory { IfNone (head_refusal self.entry.head) (IfErr result (λ fail. fail ≡ Fail.OutOfMemory)) }
    {
        let plain: OpenArgs<A> = OpenArgs::of(kind);
        Ok(OpenArgs {
            base: self.base,
            kind,
            size: self.size,
            mode: self.mode.unwrap_or(plain.mode),
            repair: self.repair.unwrap_or(plain.repair),
            head: head_of(alloc, self.head)?,
            notify: self.notify.unwrap_or(plain.notify),
            link: self.link.unwrap_or(plain.link),
            hold: self.hold,
        })
    }
}

/// The settings of options, or `None` if a word is no option or two are of one sort.
pub fn settings_in(options: Words<'_>) -> Option<Settings<'_>>
    ensures form { IfSome result (SetAll (words_left options.entry)) }
    ensures none { IfNone result ((settings : List Setting) → GiveSettings (words_left options.entry) settings → ⊥) }
{
    let mut settings = Settings::none();
    for option in options {
        settings.add(setting_in(option)?)?;
    }
    Some(settings)
}

// The setting that an option writes.
fn setting_in(option: &[u8]) -> Option<Setting<'_>>
    ensures form { IfSome result (λ setting. WritesSetting option.now setting) }
    ensures none { IfNone result ((setting : Setting) → WritesSetting option.now setting → ⊥) }
{
    if let Some(word) = option.strip_prefix(b"base=") {
        Some(Setting::Base(Base::parse(word)?))
    } else if let Some(word) = option.strip_prefix(b"size=") {
        Some(Setting::Size(size(word)?))
    } else if let Some(word) = option.strip_prefix(b"mode=") {
        Some(Setting::Mode(mode_in(word)?))
    } else if let Some(word) = option.strip_prefix(b"repair=") {
        Some(Setting::Repair(repair_in(word)?))
    } else if let Some(word) = option.strip_prefix(b"head=") {
        Some(Setting::Head(head_in(word)?))
    } else if let Some(word) = option.strip_prefix(b"notify=") {
        Some(Setting::Notify(notify_in(word)?))
    } else if let Some(word) = option.strip_prefix(b"link=") {
        Some(Setting::Link(link_in(word)?))
    } else {
        let word = option.strip_prefix(b"hold=")?;
        Some(Setting::Hold(small_number(word)?))
    }
}

// The mode that a word asks for.
fn mode_in(word: &[u8]) -> Option<Mode>
    ensures form { IfSome result (λ mode. word.now ≡ mode_word mode) }
    ensures none { IfNone result ((mode : Mode) → word.now ≡ mode_word mode → ⊥) }
{
    if word == b"rw".as_slice() {
        Some(Mode::ReadWrite)
    } else if word == b"ro".as_slice() {
        Some(Mode::ReadOnly)
    } else {
        None
    }
}

// The repair that a word asks for.
fn repair_in(word: &[u8]) -> Option<Repair>
    ensures form { IfSome result (λ repair. word.now ≡ repair_word repair) }
    ensures none { IfNone result ((repair : Repair) → word.now ≡ repair_word repair → ⊥) }
{
    if word == b"yes".as_slice() {
        Some(Repair::Yes)
    } else if word == b"no".as_slice() {
        Some(Repair::No)
    } else if word == b"truncate".as_slice() {
        Some(Repair::Truncate)
    } else {
        None
    }
}

// The word of a head item.
fn head_in(word: &[u8]) -> Option<&[u8]>
    ensures form { IfSome result (λ head. (is_item head.now ≡ true) × (head.now ≡ word.now)) }
    ensures none { IfNone result (is_item word.now ≡ true → ⊥) }
{
    if is_item(word) { Some(word) } else { None }
}

// Whether a word asks for the notices of a log.
fn notify_in(word: &[u8]) -> Option<bool>
    ensures form { IfSome result (λ notify. word.now ≡ notify_word notify) }
    ensures none { IfNone result ((notify : Bool) → word.now ≡ notify_word notify → ⊥) }
{
    if word == b"yes".as_slice() {
        Some(true)
    } else if word == b"no".as_slice() {
        Some(false)
    } else {
        None
    }
}

// The part in a log that a word asks for.
fn link_in(word: &[u8]) -> Option<Link>
    ensures form { IfSome result (λ link. word.now ≡ link_word link) }
    ensures none { IfNone result ((link : Link) → word.now ≡ link_word link → ⊥) }
{
    if word == b"owner".as_slice() {
        Some(Link::Owner)
    } else if word == b"anon".as_slice() {
        Some(Link::Anonymous)
    } else {
        None
    }
}
