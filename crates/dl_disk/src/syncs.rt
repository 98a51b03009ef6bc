// When a folder's disk makes bytes durable.

/// When the disk of a folder makes written bytes durable.
///
/// A power cut takes bytes that no sync made durable, and leaves the new name or the new index that was made after
/// them. So a wrap log that rolled past such bytes may be left with none of its items. A power cut may also bring
/// back bytes that were cut off.
#[derive(Clone, Copy, Debug, Default, PartialEq, Eq)]
pub enum Syncs {
    /// At a sync, at a cut, and before a file is put or renamed. Before a put or a rename all files under its base
    /// are synced, except the one that a put replaces. This costs one more sync for each roll of a wrap log, and one
    /// for each open that cuts bad bytes.
    #[default]
    AtRolls,
    /// At a sync only.
    OnlyWhenAsked,
}
