// What digests are of.
ghost use Rattle.std.specs.Prelude.{◌≡◌, List, false};
ghost use Rattle.std.specs.List.{flat_map};
ghost use Rattle.sha2.specs.Sha256.{sha256};
ghost use Rattle.dl_types.specs.declared.reply.Outcome.{Outcome};
ghost use Rattle.dl_pipe.specs.declared.form.Form.TheVariants as form;
ghost use Rattle.dl_pipe.specs.Reading.{items_of};
ghost use Rattle.dl_pipe.specs.Spot.{dump_text};
ghost use Rattle.dl_digest.specs.Digest.{digest_of};
ghost use Rattle.dl_digest.specs.Files.{by_file, parts_of};

use std::alloc::Allocator;

/// The digest of the items that chunks gave is the SHA-256 of the raw dump of these chunks.
pub fn digest_is_of_a_dump<A: Allocator>()
    ensures { (given : List (Outcome A)) → (digest_of (items_of given)).hash ≡ sha256 (dump_text form.Raw false given) }
{}

/// The items of the files, one file after another, are all items that the chunks gave.
pub fn files_have_all_items<A: Allocator>()
    ensures { (given : List (Outcome A)) → flat_map (λ file. file.items) (by_file (parts_of given)) ≡ items_of given }
{}
