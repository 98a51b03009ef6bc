// No two requests have the same text.
ghost use Rattle.std.specs.Prelude.{◌≡◌};
ghost use Rattle.dl_wire.specs.declared.request.Request.{Request};
ghost use Rattle.dl_wire.specs.Fits.{IsRequest};
ghost use Rattle.dl_wire.specs.Request.{request_text};

use std::alloc::Allocator;

/// The law of requests: a text is that of one request at most.
pub fn a_text_is_one_request<A: Allocator>()
    ensures { (a b : Request A) → IsRequest a → IsRequest b → request_text a ≡ request_text b → a ≡ b }
{}
