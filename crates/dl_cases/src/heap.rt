// A heap whose memory is taken but for a little.
use linked_list_allocator::LocalHeap;
use std::alloc::{AllocError, Global};

/// The bytes of the heap that a hub has, and of the one in which its script is read.
pub const HEAP_BYTES: usize = 1_048_576;

/// The bytes of the least part of a heap.
pub const PART_BYTES: usize = 16;

// The most parts in which a heap is allocated.
const PARTS_LIMIT: usize = 1_000;

/// Allocates all of a heap except one part of so many bytes.
pub fn take_all_but<'h>(
    alloc: Global,
    heap: &'h LocalHeap,
    bytes: usize,
) -> Result<Vec<Vec<u8, &'h LocalHeap>>, AllocError> {
    let _left: Vec<u8, &LocalHeap> = Vec::with_capacity(heap, bytes)?;
    take_all(alloc, heap)
}

// Takes all of a heap, in parts that are as large as it has them.
fn take_all<'h>(
    alloc: Global,
    heap: &'h LocalHeap,
) -> Result<Vec<Vec<u8, &'h LocalHeap>>, AllocError> {
    let mut parts = Vec::new(alloc);
    let mut bytes = HEAP_BYTES;
    for _ in 0..PARTS_LIMIT {
        match Vec::with_capacity(heap, bytes) {
            Ok(part) => parts.push(part)?,
            Err(_) if bytes > PART_BYTES => bytes /= 2,
            Err(_) => break,
        }
    }
    Ok(parts)
}
