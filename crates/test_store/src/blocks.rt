//! Tests that the blocks of an arena are returned to the allocator that they came from.

use linked_list_allocator::LocalHeap;
use rx_arena::Store;
use std::process::Abort;

/// The number of bytes of a block of cells.
const BLOCK_BYTES: usize = 1024 * 48;

/// Aborts if another number of blocks is allocated from a heap. All other allocations together are
/// smaller than a block.
fn expect_blocks(rt: &impl Abort, heap: &LocalHeap, blocks: usize) {
    assert!(rt; heap.used() / BLOCK_BYTES == blocks);
}

/// Adds two blocks from a heap that has room for them; they are freed at the end.
fn take_two_blocks(rt: &impl Abort, heap: &LocalHeap) {
    let mut store = Store::new(heap);
    assert!(rt; store.grow().is_ok());
    expect_blocks(rt, heap, 1);
    assert!(rt; store.grow().is_ok());
    expect_blocks(rt, heap, 2);
}

/// Adds one block from a heap without room for a second one; it is freed at the end.
fn take_one_of_two_blocks(rt: &impl Abort, heap: &LocalHeap) {
    let mut store = Store::new(heap);
    assert!(rt; store.grow().is_ok());
    assert!(rt; store.grow().is_err());
    expect_blocks(rt, heap, 1);
}

#[test]
fn blocks_go_back(rt: HostRuntime) {
    let heap = LocalHeap::new(rt.alloc(), 3 * BLOCK_BYTES).expect(&rt, "a heap");
    take_two_blocks(&rt, &heap);
    assert!(&rt; heap.used() == 0);
}

#[test]
fn blocks_go_back_where_one_is_refused(rt: HostRuntime) {
    let heap = LocalHeap::new(rt.alloc(), 2 * BLOCK_BYTES).expect(&rt, "a heap");
    take_one_of_two_blocks(&rt, &heap);
    assert!(&rt; heap.used() == 0);
}
