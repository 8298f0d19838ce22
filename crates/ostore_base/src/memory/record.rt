//! What a disk in memory needs to record its calls.

ghost use Rattle.std.specs.Prelude.{◌≡◌, ◌+◌, ◌≤◌, ◌↔◌, List, ℕ, IsTrue, IfOk, OnOk};
ghost use Rattle.std.specs.VecDeque.{deque_len, deque_capacity};
ghost use Rattle.ostore_base.specs.inside.Recorded.{first_of, IsUnsure};

use crate::list::ListOf;
use crate::memory::disk_call::DiskCall;
use crate::out_of_memory::OutOfMemory;
use std::collections::VecDeque;

/// Whether a sync makes a difference.
pub(super) fn is_unsure(past: &VecDeque<DiskCall>) -> bool
    ensures { IsTrue result ↔ IsUnsure past.now.items }
{
    match past.front() {
        Some(DiskCall::Written { .. }) | Some(DiskCall::Torn { .. }) => true,
        Some(DiskCall::Synced) | None => false,
    }
}

/// Makes room to record a write and a sync after it, and says whether there was memory.
pub(super) fn make_room(past: &mut VecDeque<DiskCall>) -> bool
    ensures items { past.new.items ≡ past.old.items }
    ensures len { deque_len past.new ≡ deque_len past.old }
    ensures capacity { deque_capacity past.old ≤ deque_capacity past.new }
    ensures room { IsTrue result → deque_len past.new + 2 ≤ deque_capacity past.new }
{
    past.reserve(2).is_ok()
}

/// Takes the memory to record a write of bytes, and a copy of them. What the disk held at first is
/// kept from then on.
pub(super) fn prepare(
    opening: &mut Option<Vec<u8>>,
    past: &mut VecDeque<DiskCall>,
    held: &[u8],
    bytes: &[u8],
) -> Result<ListOf<u8>, OutOfMemory>
    ensures copy { IfOk result (λ copy. copy ≡ bytes.now) }
    ensures first { first_of opening.new held.now ≡ first_of opening.old held.now }
    ensures fixed { OnOk result ((other : List ℕ)
        → first_of opening.new other ≡ first_of opening.old held.now) }
    ensures items { past.new.items ≡ past.old.items }
    ensures len { deque_len past.new ≡ deque_len past.old }
    ensures capacity { deque_capacity past.old ≤ deque_capacity past.new }
    ensures room { OnOk result (deque_len past.new + 2 ≤ deque_capacity past.new) }
{
    let alloc = *past.allocator();
    if opening.is_none() {
        *opening = Some(Vec::from_slice(alloc, held)?);
    }
    past.reserve(2)?;
    Ok(ListOf::from_vec(Vec::from_slice(alloc, bytes)?))
}
