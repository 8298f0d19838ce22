//! Writes that a sync makes sure of.

ghost use Rattle.std.specs.Prelude.{◌≡◌, ◌+◌, ◌^◌, ◌≤◌, ◌<◌, length, is_some, IfSome, OnOk};
ghost use Rattle.std.specs.Option.{option_map};
ghost use Rattle.ostore_base.specs.Faults.{HasCause};
ghost use Rattle.ostore_base.specs.Limits.{longest_disk};
ghost use Rattle.ostore_base.specs.Disk.{replaced, IsTornRange};
ghost use Rattle.ostore_base.specs.Images.{IsSure, LeavesOnly, OfTold, IsTornAtGate, opened_at};

use crate::outside::{Disk, Failed};

/// Writes bytes at a place and syncs. A crash at any moment of it, and a failure, leaves all bytes
/// outside the range as they were.
pub fn write_synced<D: Disk>(disk: &mut D, at: u64, bytes: &[u8]) -> Result<(), Failed>
    requires inside { IfSome (D.content disk.old) (λ held. at ≤ length held) }
    requires small { at + length bytes.now ≤ 2 ^ 40 }
    requires sure { IsSure (D.content disk.old) (D.may_leave disk.old) }
    ensures written { OnOk result
        (D.content disk.new ≡ option_map (replaced at bytes.now) (D.content disk.old)) }
    ensures within { OnOk result (at + length bytes.now ≤ longest_disk) }
    ensures tells { is_some (D.content disk.new) ≡ is_some (D.content disk.old) }
    ensures sure { OnOk result (IsSure (D.content disk.new) (D.may_leave disk.new)) }
    ensures any_moment { LeavesOnly D.moment D.left_since disk.old disk.new
        (OfTold (D.content disk.old) (IsTornRange at (length bytes.now))) }
    ensures cause { HasCause (D.faults disk.old) (D.faults disk.new) result }
{
    disk.write(at, bytes)?;
    disk.sync()
}

/// Writes bytes behind a gate and syncs, and then opens the gate, which is to write 1 there, and
/// syncs. A crash at any moment of it, and a failure, leaves the gate as it was and any bytes behind
/// it, or the bytes there and any gate.
pub fn write_gated<D: Disk>(disk: &mut D, gate: u64, behind: &[u8]) -> Result<(), Failed>
    requires inside { IfSome (D.content disk.old) (λ held. gate < length held) }
    requires small { gate + 1 + length behind.now ≤ 2 ^ 40 }
    requires sure { IsSure (D.content disk.old) (D.may_leave disk.old) }
    ensures written { OnOk result
        (D.content disk.new ≡ option_map (opened_at gate behind.now) (D.content disk.old)) }
    ensures within { OnOk result (gate + 1 + length behind.now ≤ longest_disk) }
    ensures tells { is_some (D.content disk.new) ≡ is_some (D.content disk.old) }
    ensures sure { OnOk result (IsSure (D.content disk.new) (D.may_leave disk.new)) }
    ensures any_moment { LeavesOnly D.moment D.left_since disk.old disk.new
        (OfTold (D.content disk.old) (IsTornAtGate gate behind.now)) }
    ensures cause { HasCause (D.faults disk.old) (D.faults disk.new) result }
{
    write_synced(disk, gate + 1, behind)?;
    write_synced(disk, gate, &[1])
}
