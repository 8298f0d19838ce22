//! Laws of the types, each the contract of a function that does nothing.

ghost use Rattle.std.specs.Prelude.{◌≡◌, Some};
ghost use Rattle.ostore_graph_model.specs.Orders.{name_cmp};

use crate::values::Name;

/// Names are ordered by segment, then by serial.
pub fn names_are_ordered(a: Name, b: Name)
    ensures cmp { ⟦<Name as Ord>⟧.cmp a b ≡ name_cmp a b }
    ensures partial_cmp { ⟦<Name as PartialOrd>⟧.partial_cmp a b ≡ Some (name_cmp a b) }
{}
