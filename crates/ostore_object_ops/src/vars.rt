//! The variables of a transaction.

ghost use Rattle.std.specs.Prelude.{◌≡◌, ℕ, List, None, OnOk, OnErr};
ghost use Rattle.ostore_object_ops.specs.Bound.{bound_by, with_bound, SameBound};

use ostore_base::{OutOfMemory, Text};
use std::alloc::Global;
use std::collections::BTreeMap;

/// The variables of a transaction that are bound, each to the resident pointer of an object's row. A look-up
/// and a binding take time that grows with the logarithm of their number.
#[derive(Drop)]
pub struct Vars {
    bound: BTreeMap<Vec<u8>, u32>,
}

impl Vars {
    /// No variable is bound.
    pub fn new(alloc: Global) -> Vars
        ensures { (variable : List ℕ) → bound_by result variable ≡ None }
    {
        Vars {
            bound: BTreeMap::new(alloc),
        }
    }

    /// The pointer that a variable is bound to, and None where it isn't bound.
    pub fn get(&self, variable: &Text) -> Option<u32>
        ensures { result ≡ bound_by self.now variable.now }
    {
        self.bound.get(variable.bytes()).copied()
    }

    /// Binds a variable to a pointer, whether it was bound or not.
    pub fn bind(&mut self, variable: &Text, pointer: u32) -> Result<(), OutOfMemory>
        ensures bound { OnOk result ((other : List ℕ) →
            bound_by self.new other ≡ with_bound (bound_by self.old) variable.now pointer other) }
        ensures err { OnErr result (SameBound self.old self.new) }
    {
        self.bound.insert(variable.copy()?.into_vec(), pointer)?;
        Ok(())
    }
}
