//! How far an attempt has come.

ghost use Rattle.std.specs.Prelude.{◌≡◌, None};

use ostore_object_ops::Progress;

/// An attempt at a transaction, which is executed line by line.
#[derive(Drop)]
pub struct Attempt {
    /// Its variables and its replies so far. None before its first line, which begins it, and where it has ended.
    pub progress: Option<Progress>,
}

impl Attempt {
    /// Before its first line.
    pub fn new() -> Attempt
        ensures { result.progress ≡ None }
    {
        Attempt { progress: None }
    }
}
