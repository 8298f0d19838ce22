//! Laws of the texts for `try`.

ghost use Rattle.std.specs.Prelude.{◌≡◌, ℕ, List};
ghost use Rattle.ostore_try_input.specs.Spelling.{IsRefused};
ghost use Rattle.ostore_try_input.specs.TryFaults.{IsRefusedFor};
ghost use Rattle.ostore_try_input.specs.declared.reading.fault.TryFault.{TryFault};

/// A text for `try` that is refused for something says no input that is run.
pub fn refusal_says_nothing()
    ensures { (text : List ℕ) → (fault : TryFault) → IsRefusedFor text fault → IsRefused text }
{}

/// A text for `try` is refused for at most one thing.
pub fn one_refusal()
    ensures { (text : List ℕ) → (one other : TryFault) →
        IsRefusedFor text one → IsRefusedFor text other → one ≡ other }
{}
