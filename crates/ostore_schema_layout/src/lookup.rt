//! Looking up by name in lists of things that go by names.

ghost use Rattle.std.specs.Prelude.{◌≡◌, ◌<◌, length, option_map, IfSome};
ghost use Rattle.ostore_schema_layout.specs.Numbers.{first_named, place_named};

/// Something that goes by a name.
pub trait Named {
    ghost use Rattle.std.specs.Prelude.{ℕ, List};

    ghost name_of: { Self → List ℕ };

    fn name(&self) -> &[u8]
        ensures { result.now ≡ name_of self.now };
}

/// The first of the list that goes by the name.
pub fn first_named<'a, X: Named>(list: &'a [X], name: &[u8]) -> Option<&'a X>
    ensures { option_map (λ found. found.now) result ≡ first_named X.name_of list.now name.now }
{
    list.iter().find(|x| x.name() == name)
}

/// Its place, from 0.
#[tactic(auto, unfolding(crate::specs::Numbers::place_named))]
pub fn place_named<X: Named>(list: &[X], name: &[u8]) -> Option<usize>
    ensures place { result ≡ place_named X.name_of list.now name.now }
    ensures within { IfSome result (λ place. place < length list.now) }
{
    list.iter().position(|x| x.name() == name)
}
