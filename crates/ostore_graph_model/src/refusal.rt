//! Why commands are refused.

ghost use Rattle.std.specs.Prelude.{◌≡◌};
ghost use Rattle.ostore_graph_model.specs.Refusals.{refusal_number, refusal_name};

/// Why a command was refused. A refusal changes nothing, and the transaction goes on.
#[derive(Clone, Copy, Debug, PartialEq, Eq)]
pub enum Refusal {
    /// A variable that is read isn't bound.
    NoVariable,
    /// The type has no such member.
    NoMember,
    /// The member's kind isn't the command's, or the value isn't of the member's kind.
    WrongKind,
    /// No such type, or an object of another type than is asked.
    WrongType,
    /// The object was deleted.
    Dangling,
    /// The reference is null.
    Null,
    /// No root of that name.
    NoRoot,
    /// The text or key has too many bytes.
    TextTooLong,
    /// The dictionary has no such key.
    NoKey,
    /// The index isn't below the list's size.
    OutOfRange,
    /// The item isn't in the set.
    NotMember,
    /// The item is in the set already.
    AlreadyMember,
    /// The set, or a reference on the path, has no inverse.
    NotIndexable,
    /// Such an index stands already.
    IndexThere,
    /// No such index stands.
    NoIndex,
    /// A writing command in a read transaction.
    ReadOnly,
    /// No live object of that name.
    NoObject,
    /// The segment has drawn its last serial.
    SerialsSpent,
    /// All roots are bound to other names.
    RootsFull,
}

impl Refusal {
    /// The refusal's number, 1 to 19, as it is printed.
    pub fn number(self) -> u64
        ensures { result ≡ refusal_number self }
    {
        match self {
            Refusal::NoVariable => 1,
            Refusal::NoMember => 2,
            Refusal::WrongKind => 3,
            Refusal::WrongType => 4,
            Refusal::Dangling => 5,
            Refusal::Null => 6,
            Refusal::NoRoot => 7,
            Refusal::TextTooLong => 8,
            Refusal::NoKey => 9,
            Refusal::OutOfRange => 10,
            Refusal::NotMember => 11,
            Refusal::AlreadyMember => 12,
            Refusal::NotIndexable => 13,
            Refusal::IndexThere => 14,
            Refusal::NoIndex => 15,
            Refusal::ReadOnly => 16,
            Refusal::NoObject => 17,
            Refusal::SerialsSpent => 18,
            Refusal::RootsFull => 19,
        }
    }

    /// The refusal's name, as it is printed.
    pub fn name(self) -> &'static str
        ensures { result.now ≡ refusal_name self }
    {
        match self {
            Refusal::NoVariable => "NoVariable",
            Refusal::NoMember => "NoMember",
            Refusal::WrongKind => "WrongKind",
            Refusal::WrongType => "WrongType",
            Refusal::Dangling => "Dangling",
            Refusal::Null => "Null",
            Refusal::NoRoot => "NoRoot",
            Refusal::TextTooLong => "TextTooLong",
            Refusal::NoKey => "NoKey",
            Refusal::OutOfRange => "OutOfRange",
            Refusal::NotMember => "NotMember",
            Refusal::AlreadyMember => "AlreadyMember",
            Refusal::NotIndexable => "NotIndexable",
            Refusal::IndexThere => "IndexThere",
            Refusal::NoIndex => "NoIndex",
            Refusal::ReadOnly => "ReadOnly",
            Refusal::NoObject => "NoObject",
            Refusal::SerialsSpent => "SerialsSpent",
            Refusal::RootsFull => "RootsFull",
        }
    }
}
