// Why a call is refused, and the number that the caller gets.
#![tactic(auto)]

ghost use Rattle.std.specs.Prelude.{◌≡◌};
ghost use Rattle.refusal.specs.Refusals.{number_of};

// Why a call is refused: a name and a number for each row of "Numbers for a no". The C header has the same.
#[derive(Clone, Copy, Debug, PartialEq, Eq)]
pub enum Refusal {
    InputShort = 1,
    StartWrong = 2,
    BodyLong = 3,
    PartWrong = 4,
    PartsMany = 5,
    HeaderWrong = 6,
    PartsDisagree = 7,
    RouteWrong = 8,
    TopicWrong = 9,
    FieldWrong = 10,
    OutputShort = 11,
    ForwardLong = 12,
    TreeWrong = 14,
    ServicesWrong = 15,
    IdentitiesWrong = 16,
    RankWrong = 17,
    NotRouted = 18,
    NoNeighbour = 19,
    MagicWrong = 20,
    VersionWrong = 21,
    TypeWrong = 22,
    FlagWrong = 23,
    JsonDeep = 26,
    CommandPartWrong = 30,
    CommandLong = 31,
    MarkWrong = 32,
    CommandWrong = 33,
    PartCountWrong = 34,
    NameWrong = 35,
    AddressWrong = 36,
    SeparatorWrong = 37,
}

// The number that the caller gets.
impl From<Refusal> for u32 {
    ghost from_gives = { λ r n. n ≡ number_of r };

    fn from(r: Refusal) -> u32 {
        r as u32
    }
}
