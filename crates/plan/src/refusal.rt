// Why a plan, a listing or a call is turned down. Document 01's number of each is its number in C.
ghost use Rattle.std.specs.Prelude.{◌≡◌};
ghost use Rattle.plan.specs.Numbers.{number_of};

#[derive(Clone, Copy, Debug, PartialEq, Eq)]
pub enum Refusal {
    Length,
    Sizes,
    Observer,
    Link,
    Edge,
    ShortTable,
    ShortOutput,
    Layout,
    OutOfRange,
    NotByRule,
    LastLine,
    LongWait,
    ShortPage,
    ClassList,
    NarrowLink,
    Kept,
    PointLabel,
    IllDefined,
    Labelled,
}

impl From<Refusal> for u32 {
    ghost from_gives = { λ refusal number. number ≡ number_of refusal };

    fn from(refusal: Refusal) -> u32 {
        match refusal {
            Refusal::Length => 1,
            Refusal::Sizes => 2,
            Refusal::Observer => 3,
            Refusal::Link => 4,
            Refusal::Edge => 5,
            Refusal::ShortTable => 6,
            Refusal::ShortOutput => 7,
            Refusal::Layout => 8,
            Refusal::OutOfRange => 9,
            Refusal::NotByRule => 10,
            Refusal::LastLine => 11,
            Refusal::LongWait => 12,
            Refusal::ShortPage => 13,
            Refusal::ClassList => 14,
            Refusal::NarrowLink => 15,
            Refusal::Kept => 16,
            Refusal::PointLabel => 17,
            Refusal::IllDefined => 18,
            Refusal::Labelled => 19,
        }
    }
}
