//! The refusals of the questions before each call, in the order in which the questions stand in docs/RULES.md.

ghost use Rattle.std.specs.Prelude.{◌≡◌};
ghost use Rattle.model.specs.Questions.{refusal_number};

#[derive(Clone, Copy, Debug, PartialEq, Eq)]
pub enum Refusal {
    BadLength,
    BadLayout,
    BadSubjectRow,
    BadItemRow,
    BadLineRow,
    BadGrantRow,
    UnusedRowNotZero,
    UnknownCaller,
    UnknownSubject,
    UnknownItem,
    BadCountsLength,
    NotAList,
    OutOfRange,
    NotPermitted,
    OutsideTree,
    NoSuchRow,
    NotTheGrantor,
    TableFull,
    NoEditor,
}

impl Refusal {
    /// The number that a refused call answers.
    pub fn number(self) -> u32
        ensures { result ≡ refusal_number self }
    {
        match self {
            Refusal::BadLength => 1,
            Refusal::BadLayout => 2,
            Refusal::BadSubjectRow => 3,
            Refusal::BadItemRow => 4,
            Refusal::BadLineRow => 5,
            Refusal::BadGrantRow => 6,
            Refusal::UnusedRowNotZero => 7,
            Refusal::UnknownCaller => 10,
            Refusal::UnknownSubject => 11,
            Refusal::UnknownItem => 12,
            Refusal::BadCountsLength => 21,
            Refusal::NotAList => 13,
            Refusal::OutOfRange => 14,
            Refusal::NotPermitted => 15,
            Refusal::OutsideTree => 16,
            Refusal::NoSuchRow => 17,
            Refusal::NotTheGrantor => 18,
            Refusal::TableFull => 19,
            Refusal::NoEditor => 20,
        }
    }
}
