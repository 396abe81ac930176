// The refusals of documents 01 and 02, each with its number. What may be refused answers a Result with one of them.
#![tactic(auto)]

ghost use Rattle.std.specs.Prelude.{◌≡◌};
ghost use Rattle.refusal.specs.Numbers.{number_of, answer_of};

#[derive(Clone, Copy, Debug, PartialEq, Eq)]
pub enum Refusal {
    ShortBook,
    SizeOutOfRange,
    BookLength,
    IdentifierForm,
    CheckDigit,
    RepeatedIdentifier,
    TermOutsideRules,
    TableOutOfOrder,
    MalformedEvent,
    NumberTooLarge,
    DeadMachine,
    AlreadyAdmitted,
    OwnVictim,
    NoneInFlight,
    FullFlight,
    AlreadyRunning,
    NotInPool,
    NothingRunning,
    RootNeverDies,
    StillAlive,
    AlreadyTold,
    ShortBuffer,
    AlreadyWaits,
    VictimKnownDead,
    NoMachineLeft,
    NotNextMachine,
    NoSuchRun,
    ShortRunBuffer,
}

impl From<Refusal> for u8 {
    ghost from_gives = { λ r n. n ≡ number_of r };

    // The number of a refusal.
    fn from(r: Refusal) -> u8 {
        match r {
            Refusal::ShortBook => 1,
            Refusal::SizeOutOfRange => 2,
            Refusal::BookLength => 3,
            Refusal::IdentifierForm => 4,
            Refusal::CheckDigit => 5,
            Refusal::RepeatedIdentifier => 6,
            Refusal::TermOutsideRules => 7,
            Refusal::TableOutOfOrder => 9,
            Refusal::MalformedEvent => 10,
            Refusal::NumberTooLarge => 11,
            Refusal::DeadMachine => 12,
            Refusal::AlreadyAdmitted => 13,
            Refusal::OwnVictim => 14,
            Refusal::NoneInFlight => 15,
            Refusal::FullFlight => 16,
            Refusal::AlreadyRunning => 17,
            Refusal::NotInPool => 18,
            Refusal::NothingRunning => 19,
            Refusal::RootNeverDies => 20,
            Refusal::StillAlive => 21,
            Refusal::AlreadyTold => 22,
            Refusal::ShortBuffer => 23,
            Refusal::AlreadyWaits => 24,
            Refusal::VictimKnownDead => 25,
            Refusal::NoMachineLeft => 26,
            Refusal::NotNextMachine => 27,
            Refusal::NoSuchRun => 28,
            Refusal::ShortRunBuffer => 29,
        }
    }
}

// "An accepted event returns 0. A refusal returns its number"
pub fn answer(r: Result<(), Refusal>) -> u8
    ensures { result ≡ answer_of r }
{
    match r {
        Ok(()) => 0,
        Err(e) => e.into(),
    }
}
