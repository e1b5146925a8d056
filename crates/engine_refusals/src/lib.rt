// The refusals, each with its number, and the number of an answer: 0 where the call is accepted.
#![tactic(auto)]

ghost use Rattle.std.specs.Prelude.{◌≡◌};
ghost use Rattle.engine_refusals.specs.Numbers.{number_of, number_in};

// 1 to 12 are those of document 01, The twelve numbers; the others come with the request of document 02 that is named.
#[derive(Clone, Copy, Debug, PartialEq, Eq)]
pub enum Refusal {
    // Settings or price beyond the bounds under Demand.
    BeyondBounds = 1,

    // Call not accepted in this phase.
    NotInThisPhase = 2,

    // Number outside 1-32, used developer, or offer by an unknown or kind 1 developer.
    BadNumber = 3,

    // Bad kind or levels, or developers a project may not have.
    BadRegistration = 4,

    // C below the floor or not below the opening price.
    BadRoundPrice = 5,

    // Price and level lists of unequal length, over 8 steps, or a bad price.
    BadSteps = 6,

    // A level neither declared nor 0, or not below the last.
    BadLevel = 7,

    // Second offer in the round.
    SecondOffer = 8,

    // First opening with A not covered.
    OpeningNotCovered = 9,

    // Choices above the limit.
    AboveTheLimit = 10,

    // Lent buffer too short for all records or replies.
    BufferTooShort = 11,

    // Malformed line.
    MalformedLine = 12,

    // Buffer too short for the frame (2).
    FrameBufferTooShort = 13,

    // Call not writable (2).
    NotWritable = 14,

    // Lodging for a developer number that is no registered existing plant (5).
    NoExistingPlant = 15,

    // Cancellation by a developer of whom no offer stands in the round (7).
    NoStandingOffer = 16,

    // A pair of rivals or a price list not as described (11).
    NoSuchGame = 17,

    // More than 16 sealed offers, or a field of the sealed auction out of bounds (13).
    SealedOutOfBounds = 18,

    // A sealed offer's price above the ceiling (13).
    AboveTheCeiling = 19,

    // A call that the seat has no right to make (14).
    NoRight = 20,
}

impl From<Refusal> for u8 {
    ghost from_gives = { λ r n. n ≡ number_of r };

    fn from(refusal: Refusal) -> u8 {
        refusal as u8
    }
}

// The number of an answer: 0, or its refusal's.
pub fn answer_number<T>(answer: &Result<T, Refusal>) -> u8
    ensures { result ≡ number_in answer.now }
{
    match answer {
        Ok(_) => 0,
        Err(refusal) => u8::from(*refusal),
    }
}
