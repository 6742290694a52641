//! Worked sheets: the answers that a reader can check by hand, and a test of the program against them.

ghost use Rattle.timing.specs.Worked.{AllRight, worked};

/// What a worked sheet comes to.
// an enum of its own, not a Result: a knot is as right an answer as places are, and the rows say which
#[derive(Clone, Copy)]
pub enum WorkedAnswer {
    /// The places of its events in order, 0 past the last; one above 63,000,000 is open.
    Placed([i64; 4]),
    /// It is contradictory, and these of its bounds are the knot.
    Knotted([bool; 3]),
}

/// The answers of the worked sheets, one for each in their order.
pub fn worked_answers() -> [WorkedAnswer; 13]
    ensures { AllRight worked result }
{
    [
        // a memory, from AV; with CS ≤ AV + 300 besides; from DV; from CS, with AV and DV open
        WorkedAnswer::Placed([0, -10, 20, 0]),
        WorkedAnswer::Placed([0, -10, 20, 0]),
        WorkedAnswer::Placed([0, -30, 0, 0]),
        WorkedAnswer::Placed([1_000_000_000, 0, 1_000_000_000, 0]),
        // A ≤ latest of B - 1, C - 1, with B ≤ A and C ≤ A; without C ≤ A, which leaves C open
        WorkedAnswer::Knotted([true, true, true]),
        WorkedAnswer::Placed([0, 0, 1_000_000_000, 0]),
        // A ≤ A + 0; A ≤ A - 1; A ≤ A - 1 and B ≤ B - 1
        WorkedAnswer::Placed([0, 0, 0, 0]),
        WorkedAnswer::Knotted([true, false, false]),
        WorkedAnswer::Knotted([false, true, false]),
        // E by the latest of A + 1, B + 5, C + 9; by every one; by two of them
        WorkedAnswer::Placed([0, 0, 0, 9]),
        WorkedAnswer::Placed([0, 0, 0, 1]),
        WorkedAnswer::Placed([0, 0, 0, 5]),
        // an event alone
        WorkedAnswer::Placed([0, 0, 0, 0]),
    ]
}
