//! What holds of the definitions.

ghost use Rattle.settle.specs.Theorems.{AnswersAreUnique};

/// The definitions of what read, knot and the verdict on a need are to answer leave no choice.
pub fn answers_are_unique()
    ensures { AnswersAreUnique }
{}
