//! Worked examples of the definitions, each the contract of a function that does nothing.

ghost use Rattle.omos_model.specs.Examples.{ExpansionExamples, OperatorExamples};
ghost use Rattle.omos_model.specs.ObjectExamples.{ObjectExamples};

/// What operators make of definitions and references, and when they are refused.
pub fn operators_work()
    ensures { OperatorExamples }
{}

/// What a path expands to, and when it is refused.
pub fn expansion_works()
    ensures { ExpansionExamples }
{}

/// What an object file says, and each of its faults.
pub fn objects_work()
    ensures { ObjectExamples }
{}
