//! Worked examples of the definitions, each the contract of a function that does nothing.

ghost use Rattle.link_model.specs.Examples.{FieldExamples, PlanExamples, SlotExamples};

/// What fields are, and which values fit.
pub fn fields_work()
    ensures { FieldExamples }
{}

/// Where slots stand, and what they and the fields that use them hold.
pub fn slots_work()
    ensures { SlotExamples }
{}

/// When a program has no plan or no image, and the headers of one that has.
#[tactic(auto, unfolding(elf_words::specs::Ehdr::ehdr_bytes, elf_words::specs::Phdr::phdr_bytes))]
pub fn plans_work()
    ensures { PlanExamples }
{}
