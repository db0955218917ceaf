// Worked examples of the definitions, and tests that run the library on examples and on damaged
// input.

#![tactic(auto)]

ghost use Rattle.std.specs.Prelude.{◌≡◌, [], ◌∷◌};
ghost use Rattle.tests.specs.Examples.{WorkedExamples};

#[cfg(test)]
mod adapters_run;
#[cfg(test)]
mod enumerators_run;
#[cfg(test)]
mod faults;
#[cfg(test)]
mod groups_run;
#[cfg(test)]
mod jobs_run;
mod keys;
#[cfg(test)]
mod keys_run;
mod lent_groups;
#[cfg(test)]
mod listing_run;
mod owners;
#[cfg(test)]
mod plans_run;
#[cfg(test)]
mod records_run;
#[cfg(test)]
mod refused_makings_run;
#[cfg(test)]
mod rules_run;
mod stack_run;
#[cfg(test)]
mod steps_run;
#[cfg(test)]
mod tees_run;
#[cfg(test)]
mod text_run;
#[cfg(test)]
mod texts_run;

pub use keys::{is_same_block, is_same_number};
pub use lent_groups::item_of_group;
pub use owners::{one_of_steps, one_step};
use steps::Fault;

/// The worked examples hold of the definitions that the contracts cite.
pub fn worked_examples() -> u8
    ensures result { result ≡ 0 }
    ensures law { WorkedExamples }
{
    0
}

/// The numbers of the origins of a fault: source, predicate, key, joining.
pub fn origins() -> [u8; 4]
    ensures { result ≡ 1 ∷ (2 ∷ (3 ∷ (4 ∷ []))) }
{
    [Fault::SOURCE, Fault::PREDICATE, Fault::KEY, Fault::JOINING]
}
