// The worked examples, proved from the definitions, and tests of the code on many cases.
#![tactic(auto)]

ghost use Rattle.std.specs.Prelude.{◌≡◌, length};
ghost use Rattle.vectors.specs.Examples.{examples, scheme_examples, ExamplesHold};

#[cfg(test)]
mod derivation;
#[cfg(test)]
mod evaluation;
#[cfg(test)]
mod fields;
#[cfg(test)]
mod lines;
#[cfg(test)]
mod refusals;
#[cfg(test)]
mod scheme;

// Numbers of examples: of fields and of keys from shares, and of shares, seats, restoring and keys from masters.
#[derive(Clone, Copy, PartialEq, Eq, Debug)]
pub struct Counts {
    pub of_fields_and_keys: usize,
    pub of_the_scheme: usize,
}

// How many examples there are; every one holds.
pub fn worked_examples() -> Counts
    ensures hold { ExamplesHold }
    ensures of_fields_and_keys { result.of_fields_and_keys ≡ length examples }
    ensures of_the_scheme { result.of_the_scheme ≡ length scheme_examples }
{
    Counts {
        of_fields_and_keys: 8,
        of_the_scheme: 14,
    }
}
