// An element of a doubled field.
pub mod arithmetic;

// The element low + high·w.
#[derive(Clone, Copy, PartialEq, Eq, Debug)]
pub struct Doubled<F> {
    low: F,
    high: F,
}
