// The cells of a table: where the complement of each two letters and the weight of each letter lie.
// Kept (5): (d) `Sized` says that there is a table, so it is no proposition: a ghost field has it in ∥ ∥₁ alone, from where no `Ready` or `Filled` is made.
// Kept (5): (d) `Ready` says so of a table that has a word's letters, and is no proposition either; in a reversing the word changes with each step besides.
// Kept (5): (d) `Blank` is true until the cells are read into: a type that says it would end there, and each clause on the cells after would go through it.
#![tactic(auto)]

pub mod layout;
pub mod weights;
pub mod words;
