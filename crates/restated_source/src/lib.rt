// Theorems about a file that was accepted, as what is to be restated. This crate has no code: they stand here, apart, so that no must-fail edit has to prove them again.
