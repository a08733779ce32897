// Theorems about the tables of a whole file. This crate has no code: they stand here, apart, so that no must-fail edit has to prove them again.
