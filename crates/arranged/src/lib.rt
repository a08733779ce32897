// Theorems about tables that hold the same rows in another order. This crate has no code: they stand here, apart, so that no must-fail edit has to prove them again.
