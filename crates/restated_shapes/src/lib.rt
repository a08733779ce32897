// Theorems about the shapes and the words of a restated text, as it is read again. This crate has no code: they stand here, apart, so that no must-fail edit has to prove them again.
