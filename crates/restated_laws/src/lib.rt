// Theorems about what restating leaves. This crate has no code: they stand here, apart, so that no must-fail edit has to prove them again.
