// The theorem that a restated file plays the same. This crate has no code: it stands here, apart, so that no must-fail edit of code has to prove it again.
