// The statement of the verdict call on lists of bytes, and its laws: the refusals of the C entry, and that two results are equal. No function.
#![tactic(auto)]
