// Lemmas that every layer shares and that know nothing of frames: lists with the same elements, and smallest numbers.
#![tactic(auto)]
