// Lists of at most N items that lie in the value itself, so that a list is copied as one value. It knows nothing of
// frames.
// A vector of fixed capacity is no `Copy`: where no value that holds a list is copied, such a vector stands.
#![tactic(auto)]

pub mod list;
