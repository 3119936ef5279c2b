// The tests of what serves users.
#![tactic(auto)]

#[cfg(test)]
mod tests;
