// The tests of what runs programs.
#![tactic(auto)]

#[cfg(test)]
mod tests;
