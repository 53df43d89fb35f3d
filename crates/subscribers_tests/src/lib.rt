// Tests of the subscriber list and of the evictions, with both kinds of client.
#![tactic(auto)]

#[cfg(test)]
mod tests;
