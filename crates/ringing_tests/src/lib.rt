// Tests of ringings, of their strike orders and of lists of calls.
#![tactic(auto)]

#[cfg(test)]
mod tests;
