// Examples of the fleet and of the choices of a turn, proved safe and run.
#![tactic(auto)]

#[cfg(test)]
mod tests;
