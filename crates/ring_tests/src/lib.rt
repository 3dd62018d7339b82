// Examples of the calls of the ring, proved safe and run.
#![tactic(auto)]

#[cfg(test)]
mod clients;
#[cfg(test)]
mod totals;
