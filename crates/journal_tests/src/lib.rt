// Examples of the journal and of its operations, proved safe and run.
#![tactic(auto)]

#[cfg(test)]
mod journals;
#[cfg(test)]
mod operations;
