// Examples of schedules: what bytes read as, every fault with its place, what is written, and what the errors print.
#![tactic(auto)]

#[cfg(test)]
mod errors;
#[cfg(test)]
mod faults;
#[cfg(test)]
mod number_bytes;
#[cfg(test)]
mod reading;
#[cfg(test)]
mod writing;
