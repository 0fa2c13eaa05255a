// Examples of sections, at their limits and one beyond.
#![tactic(auto)]

#[cfg(test)]
mod filling;
#[cfg(test)]
mod reading;
#[cfg(test)]
mod regions;
