// Tables of examples for paths, at the limits of their patterns and on paths of many stars.
#![tactic(auto)]

#[cfg(test)]
mod answers;
#[cfg(test)]
mod reading;
