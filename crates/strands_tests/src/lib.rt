// Examples of strand numbers.
#![tactic(auto)]

#[cfg(test)]
mod children;
#[cfg(test)]
mod numbers;
