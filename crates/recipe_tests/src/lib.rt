// Examples of recipe files, at their limits and one beyond.
#![tactic(auto)]

#[cfg(test)]
mod blocks;
#[cfg(test)]
mod bodies;
#[cfg(test)]
mod cells;
#[cfg(test)]
mod files;
#[cfg(test)]
mod points;
#[cfg(test)]
mod records;
#[cfg(test)]
mod said;
#[cfg(test)]
mod strands;
