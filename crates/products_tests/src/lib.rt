// Examples of the two products that are served: paths with sections, and sections with sections.
#![tactic(auto)]

#[cfg(test)]
mod paths_with_sections;
#[cfg(test)]
mod sections_with_sections;
