//! Tests of studies, their documents and their files, and of the largest grids: of what no contract says. Which
//! documents are read, what they contain, and the texts of the refusals.
#![tactic(auto)]

#[cfg(test)]
mod documents;
#[cfg(test)]
mod grids;
#[cfg(test)]
mod texts;
