// Tests of the kinds of measure, of questions and hosts, and of pattern files, at their edges.
#![tactic(auto)]

#[cfg(test)]
mod answers;
#[cfg(test)]
mod files;
#[cfg(test)]
mod kinds;
