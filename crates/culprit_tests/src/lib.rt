//! Tests of what is told of a broken rule K, and where, from the source to the text.
#![tactic(auto)]

#[cfg(test)]
mod arrays;
#[cfg(test)]
mod asking;
#[cfg(test)]
mod data;
#[cfg(test)]
mod functions;
#[cfg(test)]
mod lists;
#[cfg(test)]
mod names;
#[cfg(test)]
mod numbers;
#[cfg(test)]
mod outputs;
#[cfg(test)]
mod told;
#[cfg(test)]
mod types;
