//! Tests of running that can't be asked of the program as it is built, by `tests/run` and
//! `run_programs`: where records go; plans; the codes that are kept of statements; what a fault in
//! a list leaves; consecutive members of a list; whole runs in order, and by plans; and loops by
//! stages, step by step, and what is told of them.
#![tactic(auto)]

#[cfg(test)]
mod kept;
#[cfg(test)]
mod lists;
#[cfg(test)]
mod outcomes;
#[cfg(test)]
mod plans;
#[cfg(test)]
mod runs;
#[cfg(test)]
mod sinks;
#[cfg(test)]
mod slices;
#[cfg(test)]
mod staged;
#[cfg(test)]
mod stages;
#[cfg(test)]
mod told;
