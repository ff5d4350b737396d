//! Tests of what no clause of the libraries says: each call that allocates succeeds with ample memory, and the
//! adapters do what they say over a real file and over readers and writers of std.
#![tactic(auto)]

#[cfg(test)]
mod devices;
#[cfg(test)]
mod formulas;
#[cfg(test)]
mod found;
#[cfg(test)]
mod owed;
#[cfg(test)]
mod plans;
#[cfg(test)]
mod streams;
#[cfg(test)]
mod values;
