//! Tests of data beside a driver's frames.
#![tactic(auto)]

#[cfg(test)]
mod calls;
#[cfg(test)]
mod carriers;
#[cfg(test)]
mod files;
#[cfg(test)]
mod lines;
#[cfg(test)]
mod renewed;
#[cfg(test)]
mod texts;
