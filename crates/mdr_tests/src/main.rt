//! Tests of the libraries: what their contracts leave open, against values from outside. The program itself does nothing.
#![tactic(auto)]

#[cfg(test)]
mod arithmetic;
#[cfg(test)]
mod expect;
#[cfg(test)]
mod hex;
#[cfg(test)]
mod items;
#[cfg(test)]
mod memory;
#[cfg(test)]
mod messages;
#[cfg(test)]
mod outside;
#[cfg(test)]
mod paths;
#[cfg(test)]
mod report;
#[cfg(test)]
mod seeds;
#[cfg(test)]
mod top;
#[cfg(test)]
mod transcripts;
#[cfg(test)]
mod user;
#[cfg(test)]
mod worked;

fn main() {}
