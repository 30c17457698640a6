//! Tests of steps and of what they stand on, of what no clause says: that a module can be copied, that handles can be defined,
//! matched and consumed, that named operations have their generics, that payloads are joined and captured values placed, that the
//! steps answer, that operands have tiles, and that scripts run.
#![tactic(auto)]

#[cfg(test)]
mod copies;
#[cfg(test)]
mod forms;
#[cfg(test)]
mod handles;
#[cfg(test)]
mod payloads;
#[cfg(test)]
mod scripts;
#[cfg(test)]
mod slices;
#[cfg(test)]
mod steps;
