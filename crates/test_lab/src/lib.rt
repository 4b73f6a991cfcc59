//! Tests of scenario texts, of the shell, and of the lab: its texts, forms, reports and pictures, machines that are driven,
//! and orders of calls and of atomic steps.
#![tactic(auto)]

#[cfg(test)]
mod forms;
#[cfg(test)]
mod lab;
#[cfg(test)]
mod rows;
#[cfg(test)]
mod scenario;
#[cfg(test)]
mod shell;
#[cfg(test)]
mod step_orders;
