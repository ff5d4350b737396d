//! Runs over devices in memory, and what they leave.
mod audits;
mod calm;
mod checking;
mod drawing;
mod examples;
mod faults;
mod generating;
mod holding;
mod limits;
mod rows;
mod saving;
mod words;
