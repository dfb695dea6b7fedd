//! Tests of programs that run. Flat code gives what the trees mean, and traps where they do, and chains of operators
//! that are longer than any stack are evaluated, made into code, run and let go. Each program that runs by its table
//! makes the steps of the plain program, and its images go into a second process. The machine of single unfailing
//! processes plays the bank line by line and act by act, and finds its openers.
//!
//! Below stand the crates that are tested; nothing stands above.
#![tactic(auto)]

#[cfg(test)]
mod bank;
#[cfg(test)]
mod cases;
#[cfg(test)]
mod chains;
#[cfg(test)]
mod played;
#[cfg(test)]
mod programs;
#[cfg(test)]
mod running;
#[cfg(test)]
mod walks;
