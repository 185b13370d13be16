//! Tests by public calls alone, layer by layer: what no script and no run of the program brings about, and each call that wants memory.
#![tactic(auto)]

#[cfg(test)]
mod books;
#[cfg(test)]
mod desk;
#[cfg(test)]
mod mailboxes;
#[cfg(test)]
mod refused;
#[cfg(test)]
mod runs;
#[cfg(test)]
mod samples;
#[cfg(test)]
mod server;
#[cfg(test)]
mod tables;
#[cfg(test)]
mod texts;
#[cfg(test)]
mod turns;
