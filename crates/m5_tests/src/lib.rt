//! Tests of public calls, of what no clause says and no run of the program shows.
#![tactic(auto)]

#[cfg(test)]
mod bytecode;
#[cfg(test)]
mod failures;
#[cfg(test)]
mod full_tables;
#[cfg(test)]
mod hall;
#[cfg(test)]
mod javascript;
#[cfg(test)]
mod keys;
#[cfg(test)]
mod linking;
#[cfg(test)]
mod pages;
#[cfg(test)]
mod regions;
#[cfg(test)]
mod scripts;
#[cfg(test)]
mod server_runs;
#[cfg(test)]
mod sources;
#[cfg(test)]
mod terms;
#[cfg(test)]
mod tokens;
#[cfg(test)]
mod traces;
