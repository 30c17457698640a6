//! Tests of the text crates' own calls, which the command doesn't make or doesn't show: tokens, maps alone and scripts alone.
#![tactic(auto)]

#[cfg(test)]
mod maps;
#[cfg(test)]
mod scripts;
#[cfg(test)]
mod tokens;
