// Cases of the checker and of plan files, made by hand.
#![tactic(auto)]

#[cfg(test)]
mod cases;
#[cfg(test)]
mod damages;
#[cfg(test)]
mod matrices;
#[cfg(test)]
mod three_beams;
