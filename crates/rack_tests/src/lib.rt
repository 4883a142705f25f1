// Tests of racks, by running them.
#![tactic(auto)]

#[cfg(test)]
mod images;
#[cfg(test)]
mod pairs;
#[cfg(test)]
mod tables;
