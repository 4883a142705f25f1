// Tests of fields, shapes and the code, by running them.
#![tactic(auto)]

#[cfg(test)]
mod arrays;
#[cfg(test)]
mod fields;
#[cfg(test)]
mod shapes;
