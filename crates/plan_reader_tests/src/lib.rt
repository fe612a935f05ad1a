// Tests of `plan_reader::check` on files that the tests build number by number.
#![tactic(auto)]

#[cfg(test)]
mod ends;
#[cfg(test)]
mod files;
#[cfg(test)]
mod refusals;
#[cfg(test)]
mod sequence;
