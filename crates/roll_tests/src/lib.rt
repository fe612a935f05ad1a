// Tests of both kinds of roll: the same test functions, generic over the kind.
#![tactic(auto)]

#[cfg(test)]
mod calls;
#[cfg(test)]
mod examples;
#[cfg(test)]
mod plain;
#[cfg(test)]
mod scripts;
