// Tests of the writer of property maps: heads at every limit, whole maps, short buffers, and maps read back.
#![tactic(auto)]

#[cfg(test)]
mod completed;
#[cfg(test)]
mod helpers;
#[cfg(test)]
mod numbers;
#[cfg(test)]
mod texts;
#[cfg(test)]
mod whole;
