// Tests of the reader of property maps: heads, keys, values, faults and ranges.
#![tactic(auto)]

#[cfg(test)]
mod faults;
#[cfg(test)]
mod heads;
#[cfg(test)]
mod keys;
#[cfg(test)]
mod ranges;
#[cfg(test)]
mod values;
