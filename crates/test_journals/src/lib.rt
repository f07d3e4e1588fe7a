//! Journals as their writers know them. Rows of stored journals: what is loaded, arrives and was written, with the entries, answers and
//! faults that the rules of storing give. An attempt over the second layer, whole, and what each of its versions has. And the ends of the VM's
//! counters, by its calls.
#![tactic(auto)]

#[cfg(test)]
mod attempts;
#[cfg(test)]
mod counters;
#[cfg(test)]
mod layers;
#[cfg(test)]
mod rows;
