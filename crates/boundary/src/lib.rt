// What C and Rust link: every entry of the library as a function on numbers and slices. Each returns the number of a refusal, 0 where there is
// none, and puts its values at the front of a slice that it is lent. Where that slice is too short for them it returns SHORT_VALUES, which is no
// refusal, and changes nothing. C calls each entry by a name of its own, so that no two of them are one generic function. include/brinebutton.h says what the values are.
#![tactic(auto)]

mod amounts;
mod build;
mod codes;
mod judge;
mod steps;
mod write;
