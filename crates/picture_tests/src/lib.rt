//! Tests of pictures: which runs and lines are drawn, the elements that they are drawn by, and the whole of a picture.
#![tactic(auto)]

#[cfg(test)]
mod drawn;
#[cfg(test)]
mod elements;
#[cfg(test)]
mod svgs;
#[cfg(test)]
mod traces;
