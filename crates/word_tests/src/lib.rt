//! Tests of the words of tasks, and of the cells of verdicts.
#![tactic(auto)]

#[cfg(test)]
mod cells;
#[cfg(test)]
mod kept;
#[cfg(test)]
mod moves;
#[cfg(test)]
mod scripts;
#[cfg(test)]
mod task_words;
#[cfg(test)]
mod word_tables;
