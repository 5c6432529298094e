//! Words that are missing, and words that are too many.

pub const MISSING_WORDS: &str = "\
clock | too short; clock T
start | too short; start W
finish | too short; finish W ok V or finish W fail C
finish 0 | too short; finish W ok V or finish W fail C
finish 0 ok | too short; finish W ok V
finish 0 fail | too short; finish W fail C
cancel | too short; cancel K
";

pub const FURTHER_WORDS: &str = "\
clock 5 6 | more behind its end; clock T
start 0 idle | more behind its end; start W
finish 0 ok 7 8 | more behind its end; finish W ok V
finish 0 fail 3 4 | more behind its end; finish W fail C
cancel 2 yes | more behind its end; cancel K
clock 5 06 | more behind its end; clock T
";
