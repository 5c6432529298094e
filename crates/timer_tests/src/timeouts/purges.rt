//! Purges, and the head of the queue.

use super::play_case;
use std::test::Fail;

const A_PURGE: &str = "\
a purge takes what is kept and leaves the data
schedule 0 5 70 | accepted 0 5
schedule 0 6 71 | accepted 1 6
cancel 0 3 | yes
next_due | due 6
head_due | due 5
len | len 2
purge | purged
len | len 1
head_due | due 6
has_seat 0 3 | seat false
data_of 0 3 | none
data_of 1 2 | data 71
poll 6 0 | begun 1 0 6 71
purge | purged
head_due | none
finish 6 0 1 | done 1 0 71 1
";

#[test]
fn a_purge_takes_what_is_kept(rt: HostRuntime) -> Result<(), Fail> {
    play_case(&rt, 1, A_PURGE)
}
