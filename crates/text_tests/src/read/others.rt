//! Texts that are no line.
use crate::lines::refuses;

#[test]
fn refuses_other_clocks_and_starts(rt: HostRuntime) {
    refuses(
        &rt,
        "|\n|0\n|0 \n|clock\n| clock\n|+5 clock\n|-5 clock\n|007 clock\n|5 Clock\n|5 clocks\n\
         |5 cloc\n|5 clock 6\n|5clock\n| 5 clock\n|5 clock\n6 clock\n|clock 5\n|5 start 0\n\
         |5 start idle\n|5 start 0 idles\n|5 start 0 task 0 run 0\n|5 start 0 run 0 task 0 due 0\n",
    );
}

#[test]
fn refuses_other_runs_and_tasks(rt: HostRuntime) {
    refuses(
        &rt,
        "5 finish 0 task 0 run 0\n|5 finish 0 task 0 run 0 done\n\
         |5 finish 0 task 0 run 0 again 0\n|5 finish 0 task 0 run 0 failed\n\
         |5 finish 0 task 0 run 0 dropped 1\n|5 finish 0 ok 1\n|5 submit 0 once due 5\n\
         |5 submit 0 schedule\n|5 submit 0 schedule due\n|5 refuse 0\n|5 refuse 0 yes\n\
         |5 cancel 0\n|5 cancel yes\n|5 outside 0 maybe\n|5 end\n|5 end 0 0\n",
    );
}

#[test]
fn refuses_other_words(rt: HostRuntime) {
    refuses(
        &rt,
        "5 policy keep true\n|5 policy remove\n|5 policy remove yes\n|5 shutdowns\n\
         |5 shutdown twice\n|5 shutdown again again\n|5 shutdown  now\n|5 shutdown nowx\n\
         |5 shutdown no\n|5 shutdown Now\n|5 shutdown now now\n|5 shutdown now again\n\
         |5 shutdown again now\n|5 shutdownnow\n|5 shutdown_now\n|5 now\n|5 purge 0\n\
         |5 purges\n|5 purg\n|5 Purge\n|purge\n|5  purge\n|5 ask\n\
         |5 ask queue 0 running 0 shutdown true terminated no\n\
         |5 ask queue 0 running 0 shutdown no terminated\n\
         |5 ask running 0 queue 0 shutdown no terminated no\n|5 error\n|5 error no\n|5 error far\n\
         |5 error no tasks\n",
    );
}
