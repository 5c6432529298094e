//! The examples of the folder `examples`, with the bytes of their files: `tools/examples` compares them.
ghost use Rattle.std.specs.Prelude.{◌<◌, length};

use crate::Row;

const ALL: &[Row] = &[
    // A task that is submitted once.
    Row {
        name: "the example one-delay",
        plan: "version = 2\n\n[[block]]\n\n\
               [[block.call]]\nop = \"schedule\"\nname = \"a\"\ndelay = 5\ndelay_unit = \"ns\"\n",
        workers: 1,
        events: "clock 0\nstart 0\nclock 4\nstart 0\nclock 5\nstart 0\nfinish 0 ok 7\n",
        trace: "0 submit 0 schedule due 5\n0 clock\n0 start 0 idle\n\
                4 clock\n4 start 0 idle\n\
                5 clock\n5 start 0 task 0 run 0 due 5\n5 finish 0 task 0 run 0 done 7\n",
    },
    // A task at a fixed rate is late once.
    Row {
        name: "heartbeat",
        plan: "# A heartbeat: a task at a fixed rate, due at 10, 20, 30, .. nanoseconds.\n\
               # The second beat is finished late, at 45. Those of 30 and 40 follow one after\n\
               # the other, and from 50 on the beats are in time again.\n\
               version = 2\n\n[[block]]\n\n\
               [[block.call]]\nop = \"rate\"\nname = \"heartbeat\"\nfirst = 10\nfirst_unit = \"ns\"\nperiod = 10\nperiod_unit = \"ns\"\n",
        workers: 1,
        events: "clock 10\nstart 0\nclock 12\nfinish 0 ok 1\nclock 20\nstart 0\nclock 45\nfinish 0 ok 2\nstart 0\nfinish 0 ok 3\n\
                 start 0\nfinish 0 ok 4\nstart 0\nclock 50\nstart 0\n",
        trace: "0 submit 0 rate due 10\n\
                10 clock\n10 start 0 task 0 run 0 due 10\n\
                12 clock\n12 finish 0 task 0 run 0 again due 20\n\
                20 clock\n20 start 0 task 0 run 1 due 20\n\
                45 clock\n45 finish 0 task 0 run 1 again due 30\n45 start 0 task 0 run 2 due 30\n\
                45 finish 0 task 0 run 2 again due 40\n45 start 0 task 0 run 3 due 40\n45 finish 0 task 0 run 3 again due 50\n\
                45 start 0 idle\n\
                50 clock\n50 start 0 task 0 run 4 due 50\n",
    },
    POLL,
    NIGHTLY,
    // A timeout that is cancelled in time, and one that is not.
    Row {
        name: "timeout",
        plan: "# Timeouts: two requests may take 30 nanoseconds each. The first one is answered\n\
               # in time, so its timeout is cancelled from outside, at 20. The second one is\n\
               # not: its timeout runs at 40, and a cancel comes too late. The plan itself\n\
               # takes back a third one that was not sent. All times are nanoseconds.\n\
               version = 2\n\n[[block]]\n\n\
               [[block.call]]\nop = \"schedule\"\nname = \"first\"\ndelay = 30\n\n\
               [[block.call]]\nop = \"schedule\"\nname = \"second\"\nat = 10\ndelay = 30\n\n\
               [[block.call]]\nop = \"schedule\"\nname = \"third\"\nat = 10\ndelay = 30\n\n\
               [[block.call]]\nop = \"cancel\"\nname = \"third\"\nat = 15\n",
        workers: 1,
        events: "clock 20\ncancel 0\ncancel 0\nclock 30\nstart 0\nclock 40\nstart 0\nfinish 0 ok 0\ncancel 1\nstart 0\n",
        trace: "0 submit 0 schedule due 30\n\
                10 submit 1 schedule due 40\n10 submit 2 schedule due 40\n\
                15 cancel 2 yes\n\
                20 clock\n20 outside 0 yes\n20 outside 0 no\n\
                30 clock\n30 start 0 idle\n\
                40 clock\n40 start 0 task 1 run 0 due 40\n40 finish 0 task 1 run 0 done 0\n40 outside 1 no\n40 start 0 idle\n",
    },
    RETENTION,
    // A graceful shutdown.
    Row {
        name: "shutdown",
        plan: "# A graceful shutdown: a mail that is due at 30 is still sent, and the heartbeat\n\
               # ends. At 20 the service is shut. The next run of the heartbeat waits and is\n\
               # ended; its run that is under way ends with its finish. A task that is submitted\n\
               # after the shutdown is rejected. Once the mail is sent, all is done. All times are\n\
               # nanoseconds.\n\
               version = 2\n\n[[block]]\n\n\
               [[block.call]]\nop = \"rate\"\nname = \"heartbeat\"\nfirst = 10\nperiod = 10\n\n\
               [[block.call]]\nop = \"fixed\"\nname = \"poll\"\nfirst = 15\ndelay = 10\n\n\
               [[block.call]]\nop = \"schedule\"\nname = \"mail\"\ndelay = 30\n\n\
               [[block.call]]\nop = \"shutdown\"\nat = 20\n\n\
               [[block.call]]\nop = \"schedule\"\nname = \"late\"\nat = 21\ndelay = 5\n\n\
               [[block.call]]\nop = \"ask\"\nat = 22\n\n\
               [[block.call]]\nop = \"ask\"\nat = 40\n",
        workers: 1,
        events: "clock 10\nstart 0\nfinish 0 ok 0\nclock 15\nstart 0\nclock 20\nclock 25\nfinish 0 ok 0\nstart 0\nclock 30\n\
                 start 0\nfinish 0 ok 1\nclock 40\n",
        trace: "0 submit 0 rate due 10\n0 submit 1 fixed due 15\n0 submit 2 schedule due 30\n\
                10 clock\n10 start 0 task 0 run 0 due 10\n10 finish 0 task 0 run 0 again due 20\n\
                15 clock\n15 start 0 task 1 run 0 due 15\n\
                20 shutdown\n20 end 0\n20 clock\n\
                21 refuse 3 rejected\n\
                22 ask queue 1 running 1 shutdown yes terminated no\n\
                25 clock\n25 finish 0 task 1 run 0 ended\n25 start 0 idle\n\
                30 clock\n30 start 0 task 2 run 0 due 30\n30 finish 0 task 2 run 0 done 1\n\
                40 ask queue 0 running 0 shutdown yes terminated yes\n40 clock\n",
    },
    // A service with two workers that is stopped at once.
    Row {
        name: "stop",
        plan: "# A service that is stopped at once, with two workers. At 15 an import and a beat\n\
               # of the heartbeat are under way: both go on to their ends. A mail that is due\n\
               # already, since no worker was free, and a report that is due later are ended, and\n\
               # a reminder that was cancelled leaves the queue. Nothing starts any more, and a\n\
               # task that is submitted then is rejected. The heartbeat ends with its run, though\n\
               # the policy says that periodic tasks go on after a shutdown. All times are\n\
               # nanoseconds.\n\
               version = 2\n\n[[block]]\n\n\
               [[block.call]]\nop = \"policy\"\nwhich = \"continue\"\nvalue = true\n\n\
               [[block.call]]\nop = \"execute\"\nname = \"import\"\n\n\
               [[block.call]]\nop = \"rate\"\nname = \"heartbeat\"\nfirst = 10\nperiod = 10\n\n\
               [[block.call]]\nop = \"schedule\"\nname = \"mail\"\ndelay = 12\n\n\
               [[block.call]]\nop = \"schedule\"\nname = \"report\"\ndelay = 30\n\n\
               [[block.call]]\nop = \"schedule\"\nname = \"reminder\"\ndelay = 25\n\n\
               [[block.call]]\nop = \"cancel\"\nname = \"reminder\"\nat = 8\n\n\
               [[block.call]]\nop = \"ask\"\nat = 14\n\n\
               [[block.call]]\nop = \"shutdown_now\"\nat = 15\n\n\
               [[block.call]]\nop = \"ask\"\nat = 15\n\n\
               [[block.call]]\nop = \"execute\"\nname = \"late\"\nat = 16\n\n\
               [[block.call]]\nop = \"ask\"\nat = 40\n",
        workers: 2,
        events: "clock 0\nstart 0\nclock 10\nstart 1\nclock 14\nclock 16\nclock 18\nfinish 1 ok 0\nstart 1\nclock 25\n\
                 finish 0 ok 7\nclock 40\n",
        trace: "0 policy continue true\n0 submit 0 schedule due 0\n0 submit 1 rate due 10\n0 submit 2 schedule due 12\n\
                0 submit 3 schedule due 30\n0 submit 4 schedule due 25\n0 clock\n0 start 0 task 0 run 0 due 0\n\
                8 cancel 4 yes\n\
                10 clock\n10 start 1 task 1 run 0 due 10\n\
                14 ask queue 3 running 2 shutdown no terminated no\n14 clock\n\
                15 shutdown now\n15 end 2\n15 end 3\n15 ask queue 0 running 2 shutdown yes terminated no\n\
                16 refuse 5 rejected\n16 clock\n\
                18 clock\n18 finish 1 task 1 run 0 ended\n18 start 1 idle\n\
                25 clock\n25 finish 0 task 0 run 0 done 7\n\
                40 ask queue 0 running 0 shutdown yes terminated yes\n40 clock\n",
    },
];

/// The rows of this module.
pub fn all() -> &'static [Row]
    ensures { 0 < length result.now }
{
    ALL
}

/// A task with a fixed delay fails in the end.
pub const POLL: Row = Row {
    name: "poll",
    plan: "# A poll: a task that runs again 20 nanoseconds after each of its runs has\n\
           # ended, however long the run took. Its third run fails, and no other follows.\n\
           version = 2\n\n[[block]]\n\n\
           [[block.call]]\nop = \"fixed\"\nname = \"poll\"\nfirst = 0\ndelay = 20\ndelay_unit = \"ns\"\n",
    workers: 1,
    events: "clock 0\nstart 0\nclock 5\nfinish 0 ok 0\nclock 24\nstart 0\nclock 30\nstart 0\nclock 42\nfinish 0 ok 3\nclock 62\n\
             start 0\nclock 63\nfinish 0 fail 7\nclock 1000\nstart 0\n",
    trace: "0 submit 0 fixed due 0\n0 clock\n0 start 0 task 0 run 0 due 0\n\
            5 clock\n5 finish 0 task 0 run 0 again due 25\n\
            24 clock\n24 start 0 idle\n\
            30 clock\n30 start 0 task 0 run 1 due 25\n\
            42 clock\n42 finish 0 task 0 run 1 again due 62\n\
            62 clock\n62 start 0 task 0 run 2 due 62\n\
            63 clock\n63 finish 0 task 0 run 2 failed 7\n\
            1000 clock\n1000 start 0 idle\n",
};

/// A block that is repeated each night.
pub const NIGHTLY: Row = Row {
    name: "nightly",
    plan: "# A week of nightly backups: at 2 o'clock of each of seven days, counted from\n\
           # Monday's midnight, a backup that has to begin within its minute. If it has not\n\
           # by 2:10, the same night's backup is cancelled. Hours, days and minutes stand\n\
           # here as such, each beside its time: that is what version 2 of plans is for.\n\
           version = 2\n\n[[block]]\nat = 2\nat_unit = \"h\"\ntimes = 7\nevery = 1\nevery_unit = \"d\"\n\n\
           [[block.call]]\nop = \"schedule\"\nname = \"backup\"\ndelay = 1\ndelay_unit = \"min\"\n\n\
           [[block.call]]\nop = \"cancel\"\nname = \"backup\"\nat = 10\nat_unit = \"min\"\n",
    workers: 1,
    events: "clock 7260000000000\nstart 0\nclock 7500000000000\nfinish 0 ok 0\nclock 93660000000000\nstart 0\n\
             clock 94000000000000\nfinish 0 fail 3\nclock 604800000000000\nstart 0\n",
    trace: "7200000000000 submit 0 schedule due 7260000000000\n\
            7260000000000 clock\n7260000000000 start 0 task 0 run 0 due 7260000000000\n\
            7500000000000 clock\n7500000000000 finish 0 task 0 run 0 done 0\n\
            7800000000000 cancel 0 no\n\
            93600000000000 submit 1 schedule due 93660000000000\n\
            93660000000000 clock\n93660000000000 start 0 task 1 run 0 due 93660000000000\n\
            94000000000000 clock\n94000000000000 finish 0 task 1 run 0 failed 3\n\
            94200000000000 cancel 1 no\n\
            180000000000000 submit 2 schedule due 180060000000000\n\
            180600000000000 cancel 2 yes\n\
            266400000000000 submit 3 schedule due 266460000000000\n\
            267000000000000 cancel 3 yes\n\
            352800000000000 submit 4 schedule due 352860000000000\n\
            353400000000000 cancel 4 yes\n\
            439200000000000 submit 5 schedule due 439260000000000\n\
            439800000000000 cancel 5 yes\n\
            525600000000000 submit 6 schedule due 525660000000000\n\
            526200000000000 cancel 6 yes\n\
            604800000000000 clock\n604800000000000 start 0 idle\n",
};

/// Cancelled timeouts that stay in the queue, or leave it.
pub const RETENTION: Row = Row {
    name: "retention",
    plan: "# A service that cancels most of its timeouts: each request gets one, and nearly\n\
           # each is answered in time. By default a cancelled timeout stays in the queue\n\
           # until a start meets it at its due moment; with the remove policy it leaves at\n\
           # once. The questions show how many stand in the queue. All times are nanoseconds.\n\
           version = 2\n\n[[block]]\n\n\
           [[block.call]]\nop = \"schedule\"\nname = \"first\"\ndelay = 100\n\n\
           [[block.call]]\nop = \"schedule\"\nname = \"second\"\ndelay = 110\n\n\
           [[block.call]]\nop = \"schedule\"\nname = \"third\"\ndelay = 120\n\n\
           [[block.call]]\nop = \"cancel\"\nname = \"first\"\nat = 5\n\n\
           [[block.call]]\nop = \"cancel\"\nname = \"second\"\nat = 6\n\n\
           [[block.call]]\nop = \"ask\"\nat = 7\n\n\
           [[block.call]]\nop = \"policy\"\nwhich = \"remove\"\nvalue = true\nat = 8\n\n\
           [[block.call]]\nop = \"cancel\"\nname = \"third\"\nat = 9\n\n\
           [[block.call]]\nop = \"ask\"\nat = 10\n\n\
           [[block.call]]\nop = \"ask\"\nat = 106\n",
    workers: 1,
    events: "clock 10\nstart 0\nclock 105\nstart 0\nclock 106\n",
    trace: "0 submit 0 schedule due 100\n0 submit 1 schedule due 110\n0 submit 2 schedule due 120\n\
            5 cancel 0 yes\n\
            6 cancel 1 yes\n\
            7 ask queue 3 running 0 shutdown no terminated no\n\
            8 policy remove true\n\
            9 cancel 2 yes\n\
            10 ask queue 2 running 0 shutdown no terminated no\n10 clock\n10 start 0 idle\n\
            105 clock\n105 start 0 idle\n\
            106 ask queue 1 running 0 shutdown no terminated no\n106 clock\n",
};
