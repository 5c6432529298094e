//! Lines of events that could not stand.

/// Tables of texts that are held against `ONE_DELAY`.
pub const OF_ONE_DELAY: &str = "\
    starts | 0 submit 0 schedule due 5 / 0 clock / 0 start 0 idle / 4 clock / 4 start 0 idle / 5 clock / \n\
    p:7: \"5 start 0 idle\": breaks; \"5 start 0 task 0 run 0 due 5\" could stand here | 5 start 0 idle\n\
    p:7: \"5 start 0 task 0 run 1 due 5\": breaks; \"5 start 0 task 0 run 0 due 5\" could stand here | 5 start 0 task 0 run 1 due 5\n\
    p:7: \"5 start 0 task 0 run 0 due 6\": breaks; \"5 start 0 task 0 run 0 due 5\" could stand here | 5 start 0 task 0 run 0 due 6\n\
    p:7: \"5 start 0 task 1 run 0 due 5\": breaks; \"5 start 0 task 0 run 0 due 5\" could stand here | 5 start 0 task 1 run 0 due 5\n\
    p:7: \"4 start 0 task 0 run 0 due 5\": breaks; \"5 start 0 task 0 run 0 due 5\" could stand here | 4 start 0 task 0 run 0 due 5\n\
    p:7: \"6 start 0 task 0 run 0 due 5\": breaks; \"6 clock\" or \"5 start 0 task 0 run 0 due 5\" could stand here | 6 start 0 task 0 run 0 due 5\n\
    p:7: \"5 start 1 task 0 run 0 due 5\": breaks; \"5 error no worker\" could stand here; conforms with --workers 2 to 64 | 5 start 1 task 0 run 0 due 5 / 5 clock\n\
    \n\
    a start too early | 0 submit 0 schedule due 5 / 4 clock / \n\
    p:3: \"4 start 0 task 0 run 0 due 5\": breaks; \"4 start 0 idle\" could stand here | 4 start 0 task 0 run 0 due 5\n\
    p:3: \"5 start 0 task 0 run 0 due 5\": breaks; \"5 clock\" or \"4 start 0 idle\" could stand here | 5 start 0 task 0 run 0 due 5\n\
    \n\
    starts and finishes of the wrong worker | 0 submit 0 schedule due 5 / 5 clock / 5 start 0 task 0 run 0 due 5 / \n\
    p:4: \"5 start 0 idle\": breaks; \"5 finish 0 task 0 run 0 done 0\" or \"5 error busy\" could stand here | 5 start 0 idle\n\
    p:4: \"5 finish 1 task 0 run 0 done 7\": breaks; \"5 error no worker\" could stand here | 5 finish 1 task 0 run 0 done 7\n\
    \n\
    finishes of a worker that has not started | 0 submit 0 schedule due 5 / 5 clock / \n\
    p:3: \"5 finish 0 task 0 run 0 done 7\": breaks; \"5 start 0 task 0 run 0 due 5\" or \"5 error not running\" could stand here | 5 finish 0 task 0 run 0 done 7\n\
    \n\
    finishes | 0 submit 0 schedule due 5 / 5 clock / 5 start 0 task 0 run 0 due 5 / \n\
    p:4: \"5 finish 0 task 0 run 1 done 7\": breaks; \"5 finish 0 task 0 run 0 done 7\" could stand here | 5 finish 0 task 0 run 1 done 7\n\
    p:4: \"5 finish 0 task 0 run 0 again due 9\": breaks; \"5 finish 0 task 0 run 0 done 0\" could stand here | 5 finish 0 task 0 run 0 again due 9\n\
    \n\
    clocks | \n\
    p:1: \"0 clock\": breaks; \"0 submit 0 schedule due 5\" could stand here | 0 clock\n\
    p:1: \"7 clock\": breaks; \"0 submit 0 schedule due 5\" could stand here | 7 clock\n\
    p:3: \"3 clock\": breaks; \"5 error backward\" or \"5 clock\" could stand here | 0 submit 0 schedule due 5 / 5 clock / 3 clock\n\
    p:3: \"4611686018427387905 clock\": breaks; \"5 error too far\" could stand here | 0 submit 0 schedule due 5 / 5 clock / 4611686018427387905 clock\n\
    \n\
    cancels from outside | 0 submit 0 schedule due 5 / 3 clock / \n\
    p:3: \"3 outside 0 no\": breaks; \"3 outside 0 yes\" could stand here | 3 outside 0 no\n\
    p:4: \"3 outside 0 yes\": breaks; \"3 outside 0 no\" could stand here | 3 outside 0 yes / 3 outside 0 yes\n\
    p:3: \"3 outside 1 yes\": breaks; \"3 error no task\" could stand here | 3 outside 1 yes\n\
    p:3: \"4 outside 0 yes\": breaks; \"4 clock\" or \"3 outside 0 yes\" could stand here | 4 outside 0 yes\n\
    \n\
    purges | 0 submit 0 schedule due 5 / 3 clock / \n\
    conforms | 3 purge / 3 purge\n\
    p:3: \"2 purge\": breaks; \"3 purge\" could stand here | 2 purge\n\
    p:3: \"4 purge\": breaks; \"4 clock\" or \"3 purge\" could stand here | 4 purge\n\
    p:4: \"4 purge\": breaks; \"4 clock\" or \"3 purge\" could stand here | 3 outside 0 yes / 4 purge\n\
    \n\
    errors | 0 submit 0 schedule due 5 / 3 clock / \n\
    p:3: \"3 error busy\": breaks; \"3 start 0 idle\" could stand here | 3 error busy\n\
    p:3: \"2 error not running\": breaks; \"3 start 0 idle\" or \"3 error not running\" could stand here | 2 error not running\n\
    p:3: \"2 error backward\": breaks; \"3 error backward\" or \"3 clock\" could stand here | 2 error backward\n\
    p:3: \"4 error too far\": breaks; \"4 clock\" or \"3 error too far\" could stand here | 4 error too far\n\
    p:3: \"2 error no worker\": breaks; \"3 error no worker\" could stand here | 2 error no worker\n\
    p:3: \"2 error no task\": breaks; \"3 error no task\" could stand here | 2 error no task";

/// A task that is cancelled while it waits, and an ask.
pub const A_KEPT_TASK: &str = "\
version = 1

[[block]]
call = [
  { op = \"schedule\", name = \"a\", delay = 10 },
  { op = \"cancel\", name = \"a\", at = 2 },
  { op = \"ask\", at = 3 },
]
";

/// Tables of texts that are held against `A_KEPT_TASK`.
pub const OF_A_KEPT_TASK: &str = "\
    purges before an ask | 0 submit 0 schedule due 10 / 2 cancel 0 yes / \n\
    conforms | 2 purge / 3 ask queue 0 running 0 shutdown no terminated no / 3 purge\n\
    conforms | 3 ask queue 1 running 0 shutdown no terminated no / 3 purge\n\
    p:4: \"3 ask queue 1 running 0 shutdown no term\"...: breaks; \"3 ask queue 0 running 0 shutdown no terminated no\" could stand here | 2 purge / 3 ask queue 1 running 0 shutdown no terminated no\n\
    p:3: \"3 ask queue 0 running 0 shutdown no term\"...: breaks; \"3 ask queue 1 running 0 shutdown no terminated no\" could stand here | 3 ask queue 0 running 0 shutdown no terminated no\n\
    p:3: \"3 purge\": breaks; \"3 ask queue 1 running 0 shutdown no terminated no\" or \"2 purge\" could stand here | 3 purge";

/// Tables of texts that are held against `A_RATE`.
pub const OF_A_RATE: &str = "\
    finishes | 0 submit 0 rate due 10 / 25 clock / 25 start 0 task 0 run 0 due 10 / \n\
    p:4: \"25 finish 0 task 0 run 0 again due 35\": breaks; \"25 finish 0 task 0 run 0 again due 20\" could stand here | 25 finish 0 task 0 run 0 again due 35\n\
    p:4: \"25 finish 0 task 0 run 0 done 7\": breaks; \"25 finish 0 task 0 run 0 again due 20\" could stand here | 25 finish 0 task 0 run 0 done 7\n\
    p:4: \"25 finish 0 task 0 run 1 failed 3\": breaks; \"25 finish 0 task 0 run 0 failed 3\" could stand here | 25 finish 0 task 0 run 1 failed 3\n\
    p:4: \"25 finish 0 task 0 run 0 dropped\": breaks; \"25 finish 0 task 0 run 0 again due 20\" could stand here | 25 finish 0 task 0 run 0 dropped";
