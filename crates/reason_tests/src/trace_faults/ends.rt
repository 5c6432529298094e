//! Lines of calls of the plan, and of the tasks that they end.

pub const A_SWEEP: &str = "\
version = 1

[[block]]
call = [
  { op = \"policy\", which = \"execute\", value = false },
  { op = \"schedule\", name = \"a\", delay = 1 },
  { op = \"schedule\", name = \"b\", delay = 100 },
  { op = \"rate\", name = \"c\", first = 3, period = 3 },
  { op = \"shutdown\", at = 5 },
  { op = \"shutdown\", at = 6 },
]
";

/// Tables of texts that are held against `A_SWEEP`.
pub const OF_A_SWEEP: &str = "\
    calls | \n\
    p:1: \"0 submit 0 schedule due 1\": breaks; \"0 policy execute false\" could stand here | 0 submit 0 schedule due 1\n\
    p:1: \"0 start 0 task 0 run 0 due 1\": breaks; \"0 start 0 idle\" could stand here | 0 start 0 task 0 run 0 due 1\n\
    p:2: \"0 submit 0 rate due 1\": breaks; \"0 submit 0 schedule due 1\" could stand here | 0 policy execute false / 0 submit 0 rate due 1\n\
    p:2: \"3 submit 0 schedule due 4\": breaks; \"0 submit 0 schedule due 1\" could stand here | 0 policy execute false / 3 submit 0 schedule due 4\n\
    p:2: \"0 refuse 0 illegal\": breaks; \"0 submit 0 schedule due 1\" could stand here | 0 policy execute false / 0 refuse 0 illegal\n\
    p:2: \"9 clock\": breaks; \"0 submit 0 schedule due 1\" could stand here | 0 policy execute false / 9 clock\n\
    \n\
    calls behind others | 0 policy execute false / 0 submit 0 schedule due 1 / 0 submit 1 schedule due 100 / 0 submit 2 rate due 3 / \n\
    p:5: \"5 shutdown now\": breaks; \"5 shutdown\" could stand here | 5 shutdown now\n\
    p:5: \"5 cancel 1 yes\": breaks; \"5 shutdown\" could stand here | 5 cancel 1 yes\n\
    p:5: \"5 ask queue 1 running 0 shutdown no term\"...: breaks; \"5 shutdown\" could stand here | 5 ask queue 1 running 0 shutdown no terminated no\n\
    \n\
    ends of tasks | 0 policy execute false / 0 submit 0 schedule due 1 / 0 submit 1 schedule due 100 / 0 submit 2 rate due 3 / 5 shutdown / \n\
    conforms | 5 end 1 / 5 end 2\n\
    p:7: the text ends: breaks; \"5 end 2\" is wanted | 5 end 1\n\
    p:6: \"5 end 2\": breaks; \"5 end 1\" is wanted | 5 end 2\n\
    p:6: \"6 shutdown again\": breaks; \"5 end 1\" is wanted | 6 shutdown again\n\
    p:7: \"6 end 2\": breaks; \"5 end 2\" is wanted | 5 end 1 / 6 end 2\n\
    p:7: \"x\": no such line; \"5 end 2\" is wanted | 5 end 1 / x\n\
    p:8: \"5 end 0\": breaks; \"6 shutdown again\", \"5 clock\" or \"5 start 0 task 0 run 0 due 1\" could stand here | 5 end 1 / 5 end 2 / 5 end 0";

/// Tables of texts with more calls than `ONE_DELAY` has.
pub const PAST_THE_LAST: &str = "\
    calls past the last | 0 submit 0 schedule due 5 / 4 clock / \n\
    p:3: \"0 submit 0 schedule due 5\": breaks; \"4 clock\" or \"4 start 0 idle\" could stand here | 0 submit 0 schedule due 5\n\
    p:3: \"6 shutdown\": breaks; \"6 clock\" could stand here | 6 shutdown";
