//! Words that are none of those which can stand there.

pub const OF_NO_EVENT: &str = "\
tick 5 | \"tick\" is no event; one of clock, start, finish, cancel
5 clock | \"5\" is no event; one of clock, start, finish, cancel
CLICKS 5 | \"CLICKS\" is no event; one of clock, start, finish, cancel
shutdown | \"shutdown\" is no event; one of clock, start, finish, cancel
call ask | \"call\" is no event; one of clock, start, finish, cancel
";

pub const NEAR_THOSE_OF_EVENTS: &str = "\
clok 5 | \"clok\" is no event; clock may be meant; one of clock, start, finish, cancel
Clock 5 | \"Clock\" is no event; clock may be meant; one of clock, start, finish, cancel
strat 0 | \"strat\" is no event; start may be meant; one of clock, start, finish, cancel
finished 0 ok 7 | \"finished\" is no event; finish may be meant; one of clock, start, finish, cancel
finishing 0 ok 7 | \"finishing\" is no event; one of clock, start, finish, cancel
cancle 05 | \"cancle\" is no event; cancel may be meant; one of clock, start, finish, cancel
cl\u{F6}ck: 5 | \"cl\u{F6}ck:\" is no event; clock may be meant; one of clock, start, finish, cancel
";

pub const IN_OTHER_LETTERS: &str = "\
CLOCK 5 | \"CLOCK\" is no event; clock may be meant; one of clock, start, finish, cancel
Start 0 | \"Start\" is no event; start may be meant; one of clock, start, finish, cancel
fINISH 0 OK 7 | \"fINISH\" is no event; finish may be meant; one of clock, start, finish, cancel
finish 0 OK 7 | \"OK\" is no ending; ok may be meant; one of ok, fail
";

pub const OF_NO_ENDING: &str = "\
finish 0 done 7 | \"done\" is no ending; one of ok, fail
finish 0 okay 7 | \"okay\" is no ending; ok may be meant; one of ok, fail
finish 0 7 | \"7\" is no ending; one of ok, fail
finish 0 failed 3 | \"failed\" is no ending; fail may be meant; one of ok, fail
finish 0 k | \"k\" is no ending; ok may be meant; one of ok, fail
finish 0 x 05 | \"x\" is no ending; one of ok, fail
";
