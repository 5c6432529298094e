//! Bars of one worker that lie over one another, where a pixel is ten nanoseconds.
use super::picture_of;
use std::process::Abort;
use std::test::Fail;

/// Two runs in one pile without room for its label, a third that begins where these end, and one with room for its label.
const TWO: &str = "\
    0 start 0 task 0 run 0 due 0\n9 finish 0 task 0 run 0 failed 1\n\
    10 start 0 task 1 run 0 due 9\n19 finish 0 task 1 run 0 done 2\n\
    40 start 0 task 2 run 0 due 9\n49 finish 0 task 2 run 0 done 2\n\
    1000 start 0 task 3 run 12 due 9\n2000 finish 0 task 3 run 12 done 2\n10600 clock\n";

/// How they are drawn.
const TWO_DRAWN: &str = "\
<rect class=\"failed\" x=\"110\" y=\"172\" width=\"4\" height=\"22\"><title>2 runs
?
0 start 0 task 0 run 0 due 0
9 finish 0 task 0 run 0 failed 1
?
10 start 0 task 1 run 0 due 9
19 finish 0 task 1 run 0 done 2
</title></rect>
<text class=\"count\" x=\"116\" y=\"172\">2</text>
<rect class=\"done\" x=\"114\" y=\"172\" width=\"3\" height=\"22\"><title>?
40 start 0 task 2 run 0 due 9
49 finish 0 task 2 run 0 done 2
</title></rect>
<rect class=\"done\" x=\"210\" y=\"172\" width=\"100\" height=\"22\"><title>?
1000 start 0 task 3 run 12 due 9
2000 finish 0 task 3 run 12 done 2
</title></rect>
<text class=\"run\" x=\"214\" y=\"187\">? #12</text>
";

/// Three runs in one pile with room for its label, of which the last is under way.
const THREE: &str = "\
    0 start 1 task 0 run 0 due 0\n9 finish 1 task 0 run 0 done 1\n\
    10 start 1 task 1 run 0 due 9\n19 finish 1 task 1 run 0 ended\n\
    20 start 1 task 2 run 0 due 9\n10600 clock\n";

/// How they are drawn.
const THREE_DRAWN: &str = "\
<rect class=\"open\" x=\"110\" y=\"200\" width=\"1060\" height=\"22\"><title>3 runs
?
0 start 1 task 0 run 0 due 0
9 finish 1 task 0 run 0 done 1
?
10 start 1 task 1 run 0 due 9
19 finish 1 task 1 run 0 ended
?
20 start 1 task 2 run 0 due 9
</title></rect>
<text class=\"run\" x=\"114\" y=\"215\">3 runs</text>
";

/// Two runs of each of two workers, in turn, in piles without room for their labels.
const LANES: &str = "\
    0 start 0 task 0 run 0 due 0\n0 start 1 task 1 run 0 due 0\n\
    5 finish 0 task 0 run 0 done 1\n5 finish 1 task 1 run 0 again due 20\n\
    5 start 0 task 2 run 0 due 0\n5 start 1 task 3 run 0 due 0\n\
    7 finish 0 task 2 run 0 dropped\n7 finish 1 task 3 run 0 again due 30\n\
    10600 clock\n";

/// How they are drawn.
const LANES_DRAWN: &str = "\
<rect class=\"dropped\" x=\"110\" y=\"172\" width=\"3\" height=\"22\"><title>2 runs
?
0 start 0 task 0 run 0 due 0
5 finish 0 task 0 run 0 done 1
?
5 start 0 task 2 run 0 due 0
7 finish 0 task 2 run 0 dropped
</title></rect>
<text class=\"count\" x=\"115\" y=\"172\">2</text>
<rect class=\"again\" x=\"110\" y=\"200\" width=\"3\" height=\"22\"><title>2 runs
?
0 start 1 task 1 run 0 due 0
5 finish 1 task 1 run 0 again due 20
?
5 start 1 task 3 run 0 due 0
7 finish 1 task 3 run 0 again due 30
</title></rect>
<text class=\"count\" x=\"115\" y=\"200\">2</text>
";

/// Traces, and how they are drawn.
const DRAWN: &[(&str, &str)] = &[(TWO, TWO_DRAWN), (THREE, THREE_DRAWN), (LANES, LANES_DRAWN)];

#[test]
fn runs_that_lie_over_one_another_are_one_bar(rt: HostRuntime) -> Result<(), Fail> {
    for (trace, drawn) in DRAWN {
        let text = picture_of(rt.alloc(), trace)?;
        let (_, behind) = text.split_once(*drawn).ok_or(*drawn)?;
        assert!(rt;
            !behind.contains("<rect") && !behind.contains("class=\"run\""),
            "{drawn}"
        );
    }
    Ok(())
}
