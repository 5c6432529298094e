//! Marks that stand at one place, where a pixel is ten nanoseconds.
use super::picture_of;
use std::process::Abort;
use std::test::Fail;

/// A mark alone, two and three in two rows at one place, and two that stand one pixel apart.
const FEW: &str = "\
    0 clock\n100 submit 0 schedule due 5\n\
    101 ask queue 1 running 0 shutdown no terminated no\n105 refuse 1 rejected\n\
    108 policy remove true\n109 shutdown\n109 clock\n110 clock\n10600 clock\n";

/// How they are drawn.
const FEW_DRAWN: &str = "\
<use class=\"submit\" href=\"#submit\" x=\"120\" y=\"62\"><title>100 submit 0 schedule due 5
</title></use>
<use class=\"refuse\" href=\"#refuse\" x=\"120\" y=\"62\"><title>100 submit 0 schedule due 5
105 refuse 1 rejected
</title></use>
<text class=\"count\" x=\"126\" y=\"59\">2</text>
<use class=\"ask\" href=\"#ask\" x=\"120\" y=\"116\"><title>101 ask queue 1 running 0 shutdown no terminated no
</title></use>
<use class=\"policy\" href=\"#policy\" x=\"120\" y=\"116\"><title>108 policy remove true
</title></use>
<use class=\"shutdown\" href=\"#shutdown\" x=\"120\" y=\"116\"><title>101 ask queue 1 running 0 shutdown no terminated no
108 policy remove true
109 shutdown
</title></use>
<text class=\"count\" x=\"126\" y=\"113\">3</text>
<use class=\"clock\" href=\"#clock\" x=\"110\" y=\"134\"><title>0 clock
</title></use>
<use class=\"clock\" href=\"#clock\" x=\"120\" y=\"134\"><title>109 clock
</title></use>
<use class=\"clock\" href=\"#clock\" x=\"121\" y=\"134\"><title>110 clock
</title></use>
<use class=\"clock\" href=\"#clock\" x=\"1170\" y=\"134\"><title>10600 clock
</title></use>
</svg>
";

/// Twelve marks of a row at one place.
const MANY: &str = "\
    0 start 0 idle\n0 start 0 idle\n0 start 0 idle\n0 start 0 idle\n\
    1 error busy\n1 error busy\n1 error busy\n1 error busy\n\
    2 start 1 idle\n2 start 1 idle\n2 start 1 idle\n2 start 1 idle\n10600 clock\n";

/// How the top one is drawn, and their number.
const MANY_DRAWN: &str = "\
<use class=\"idle\" href=\"#idle\" x=\"110\" y=\"152\"><title>0 start 0 idle
0 start 0 idle
0 start 0 idle
0 start 0 idle
1 error busy
1 error busy
1 error busy
1 error busy
2 start 1 idle
2 start 1 idle
2 start 1 idle
2 start 1 idle
</title></use>
<text class=\"count\" x=\"116\" y=\"149\">12</text>
</svg>
";

/// Traces, and how they are drawn.
const DRAWN: &[(&str, &str)] = &[(FEW, FEW_DRAWN), (MANY, MANY_DRAWN)];

#[test]
fn marks_at_one_place_have_their_number(rt: HostRuntime) -> Result<(), Fail> {
    for (trace, drawn) in DRAWN {
        let text = picture_of(rt.alloc(), trace)?;
        let (before, _) = text.split_once(*drawn).ok_or(*drawn)?;
        assert!(rt; !before.contains("class=\"count\""), "{drawn}");
    }
    Ok(())
}
