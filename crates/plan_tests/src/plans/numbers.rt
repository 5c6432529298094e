//! Integers in each of their forms, and values that are none.
use super::*;

/// The bounds of integers, those of i64, in each form. One beyond them is no TOML here, wherever it stands.
const TAKES_INTEGERS_TO_THEIR_BOUNDS: &str = r#"TooLarge block 1 call 0 | at = 9223372036854775807
TooLarge block 1 call 0 | at = +9_223_372_036_854_775_807
TooLarge block 1 call 0 | at = 0x7FFFFFFFFFFFFFFF
TooLarge block 1 call 0 | at = 0o777777777777777777777
TooLarge block 1 call 0 | at = 0b111111111111111111111111111111111111111111111111111111111111111
Negative block 1 call 0 | at = -9223372036854775808
Negative block 1 call 0 | at = -9_223_372_036_854_775_808
UnknownKey block 1 call 0 | x = 9223372036854775807
UnknownKey block 1 call 0 | x = -9223372036854775808
Toml block 0 call 0 | at = +9223372036854775808
Toml block 0 call 0 | at = 9_223_372_036_854_775_808
Toml block 0 call 0 | at = 0x8000000000000000
Toml block 0 call 0 | at = 0xffffffffffffffff
Toml block 0 call 0 | at = 0o1000000000000000000000
Toml block 0 call 0 | at = 0b1000000000000000000000000000000000000000000000000000000000000000
Toml block 0 call 0 | at = -9223372036854775809
Toml block 0 call 0 | at = 18446744073709551616
Toml block 0 call 0 | at = 340282366920938463463374607431768211456
Toml block 0 call 0 | x = -9223372036854775809
plan | at = 4_611_686_018_427_387_904
plan | at = 0x4000000000000000
plan | at = 0o400000000000000000000
plan | at = 0b100000000000000000000000000000000000000000000000000000000000000
TooLarge block 1 call 0 | at = 0x4000000000000001
TooLarge block 1 call 0 | at = 0o400000000000000000001
TooLarge block 1 call 0 | at = 0b100000000000000000000000000000000000000000000000000000000000001"#;

/// Words that TOML has not as values.
const REFUSES_WORDS_THAT_ARE_NO_VALUES: &str = r#"Toml block 0 call 0 | at = 01
Toml block 0 call 0 | at = +01
Toml block 0 call 0 | at = -01
Toml block 0 call 0 | at = 00
Toml block 0 call 0 | at = ++1
Toml block 0 call 0 | at = + 1
Toml block 0 call 0 | at = 1 000
Toml block 0 call 0 | at = 1,000
Toml block 0 call 0 | at = 1_
Toml block 0 call 0 | at = _1
Toml block 0 call 0 | at = 1__0
Toml block 0 call 0 | at = +0x1
Toml block 0 call 0 | at = -0x1
Toml block 0 call 0 | at = 0X1
Toml block 0 call 0 | at = 0x
Toml block 0 call 0 | at = 0x_1
Toml block 0 call 0 | at = 0x1_
Toml block 0 call 0 | at = 0xg
Toml block 0 call 0 | at = 0o8
Toml block 0 call 0 | at = 0b2
Toml block 0 call 0 | at = 1.
Toml block 0 call 0 | at = .5
Toml block 0 call 0 | at = 1e
Toml block 0 call 0 | at = 1e400
Toml block 0 call 0 | at = NaN
Toml block 0 call 0 | at = 1979-13-01
Toml block 0 call 0 | at = 1979-02-30
Toml block 0 call 0 | at = 24:00:00
Toml block 0 call 0 | at = True
Toml block 0 call 0 | at = one
Toml block 0 call 0 | at ="#;

/// Values that are no integers, in the place of one, and dates in the place of others.
const TAKES_NO_OTHER_VALUE_FOR_AN_INTEGER: &str = r#"WrongType block 1 call 0 | at = 1.0
WrongType block 1 call 0 | at = -0.0
WrongType block 1 call 0 | at = 1e3
WrongType block 1 call 0 | at = 9223372036854775808.0
WrongType block 1 call 0 | at = inf
WrongType block 1 call 0 | at = -nan
WrongType block 1 call 0 | at = 1979-05-27
WrongType block 1 call 0 | at = 1979-05-27T07:32:00Z
WrongType block 1 call 0 | at = 1979-05-27 07:32:00.999999-07:00
WrongType block 1 call 0 | at = 07:32:00
WrongType block 1 call 0 | at = true
WrongType block 1 call 0 | at = [1]
WrongType block 1 call 0 | at = { x = 1 }
WrongType block 1 call 0 | times = 1.0
WrongType block 1 call 0 | every = 1979-05-27
WrongType block 1 call 0 | unit = 1979-05-27
WrongType block 1 call 0 | call = 1979-05-27
WrongType block 1 call 1 | call = [{ op = 1979-05-27 }]
WrongType block 1 call 1 | call = [{ op = "cancel", name = 1979-05-27 }]
WrongType block 1 call 1 | call = [{ op = "schedule", name = "a", delay = 1979-05-27 }]
WrongType block 1 call 1 | call = [{ op = "rate", name = "a", first = 0, period = 1e3 }]
WrongType block 1 call 1 | call = [{ op = "ask", at = 07:32:00 }]"#;

/// Ways to write an integer, and the integer.
const FORMS: &str = "0 0
+0 0
-0 0
+5 5
1_000 1000
1_2_3 123
0x0 0
0x10 16
0x1_0 16
0x0010 16
0xDEADbeef 3735928559
0o17 15
0o7_7 63
0b101 5
0b1_01 5
+65_536 65536
4_611_686_018_427_387_904 4611686018427387904
0x4000000000000000 4611686018427387904";

#[test]
fn reads_integers_in_each_form(rt: HostRuntime) -> Result<(), Fail> {
    for form in FORMS.lines() {
        let (written, value) = form.split_once(" ").ok_or("no integer")?;
        let text = [CALL, "op = \"schedule\"\nname = \"a\"\ndelay = ", written].concat(rt.alloc())?;
        let lines = ["block 0 Ns 1 0\n0 schedule a ", value, "\n"].concat(rt.alloc())?;
        reads(&rt, form, text.as_str(), lines.as_str())?;
    }
    Ok(())
}

#[test]
fn tells_numbers(rt: HostRuntime) -> Result<(), Fail> {
    tells_each(&rt, HEADER, TAKES_INTEGERS_TO_THEIR_BOUNDS)?;
    tells_each(&rt, HEADER, REFUSES_WORDS_THAT_ARE_NO_VALUES)?;
    tells_each(&rt, HEADER, TAKES_NO_OTHER_VALUE_FOR_AN_INTEGER)
}
