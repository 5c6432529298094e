//! How keys, strings, values and comments are spelled.

use super::Places;

/// Texts by what they show.
pub const TEXTS: &[Places] = &[
    Places {
        name: "keys in quotes",
        text: "\"version\" = 2\n\
        [[\"block\"]]\n\
        'at' = 1\n\
        [['block'.\"call\"]]\n\
        \"a b\" = 1\n\
        \"\" = 2\n\
        'x\\y' = 3\n",
        rows: "1 | 0 0 version\n2 | 1 0\n3 | 1 0 at\n4 | 1 1\n5 | 1 1 a b\n6 | 1 1 \n7 | 1 1 x\\y",
    },
    Places {
        name: "keys with escapes are told of nothing",
        text: "\"versi\\u006fn\" = 2\n[[block]]\n\"\\u0061t\" = 1\ntimes = 2\n",
        rows: "- | 0 0 version\n2 | 1 0\n- | 1 0 at\n4 | 1 0 times",
    },
    Places {
        name: "a key of a header with escapes is told of nothing",
        text: "version = 2\n[[block]]\n[[\"bl\\u006fck\"]]\nat = 1\n[[block]]\nat = 2\n",
        rows: "1 | 0 0 version\n2 | 1 0\n- | 2 0\n- | 1 0 at\n- | 3 0\n- | 2 0 at",
    },
    Places {
        name: "keys with dots",
        text: "a.b = 1\n\
        a . c = 2\n\
        b.\"a\".block = 3\n\
        [[block]]\n\
        x.at = 1\n\
        at = 1\n\
        [[block.call]]\n\
        x.y.op = 2\n\
        op.x = 3\n",
        rows: "1 | 0 0 a\n- | 0 0 c\n3 | 0 0 b\n4 | 0 0 block\n5 | 1 0 x\n6 | 1 0 at\n8 | 1 1 x\n9 | 1 1 op",
    },
    Places {
        name: "keys with dots behind that of the blocks",
        text: "block.at = 1\nblock.call = [{}]\n",
        rows: "1 | 0 0 block\n- | 1 0\n- | 0 0 at\n- | 1 1",
    },
    Places {
        name: "comments",
        text: "# version = 1\n\
        version = 2 # [[block]]\n\
        #[[block]]\n\
        [[block]] # \"\"\" it's\n\
        # at = 1\n\
        at = 2 # ' } ]\n\
        [[block.call]]#op = 1\n\
        op = \"a#b\"\n\
        x = [ # ]\n\
        1, # at = 3\n\
        ]\n\
        at = 4",
        rows: "2 | 0 0 version\n4 | 1 0\n6 | 1 0 at\n7 | 1 1\n8 | 1 1 op\n9 | 1 1 x\n12 | 1 1 at\n- | 2 0",
    },
    Places {
        name: "strings of several lines",
        text: "a = \"\"\"\n\
        [[block]]\n\
        \\\"\"\" x = 1\n\
        \"\"\"\n\
        b = '''[[block]]\n\
        \\''' # one\n\
        c = \"\"\"\"\"\"\n\
        d = \"\"\"two \"\" quotes\"\"\"\"\"\n\
        e = '''one'''' # more\n\
        [[block]]\n\
        at = 1\n",
        rows: "1 | 0 0 a\n- | 0 0 x\n5 | 0 0 b\n7 | 0 0 c\n8 | 0 0 d\n9 | 0 0 e\n10 | 1 0\n11 | 1 0 at\n- | 2 0",
    },
    Places {
        name: "strings of one line",
        text: "a = \"]] \\\" [[block]] \\\\\"\n\
        b = '\\'\n\
        c = \"\"\n\
        d = ['', \"}\", '{']\n\
        [[block]]\n\
        name = \"= x\"\n",
        rows: "1 | 0 0 a\n2 | 0 0 b\n3 | 0 0 c\n4 | 0 0 d\n5 | 1 0\n6 | 1 0 name\n- | 1 0 x",
    },
    Places {
        name: "values of all types",
        text: "a = 1979-05-27T07:32:00.5-07:00\n\
        b = 1979-05-27 07:32:00\n\
        c = -1_000.5e+3\n\
        d = +inf\n\
        e = true\n\
        f = 0xFF\n\
        1.5 = 1\n\
        -- = 2\n",
        rows: "1 | 0 0 a\n2 | 0 0 b\n3 | 0 0 c\n4 | 0 0 d\n5 | 0 0 e\n6 | 0 0 f\n7 | 0 0 1\n8 | 0 0 --",
    },
    Places {
        name: "line ends and a byte order mark",
        text: "\u{FEFF}[[block]]\r\n\tat = 1\r\n\r\n  [[block.call]]\r\n\top=\"ask\"\r\n",
        rows: "1 | 1 0\n2 | 1 0 at\n4 | 1 1\n5 | 1 1 op",
    },
    Places {
        name: "a byte order mark and no newline",
        text: "\u{FEFF}version=2",
        rows: "1 | 0 0 version",
    },
];
