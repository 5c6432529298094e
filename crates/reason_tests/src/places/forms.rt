//! The forms in which the tables of a plan stand.

use super::Places;

/// Texts by what they show.
pub const TEXTS: &[Places] = &[
    Places {
        name: "below headers",
        text: "version = 2\n\
        [[block]]\n\
        at = 1\n\
        [[block.call]]\n\
        op = \"ask\"\n\
        at = 2\n\
        [[block.call]]\n\
        op = \"ask\"\n\
        \n\
        [[ block ]]\n\
        [[ block . call ]]\n\
        at = 7\n",
        rows: "1 | 0 0 version\n2 | 0 0 block\n2 | 1 0\n3 | 1 0 at\n4 | 1 0 call\n4 | 1 1\n5 | 1 1 op\n6 | 1 1 at\n7 | 1 2\n8 | 1 2 op\n\
         - | 1 2 at\n- | 1 3\n10 | 2 0\n- | 2 0 at\n11 | 2 0 call\n11 | 2 1\n12 | 2 1 at\n- | 3 0",
    },
    Places {
        name: "inline",
        text: "block = [\n\
        { at = 1, call = [\n\
        { op = \"ask\",\n\
        at = 2 }, { op = \"ask\" },\n\
        ], times = 3 },\n\
        {},\n\
        { call = [{ op = 1, at = 5 }], every = 2 } ]\n\
        version = 2\n",
        rows: "1 | 0 0 block\n2 | 1 0\n2 | 1 0 at\n2 | 1 0 call\n3 | 1 1\n3 | 1 1 op\n4 | 1 1 at\n4 | 1 2\n4 | 1 2 op\n- | 1 2 at\n\
         5 | 1 0 times\n- | 1 0 every\n6 | 2 0\n- | 2 0 call\n7 | 3 0\n7 | 3 0 call\n7 | 3 1 at\n7 | 3 0 every\n- | 3 0 at\n\
         8 | 0 0 version\n- | 4 0",
    },
    Places {
        name: "inline calls below headers",
        text: "[[block]]\n\
        call = [\n\
        { op = \"ask\" },\n\
        { op = \"ask\", at = 1 } # the last\n\
        ]\n\
        times = 2\n\
        [[block]]\n\
        times = 3\n\
        call = []\n\
        every = 4\n",
        rows: "1 | 1 0\n2 | 1 0 call\n3 | 1 1\n3 | 1 1 op\n4 | 1 2 at\n6 | 1 0 times\n7 | 2 0\n8 | 2 0 times\n9 | 2 0 call\n\
         10 | 2 0 every\n- | 2 1",
    },
    Places {
        name: "other tables are skipped",
        text: "[other]\n\
        op = 1\n\
        [[block]]\n\
        at = 1\n\
        [block.more]\n\
        times = 2\n\
        [[block.call]]\n\
        op = \"ask\"\n\
        [block.call.note]\n\
        at = 3\n\
        [[block.call]]\n\
        at = 4\n\
        [[other.call]]\n\
        op = 2\n\
        [blocks]\n\
        every = 5\n",
        rows: "1 | 0 0 other\n3 | 0 0 block\n4 | 1 0 at\n5 | 1 0 more\n- | 1 0 times\n7 | 1 1\n8 | 1 1 op\n9 | 1 1 note\n- | 1 1 at\n\
         11 | 1 2\n12 | 1 2 at\n- | 1 2 op\n- | 1 3\n15 | 0 0 blocks\n- | 1 0 every\n- | 0 0 every",
    },
    Places {
        name: "values with brackets are skipped",
        text: "x = [[1, { block = [{ at = 1 }] }], { call = 2 }]\n\
        [[block]]\n\
        x = { at = 1, call = [{ op = 3 }] }\n\
        at = 2\n\
        call = [[{ op = 4 }], { op = 5, x = { at = 6 },\n\
        at = 7 }]\n",
        rows: "1 | 0 0 x\n2 | 0 0 block\n2 | 1 0\n3 | 1 0 x\n4 | 1 0 at\n5 | 1 0 call\n5 | 1 1 op\n6 | 1 1 at\n- | 1 2",
    },
    Places {
        name: "blocks that are no array",
        text: "[block]\nat = 1\n[[block.call]]\nop = \"ask\"\n",
        rows: "1 | 0 0 block\n- | 1 0\n- | 0 0 at\n- | 1 0 at\n- | 1 1\n- | 1 0 call\n- | 1 1 op\n- | 0 0 call",
    },
    Places {
        name: "blocks that are an inline table",
        text: "block = { at = 1 }\nx = 2\n",
        rows: "1 | 0 0 block\n- | 1 0\n- | 1 0 at\n2 | 0 0 x",
    },
    Places {
        name: "calls that are no array",
        text: "[[block]]\n[block.call]\nop = 1\n",
        rows: "1 | 1 0\n2 | 1 0 call\n- | 1 1\n- | 1 1 op",
    },
    Places {
        name: "calls of blocks that are no array",
        text: "[[block.call]]\nop = 1\n",
        rows: "1 | 0 0 block\n- | 1 0\n- | 1 1",
    },
];
