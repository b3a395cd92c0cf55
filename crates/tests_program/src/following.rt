// Sessions in which what happens is told, and their answers.
use crate::documents::{PATHWAY, STROKE};
use crate::requests::{Row, expect_all_by_bytes};
use cstn_top::Status;
use std::test::Fail;

const FOLLOWED: [Row<'static>; 6] = [
    Row {
        name: "a late step, and a limit given up",
        words: &["follow", "f"],
        file: PATHWAY,
        other: "",
        live: "did 5 Sample\nnext\nnow 40\nsaw 45 i true\nnext\nby Antibiotic\ndid 112 Antibiotic\n\
            check\nblame\nremove 2\ncheck\nnext\ndid 235 Review\nnext\ndid 250 Discharge\nnext\n",
        status: Status::Good,
        text: "follow 1\nyes 16\nyes 17\nnext 65 wait i\nyes 17\nyes 9\nnext 70 do Antibiotic\n\
            by 95 Antibiotic\nno 4\nno 4\n0 base Z 0 -\n1 chain 0 0 Z 1 -\nend\nblame 2\nremoved 2\n\
            yes 6\nnext 232 do Review\nyes 3\nnext 245 do Discharge\nyes 1\ndone\ndone\n",
        left: "",
    },
    Row {
        name: "refusals",
        words: &["follow", "f"],
        file: PATHWAY,
        other: "",
        live: "did 3 Nobody\nnow 5\nnow 4\ndid 5 Antibiotic\nsaw 5 i true\ndid 2 Sample\ndid 6 Sample\n\
            await 1000001 i\nsaw 1 i false\nsaw 30 i false\nsaw 31 i false\ndid 31 Antibiotic\n\
            add Discharge Review 100 i\nadd Discharge Z 1 q\nnow 1000001\nremove 99\nnow 07\n",
        status: Status::Unfinished,
        text: "follow 1\nyes 16\nrefused F3 Nobody\nyes 21\nrefused F1 5\nrefused F5 Antibiotic\n\
            refused F6 i\nyes 17\nrefused F4 Sample 2\nrefused F2 1000001\nrefused F2 1\nyes 6\n\
            refused F7 i false\nrefused F5 Antibiotic\nadded 8\nrefused S5 q\nrefused F2 1000001\n\
            refused S2 99\nrefused line 17\nunfinished 30\n",
        left: "",
    },
    Row {
        name: "a late result",
        words: &["follow", "f"],
        file: PATHWAY,
        other: "",
        live: "did 10 Sample\nawait 100 i\nnext\nnow 100\nawait 130 i\ncheck\n",
        status: Status::Unfinished,
        text: "follow 1\nyes 16\nyes 17\nyes 19\nnext 100 wait i\nyes 15\nno 14\nno 14\n\
            0 base Sample 0 -\n1 chain 12 0 Antibiotic 130 i\n2 chain 1 1 Z 1 i\nend\n\
            unfinished 100\n",
        left: "",
    },
    Row {
        name: "a stroke",
        words: &["follow", "f"],
        file: STROKE,
        other: "",
        live: "did 0 Scan\nsaw 9 b false\nnext\ndid 17 Drip\nnext\nby Swallow\n",
        status: Status::Unfinished,
        text: "follow 1\nyes 19\nyes 19\nyes 10\nnext 10 do Drip\nyes 7\nnext 47 do Swallow\n\
            by 180 Swallow\nunfinished 17\n",
        left: "",
    },
    Row {
        name: "which plan it is",
        words: &["follow", "f"],
        file: PATHWAY,
        other: "",
        live: "digest\ndid 5 Sample\ndigest\nstep Call\ndigest\nstep Call\ntry step Review\ndigest \n",
        status: Status::Unfinished,
        text: "follow 1\nyes 16\n\
            digest 9424b10e6e6a13be4ad84e4234702b6c187101b5ab00e34d1c0bc0ee12a68dd5\n\
            yes 17\n\
            digest 9424b10e6e6a13be4ad84e4234702b6c187101b5ab00e34d1c0bc0ee12a68dd5\n\
            step Call\n\
            digest 879ef2d440be968fa0a0ebb49ce7a5c0185ae913c186a4b3eeef7845ea1caa76\n\
            refused S8 Call\nrefused S8 Review\nrefused line 8\nunfinished 5\n",
        left: "",
    },
    Row {
        name: "a last line without a line feed",
        words: &["follow", "f"],
        file: PATHWAY,
        other: "",
        live: "now 5\nnow 6",
        status: Status::Unfinished,
        text: "follow 1\nyes 16\nyes 21\nrefused line 2\nunfinished 5\n",
        left: "",
    },
];

#[test]
fn what_happens_is_followed(rt: HostRuntime) -> Result<(), Fail> {
    expect_all_by_bytes(&rt, rt.alloc(), &FOLLOWED)
}
