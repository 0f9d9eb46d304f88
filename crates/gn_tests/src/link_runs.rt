//! Runs of what links deliver: pieces, faults, greetings, and more than there is room for.

use crate::run::{Run, USUAL};

/// Each run with what is printed for it.
pub(crate) static LINK_RUNS: [Run; 7] = [
    Run {
        name: "query_hit_push",
        numbers: USUAL,
        capture: "join; join; \
            data 1 <b1>800500070000000000616263001c; route 0; \
            data 2 <TWO b1 5e 04 00>; route 1; \
            data 1 <PUSH c1 5e 05 00>; route 2",
        printed: "0 connect = connected 1; \
            0 connect = connected 2; \
            0 admit 1 <b1>800500070000000000616263001c = admitted 0; \
            0 route 0 = routed local 2+<b1>800401070000000000616263001c; \
            0 admit 2 <TWO b1 5e 04 00> = admitted 1; \
            0 route 1 = routed away 1+<TWO b1 5e 03 01>; \
            0 admit 1 <PUSH c1 5e 05 00> = admitted 2; \
            0 route 2 = routed away 2+<PUSH c1 5e 04 01>",
    },
    Run {
        name: "push_to_nobody",
        numbers: USUAL,
        capture: "join; \
            data 1 <PUSH c1 99 05 00>; route 0; \
            data 1 <PUSH c1 99 05 00>; route 1",
        printed: "0 connect = connected 1; \
            0 admit 1 <PUSH c1 99 05 00> = admitted 0; \
            0 route 0 = dropped noroute; \
            0 admit 1 <PUSH c1 99 05 00> = admitted 1; \
            0 route 1 = dropped duplicate",
    },
    Run {
        name: "cut_descriptors",
        numbers: USUAL,
        capture: "join; \
            data 1 <a1>000700000000; data 1 00; \
            data 1 <b2>80070004000000; data 1 00; data 1 00; data 1 78; data 1 00; \
            data 1 <PING a2 07 00><PING a3 07 00>",
        printed: "0 connect = connected 1; \
            0 admit 1 <PING a1 07 00> = admitted 0; \
            0 admit 1 <QUERY b2 07 00> = admitted 1; \
            0 admit 1 <PING a2 07 00> = admitted 2; \
            0 admit 1 <PING a3 07 00> = admitted 3",
    },
    Run {
        name: "framing_faults",
        numbers: USUAL,
        capture: "join; join; join; \
            data 1 <PONG a1 03 01><a2>00070001000000; data 1 00; \
            data 2 <b1>80070000000100; \
            data 3 <b1>80070001000100; \
            route 0",
        printed: "0 connect = connected 1; \
            0 connect = connected 2; \
            0 connect = connected 3; \
            0 admit 1 <PONG a1 03 01> = admitted 0; \
            fault 1 fixed ping 1; \
            0 close 1 = closed 0; \
            ended 1; \
            fault 3 long 65537; \
            0 close 3 = closed 0; \
            0 route 0 = dropped noroute",
    },
    Run {
        name: "greetings",
        numbers: "1 8 4 8 8 100",
        capture: "open; \
            data 1 474e5554454c4c412043; \
            data 1 4f4e4e4543542f302e340a0a<PING a1 07 00>; \
            open; \
            data 2 474e5554454c4c4120434f4e4e4543542f302e360d0a; data 2 00; \
            join; data 3 00",
        printed: "0 connect = connected 1; \
            0 admit 1 <PING a1 07 00> = admitted 0; \
            greeting 2 refused; \
            ended 2; \
            0 connect = toomany; \
            ended 3",
    },
    Run {
        name: "busy_and_full_output",
        numbers: "4 8 4 1 1 100",
        capture: "join; join; \
            data 1 <PING a1 07 00><PING a2 07 00>; route 0; \
            data 1 <PING a2 07 00>; route 1; \
            take 2; \
            data 1 <PING a3 07 00>; route 2",
        printed: "0 connect = connected 1; \
            0 connect = connected 2; \
            0 admit 1 <PING a1 07 00> = admitted 0; \
            0 admit 1 <PING a2 07 00> = busy; \
            0 route 0 = routed local 1+<OWN a1 01> 2+<PING a1 06 01>; \
            0 admit 1 <PING a2 07 00> = admitted 1; \
            0 route 1 = routed local 1-<OWN a2 01> 2-<PING a2 06 01>; \
            0 take 2 = taken <PING a1 06 01>; \
            0 admit 1 <PING a3 07 00> = admitted 2; \
            0 route 2 = routed local 1-<OWN a3 01> 2+<PING a3 06 01>",
    },
    Run {
        name: "closed_by_a_line",
        numbers: USUAL,
        capture: "join; close 1; \
            data 1 <PING a1 07 00><PING a2 07 00>; data 1 00",
        printed: "0 connect = connected 1; \
            0 close 1 = closed 0; \
            refused NotLive; \
            ended 1",
    },
];
