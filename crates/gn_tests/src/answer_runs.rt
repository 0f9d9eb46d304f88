//! Runs of the other answers: originated requests, a full history, what is dropped, what is forgotten and sent again, ways to
//! servents, and the limits on a descriptor's life and on what is in flight of one connection.

use crate::run::{Run, USUAL};

/// Each run with what is printed for it.
pub(crate) static ANSWER_RUNS: [Run; 12] = [
    Run {
        name: "originated",
        numbers: USUAL,
        capture: "join; \
            ping <d1> 5; \
            data 1 <PONG d1 01 00>; route 0; \
            ping <d1> 5; \
            ping <d2> 0; \
            query <d3> 7 0 78",
        printed: "0 connect = connected 1; \
            0 originate <PING d1 05 00> = sent 1+<PING d1 05 00>; \
            0 admit 1 <PONG d1 01 00> = admitted 0; \
            0 route 0 = routed local; \
            refused Remembered; \
            refused BadOrigin; \
            0 originate <QUERY d3 07 00> = sent 1+<QUERY d3 07 00>",
    },
    Run {
        name: "history_full",
        numbers: "4 8 4 8 8 3",
        capture: "route 9; \
            join; join; join; \
            join; route 9; \
            data 4 00; \
            stats",
        printed: "refused NoTicket; \
            0 connect = connected 1; \
            0 connect = connected 2; \
            0 connect = connected 3; \
            refused HistoryFull; \
            refused HistoryFull; \
            ended 4; \
            stats connected 3 toomany 0 closed 0 admitted 0 busy 0 crowded 0 routed 0 unknownkind 0 \
            malformed 0 duplicate 0 noroute 0 routegone 0 backtosender 0 expired 0 taken 0 sent 0",
    },
    Run {
        name: "unknown_and_malformed",
        numbers: USUAL,
        capture: "join; \
            data 1 <a1>31070002000000abcd; route 0; \
            data 1 <b1>80070003000000000078; route 1; \
            data 1 <QUERY b1 07 00>; route 2",
        printed: "0 connect = connected 1; \
            0 admit 1 <a1>31070002000000abcd = admitted 0; \
            0 route 0 = dropped unknownkind; \
            0 admit 1 <b1>80070003000000000078 = admitted 1; \
            0 route 1 = dropped malformed; \
            0 admit 1 <QUERY b1 07 00> = admitted 2; \
            0 route 2 = routed local",
    },
    Run {
        name: "back_to_sender_and_expired",
        numbers: USUAL,
        capture: "join; join; \
            data 1 <PING a1 07 00>; route 0; \
            data 1 <PONG a1 03 01>; route 1; \
            data 2 <PONG a1 01 00>; route 2",
        printed: "0 connect = connected 1; \
            0 connect = connected 2; \
            0 admit 1 <PING a1 07 00> = admitted 0; \
            0 route 0 = routed local 1+<OWN a1 01> 2+<PING a1 06 01>; \
            0 admit 1 <PONG a1 03 01> = admitted 1; \
            0 route 1 = dropped backtosender; \
            0 admit 2 <PONG a1 01 00> = admitted 2; \
            0 route 2 = dropped expired",
    },
    // the Pong goes where the Ping came from last, not where it came from before it was forgotten
    Run {
        name: "forgotten_and_sent_again",
        numbers: "4 1 4 8 8 100",
        capture: "join; join; \
            data 1 <PING a1 07 00>; route 0; \
            data 1 <PING a2 07 00>; route 1; \
            data 2 <PING a1 07 00>; route 2; \
            data 1 <PONG a1 03 01>; route 3",
        printed: "0 connect = connected 1; \
            0 connect = connected 2; \
            0 admit 1 <PING a1 07 00> = admitted 0; \
            0 route 0 = routed local 1+<OWN a1 01> 2+<PING a1 06 01>; \
            0 admit 1 <PING a2 07 00> = admitted 1; \
            0 route 1 = routed local 1+<OWN a2 01> 2+<PING a2 06 01>; \
            0 admit 2 <PING a1 07 00> = admitted 2; \
            0 route 2 = routed local 2+<OWN a1 01> 1+<PING a1 06 01>; \
            0 admit 1 <PONG a1 03 01> = admitted 3; \
            0 route 3 = routed away 2+<PONG a1 02 02>",
    },
    Run {
        name: "forgotten_servents",
        numbers: "4 8 2 8 8 100",
        capture: "join; join; join; \
            data 1 <QUERY b1 05 00>; route 0; \
            data 2 <HIT b1 5e 04 00>; route 1; \
            data 2 <HIT b1 6f 04 00>; route 2; \
            data 3 <HIT b1 5e 04 00>; route 3; \
            data 2 <HIT b1 7f 04 00>; route 4; \
            data 1 <PUSH c1 5e 05 00>; route 5; \
            data 1 <PUSH c2 6f 05 00>; route 6",
        printed: "0 connect = connected 1; \
            0 connect = connected 2; \
            0 connect = connected 3; \
            0 admit 1 <QUERY b1 05 00> = admitted 0; \
            0 route 0 = routed local 2+<QUERY b1 04 01> 3+<QUERY b1 04 01>; \
            0 admit 2 <HIT b1 5e 04 00> = admitted 1; \
            0 route 1 = routed away 1+<HIT b1 5e 03 01>; \
            0 admit 2 <HIT b1 6f 04 00> = admitted 2; \
            0 route 2 = routed away 1+<HIT b1 6f 03 01>; \
            0 admit 3 <HIT b1 5e 04 00> = admitted 3; \
            0 route 3 = routed away 1+<HIT b1 5e 03 01>; \
            0 admit 2 <HIT b1 7f 04 00> = admitted 4; \
            0 route 4 = routed away 1+<HIT b1 7f 03 01>; \
            0 admit 1 <PUSH c1 5e 05 00> = admitted 5; \
            0 route 5 = routed away 3+<PUSH c1 5e 04 01>; \
            0 admit 1 <PUSH c2 6f 05 00> = admitted 6; \
            0 route 6 = dropped noroute",
    },
    Run {
        name: "push_to_us",
        numbers: USUAL,
        capture: "join; \
            data 1 <PUSH c1 ee 00 00>; route 0; \
            data 1 <PUSH c1 ee 00 00>; route 1",
        printed: "0 connect = connected 1; \
            0 admit 1 <PUSH c1 ee 00 00> = admitted 0; \
            0 route 0 = routed local; \
            0 admit 1 <PUSH c1 ee 00 00> = admitted 1; \
            0 route 1 = dropped duplicate",
    },
    Run {
        name: "life_limit",
        numbers: "4 8 4 8 8 100 4",
        capture: "join; join; \
            data 1 <PING a1 07 01>; route 0; \
            data 1 <PING a2 07 03>; route 1; \
            data 1 <PING a3 07 04>; route 2; \
            data 1 <PING a4 02 01>; route 3; \
            data 2 <PONG a1 07 03>; route 4; \
            ping <d1> 5; \
            ping <d1> 4",
        printed: "0 connect = connected 1; \
            0 connect = connected 2; \
            0 admit 1 <PING a1 07 01> = admitted 0; \
            0 route 0 = routed local 1+<OWN a1 02> 2+<PING a1 02 02>; \
            0 admit 1 <PING a2 07 03> = admitted 1; \
            0 route 1 = routed local 1+<OWN a2 04>; \
            0 admit 1 <PING a3 07 04> = admitted 2; \
            0 route 2 = routed local 1+<OWN a3 05>; \
            0 admit 1 <PING a4 02 01> = admitted 3; \
            0 route 3 = routed local 1+<OWN a4 02> 2+<PING a4 01 02>; \
            0 admit 2 <PONG a1 07 03> = admitted 4; \
            0 route 4 = dropped expired; \
            refused BadOrigin; \
            0 originate <PING d1 04 00> = sent 1+<PING d1 04 00> 2+<PING d1 04 00>",
    },
    Run {
        name: "crowding_threshold",
        numbers: "4 8 4 3 8 100 0 1",
        capture: "join; join; \
            data 1 <PING a1 07 00><PING a2 07 00>; \
            data 2 <PING a3 07 00>; \
            route 0; \
            data 1 <PING a2 07 00>; \
            data 2 <PING a4 07 00>",
        printed: "0 connect = connected 1; \
            0 connect = connected 2; \
            0 admit 1 <PING a1 07 00> = admitted 0; \
            0 admit 1 <PING a2 07 00> = crowded; \
            0 admit 2 <PING a3 07 00> = admitted 1; \
            0 route 0 = routed local 1+<OWN a1 01> 2+<PING a1 06 01>; \
            0 admit 1 <PING a2 07 00> = admitted 2; \
            0 admit 2 <PING a4 07 00> = crowded",
    },
    Run {
        name: "route_all",
        numbers: "4 8 4 3 8 100 0 1",
        capture: "join; join; \
            data 1 <PING a1 07 00><PING a2 07 00>; \
            data 2 <PING a3 07 00>; \
            route all; \
            route all; \
            data 1 <PING a4 07 00>; \
            data 2 <PING a5 07 00>; \
            route 3; \
            close 1; \
            route all",
        printed: "0 connect = connected 1; \
            0 connect = connected 2; \
            0 admit 1 <PING a1 07 00> = admitted 0; \
            0 admit 1 <PING a2 07 00> = crowded; \
            0 admit 2 <PING a3 07 00> = admitted 1; \
            0 route 0 = routed local 1+<OWN a1 01> 2+<PING a1 06 01>; \
            0 route 1 = routed local 2+<OWN a3 01> 1+<PING a3 06 01>; \
            0 admit 1 <PING a4 07 00> = admitted 2; \
            0 admit 2 <PING a5 07 00> = admitted 3; \
            0 route 3 = routed local 2+<OWN a5 01> 1+<PING a5 06 01>; \
            0 close 1 = closed 3; \
            0 route 2 = routed local 2+<PING a4 06 01>",
    },
    Run {
        name: "history_full_of_flights",
        numbers: "4 8 4 3 8 5 0 0",
        capture: "join; join; \
            data 1 <PING a1 07 00>; \
            data 2 <PING a2 07 00>; \
            data 1 <PING a3 07 00>; \
            route all; \
            stats",
        printed: "0 connect = connected 1; \
            0 connect = connected 2; \
            0 admit 1 <PING a1 07 00> = admitted 0; \
            0 admit 2 <PING a2 07 00> = admitted 1; \
            0 admit 1 <PING a3 07 00> = admitted 2; \
            refused HistoryFull; \
            refused HistoryFull; \
            refused HistoryFull; \
            stats connected 2 toomany 0 closed 0 admitted 3 busy 0 crowded 0 routed 0 unknownkind 0 \
            malformed 0 duplicate 0 noroute 0 routegone 0 backtosender 0 expired 0 taken 0 sent 0",
    },
    Run {
        name: "busy_before_crowded",
        numbers: "4 8 4 1 8 100 0 1",
        capture: "join; data 1 <PING a1 07 00><PING a2 07 00>",
        printed: "0 connect = connected 1; \
            0 admit 1 <PING a1 07 00> = admitted 0; \
            0 admit 1 <PING a2 07 00> = busy",
    },
];
