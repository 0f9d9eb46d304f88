//! Runs of Pings and their Pongs.

use crate::run::{Run, USUAL};

/// Each run with what is printed for it.
pub(crate) static REQUEST_RUNS: [Run; 9] = [
    Run {
        name: "nothing",
        numbers: USUAL,
        capture: "",
        printed: "",
    },
    Run {
        name: "empty_statistics",
        numbers: USUAL,
        capture: "stats",
        printed: "stats connected 0 toomany 0 closed 0 admitted 0 busy 0 crowded 0 routed 0 unknownkind 0 \
            malformed 0 duplicate 0 noroute 0 routegone 0 backtosender 0 expired 0 taken 0 sent 0",
    },
    Run {
        name: "first_ping",
        numbers: USUAL,
        capture: "join; join; data 1 <PING a1 07 00>; route 0",
        printed: "0 connect = connected 1; \
            0 connect = connected 2; \
            0 admit 1 <PING a1 07 00> = admitted 0; \
            0 route 0 = routed local 1+<OWN a1 01> 2+<PING a1 06 01>",
    },
    Run {
        name: "expired_ping",
        numbers: USUAL,
        capture: "join; join; join; data 1 <PING a1 01 00>; route 0",
        printed: "0 connect = connected 1; \
            0 connect = connected 2; \
            0 connect = connected 3; \
            0 admit 1 <PING a1 01 00> = admitted 0; \
            0 route 0 = routed local 1+<OWN a1 01>",
    },
    Run {
        name: "ttl_and_hops_limits",
        numbers: USUAL,
        capture: "join; join; \
            data 1 <PING a1 00 00><QUERY b1 09 ff><PING a2 09 ff>; \
            route 0; route 1; route 2; \
            data 1 <PING a1 07 00>; route 3",
        printed: "0 connect = connected 1; \
            0 connect = connected 2; \
            0 admit 1 <PING a1 00 00> = admitted 0; \
            0 admit 1 <QUERY b1 09 ff> = admitted 1; \
            0 admit 1 <PING a2 09 ff> = admitted 2; \
            0 route 0 = routed local 1+<OWN a1 01>; \
            0 route 1 = routed local; \
            0 route 2 = routed local 1+<OWN a2 ff>; \
            0 admit 1 <PING a1 07 00> = admitted 3; \
            0 route 3 = dropped duplicate",
    },
    Run {
        name: "remembered_and_forgotten",
        numbers: "4 2 4 8 8 100",
        capture: "join; \
            data 1 <PING a1 07 00>; route 0; \
            data 1 <PING a2 07 00>; route 1; \
            data 1 <PING a1 07 00>; route 2; \
            data 1 <PING a3 07 00>; route 3; \
            data 1 <PING a1 07 00>; route 4",
        printed: "0 connect = connected 1; \
            0 admit 1 <PING a1 07 00> = admitted 0; \
            0 route 0 = routed local 1+<OWN a1 01>; \
            0 admit 1 <PING a2 07 00> = admitted 1; \
            0 route 1 = routed local 1+<OWN a2 01>; \
            0 admit 1 <PING a1 07 00> = admitted 2; \
            0 route 2 = dropped duplicate; \
            0 admit 1 <PING a3 07 00> = admitted 3; \
            0 route 3 = routed local 1+<OWN a3 01>; \
            0 admit 1 <PING a1 07 00> = admitted 4; \
            0 route 4 = routed local 1+<OWN a1 01>",
    },
    Run {
        name: "one_remembered",
        numbers: "4 1 4 8 8 100",
        capture: "join; join; \
            data 1 <PING a1 07 00>; route 0; \
            data 1 <PING a2 07 00>; route 1; \
            data 2 <PONG a1 03 01>; route 2; \
            data 2 <PONG a2 03 01>; route 3",
        printed: "0 connect = connected 1; \
            0 connect = connected 2; \
            0 admit 1 <PING a1 07 00> = admitted 0; \
            0 route 0 = routed local 1+<OWN a1 01> 2+<PING a1 06 01>; \
            0 admit 1 <PING a2 07 00> = admitted 1; \
            0 route 1 = routed local 1+<OWN a2 01> 2+<PING a2 06 01>; \
            0 admit 2 <PONG a1 03 01> = admitted 2; \
            0 route 2 = dropped noroute; \
            0 admit 2 <PONG a2 03 01> = admitted 3; \
            0 route 3 = routed away 1+<PONG a2 02 02>",
    },
    Run {
        name: "pongs_go_back",
        numbers: USUAL,
        capture: "join; join; \
            data 1 <PING a1 07 00>; route 0; \
            data 2 <PONG a1 03 01>; route 1; \
            data 2 <PONG a1 03 01>; route 2; \
            take 1; take 1",
        printed: "0 connect = connected 1; \
            0 connect = connected 2; \
            0 admit 1 <PING a1 07 00> = admitted 0; \
            0 route 0 = routed local 1+<OWN a1 01> 2+<PING a1 06 01>; \
            0 admit 2 <PONG a1 03 01> = admitted 1; \
            0 route 1 = routed away 1+<PONG a1 02 02>; \
            0 admit 2 <PONG a1 03 01> = admitted 2; \
            0 route 2 = routed away 1+<PONG a1 02 02>; \
            0 take 1 = taken <OWN a1 01>; \
            0 take 1 = taken <PONG a1 02 02>",
    },
    Run {
        name: "close_and_rejoin",
        numbers: USUAL,
        capture: "join; join; \
            data 1 <PING a1 07 00>; route 0; \
            close 1; join; \
            data 2 <PONG a1 03 01>; route 1; \
            take 3; close 1",
        printed: "0 connect = connected 1; \
            0 connect = connected 2; \
            0 admit 1 <PING a1 07 00> = admitted 0; \
            0 route 0 = routed local 1+<OWN a1 01> 2+<PING a1 06 01>; \
            0 close 1 = closed 1; \
            0 connect = connected 3; \
            0 admit 2 <PONG a1 03 01> = admitted 1; \
            0 route 1 = dropped routegone; \
            refused NothingWaiting; \
            refused NotLive",
    },
];
