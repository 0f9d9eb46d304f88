//! The runs, each as the text of its history. Each answer in it is worked out by hand from the rules.

/// A Ping with TTL 1 is answered and not passed on.
pub(crate) const EXPIRED_PING: &str = "gnutella-history 1\n\
config 4 8 4 8 8 100\n\
own eeeeeeeeeeeeeeeeeeeeeeeeeeeeeeee 127.0.0.1 6346 5 40\n\
0 connect = connected 1\n\
0 connect = connected 2\n\
0 connect = connected 3\n\
0 admit 1 a1a1a1a1a1a1a1a1a1a1a1a1a1a1a1a100010000000000 = admitted 0\n\
0 route 0 = routed local 1+a1a1a1a1a1a1a1a1a1a1a1a1a1a1a1a10101000e000000ca187f0000010500000028000000\n\
end\n";

/// TTL 0 and Hops 255.
pub(crate) const TTL_AND_HOPS_LIMITS: &str = "gnutella-history 1\n\
config 4 8 4 8 8 100\n\
own eeeeeeeeeeeeeeeeeeeeeeeeeeeeeeee 127.0.0.1 6346 5 40\n\
0 connect = connected 1\n\
0 connect = connected 2\n\
0 admit 1 a1a1a1a1a1a1a1a1a1a1a1a1a1a1a1a100000000000000 = admitted 0\n\
0 admit 1 b1b1b1b1b1b1b1b1b1b1b1b1b1b1b1b18009ff0400000000007800 = admitted 1\n\
0 admit 1 a2a2a2a2a2a2a2a2a2a2a2a2a2a2a2a20009ff00000000 = admitted 2\n\
0 route 0 = routed local 1+a1a1a1a1a1a1a1a1a1a1a1a1a1a1a1a10101000e000000ca187f0000010500000028000000\n\
0 route 1 = routed local\n\
0 route 2 = routed local 1+a2a2a2a2a2a2a2a2a2a2a2a2a2a2a2a201ff000e000000ca187f0000010500000028000000\n\
0 admit 1 a1a1a1a1a1a1a1a1a1a1a1a1a1a1a1a100070000000000 = admitted 3\n\
0 route 3 = dropped duplicate\n\
end\n";

/// Two descriptors are remembered: the third makes the first a new one.
pub(crate) const REMEMBERED_AND_FORGOTTEN: &str = "gnutella-history 1\n\
config 4 2 4 8 8 100\n\
own eeeeeeeeeeeeeeeeeeeeeeeeeeeeeeee 127.0.0.1 6346 5 40\n\
0 connect = connected 1\n\
0 admit 1 a1a1a1a1a1a1a1a1a1a1a1a1a1a1a1a100070000000000 = admitted 0\n\
0 route 0 = routed local 1+a1a1a1a1a1a1a1a1a1a1a1a1a1a1a1a10101000e000000ca187f0000010500000028000000\n\
0 admit 1 a2a2a2a2a2a2a2a2a2a2a2a2a2a2a2a200070000000000 = admitted 1\n\
0 route 1 = routed local 1+a2a2a2a2a2a2a2a2a2a2a2a2a2a2a2a20101000e000000ca187f0000010500000028000000\n\
0 admit 1 a1a1a1a1a1a1a1a1a1a1a1a1a1a1a1a100070000000000 = admitted 2\n\
0 route 2 = dropped duplicate\n\
0 admit 1 a3a3a3a3a3a3a3a3a3a3a3a3a3a3a3a300070000000000 = admitted 3\n\
0 route 3 = routed local 1+a3a3a3a3a3a3a3a3a3a3a3a3a3a3a3a30101000e000000ca187f0000010500000028000000\n\
0 admit 1 a1a1a1a1a1a1a1a1a1a1a1a1a1a1a1a100070000000000 = admitted 4\n\
0 route 4 = routed local 1+a1a1a1a1a1a1a1a1a1a1a1a1a1a1a1a10101000e000000ca187f0000010500000028000000\n\
end\n";

/// One descriptor is remembered: a Pong to the one before has no route.
pub(crate) const ONE_REMEMBERED: &str = "gnutella-history 1\n\
config 4 1 4 8 8 100\n\
own eeeeeeeeeeeeeeeeeeeeeeeeeeeeeeee 127.0.0.1 6346 5 40\n\
0 connect = connected 1\n\
0 connect = connected 2\n\
0 admit 1 a1a1a1a1a1a1a1a1a1a1a1a1a1a1a1a100070000000000 = admitted 0\n\
0 route 0 = routed local 1+a1a1a1a1a1a1a1a1a1a1a1a1a1a1a1a10101000e000000ca187f0000010500000028000000 2+a1a1a1a1a1a1a1a1a1a1a1a1a1a1a1a100060100000000\n\
0 admit 1 a2a2a2a2a2a2a2a2a2a2a2a2a2a2a2a200070000000000 = admitted 1\n\
0 route 1 = routed local 1+a2a2a2a2a2a2a2a2a2a2a2a2a2a2a2a20101000e000000ca187f0000010500000028000000 2+a2a2a2a2a2a2a2a2a2a2a2a2a2a2a2a200060100000000\n\
0 admit 2 a1a1a1a1a1a1a1a1a1a1a1a1a1a1a1a10103010e00000001007f0000020100000002000000 = admitted 2\n\
0 route 2 = dropped noroute\n\
0 admit 2 a2a2a2a2a2a2a2a2a2a2a2a2a2a2a2a20103010e00000001007f0000020100000002000000 = admitted 3\n\
0 route 3 = routed away 1+a2a2a2a2a2a2a2a2a2a2a2a2a2a2a2a20102020e00000001007f0000020100000002000000\n\
end\n";

/// Two Pongs go back, and the first connection takes what waits for it.
pub(crate) const PONGS_GO_BACK: &str = "gnutella-history 1\n\
config 4 8 4 8 8 100\n\
own eeeeeeeeeeeeeeeeeeeeeeeeeeeeeeee 127.0.0.1 6346 5 40\n\
0 connect = connected 1\n\
0 connect = connected 2\n\
0 admit 1 a1a1a1a1a1a1a1a1a1a1a1a1a1a1a1a100070000000000 = admitted 0\n\
0 route 0 = routed local 1+a1a1a1a1a1a1a1a1a1a1a1a1a1a1a1a10101000e000000ca187f0000010500000028000000 2+a1a1a1a1a1a1a1a1a1a1a1a1a1a1a1a100060100000000\n\
0 admit 2 a1a1a1a1a1a1a1a1a1a1a1a1a1a1a1a10103010e00000001007f0000020100000002000000 = admitted 1\n\
0 route 1 = routed away 1+a1a1a1a1a1a1a1a1a1a1a1a1a1a1a1a10102020e00000001007f0000020100000002000000\n\
0 admit 2 a1a1a1a1a1a1a1a1a1a1a1a1a1a1a1a10103010e00000001007f0000020100000002000000 = admitted 2\n\
0 route 2 = routed away 1+a1a1a1a1a1a1a1a1a1a1a1a1a1a1a1a10102020e00000001007f0000020100000002000000\n\
0 take 1 = taken a1a1a1a1a1a1a1a1a1a1a1a1a1a1a1a10101000e000000ca187f0000010500000028000000\n\
0 take 1 = taken a1a1a1a1a1a1a1a1a1a1a1a1a1a1a1a10102020e00000001007f0000020100000002000000\n\
end\n";

/// A connection closes with a packet waiting, and a Pong finds its route gone.
pub(crate) const CLOSE_AND_REJOIN: &str = "gnutella-history 1\n\
config 4 8 4 8 8 100\n\
own eeeeeeeeeeeeeeeeeeeeeeeeeeeeeeee 127.0.0.1 6346 5 40\n\
0 connect = connected 1\n\
0 connect = connected 2\n\
0 admit 1 a1a1a1a1a1a1a1a1a1a1a1a1a1a1a1a100070000000000 = admitted 0\n\
0 route 0 = routed local 1+a1a1a1a1a1a1a1a1a1a1a1a1a1a1a1a10101000e000000ca187f0000010500000028000000 2+a1a1a1a1a1a1a1a1a1a1a1a1a1a1a1a100060100000000\n\
0 close 1 = closed 1\n\
0 connect = connected 3\n\
0 admit 2 a1a1a1a1a1a1a1a1a1a1a1a1a1a1a1a10103010e00000001007f0000020100000002000000 = admitted 1\n\
0 route 1 = dropped routegone\n\
end\n";

/// One descriptor in flight and one packet waiting is all that there may be.
pub(crate) const BUSY_AND_FULL_OUTPUT: &str = "gnutella-history 1\n\
config 4 8 4 1 1 100\n\
own eeeeeeeeeeeeeeeeeeeeeeeeeeeeeeee 127.0.0.1 6346 5 40\n\
0 connect = connected 1\n\
0 connect = connected 2\n\
0 admit 1 a1a1a1a1a1a1a1a1a1a1a1a1a1a1a1a100070000000000 = admitted 0\n\
0 admit 1 a2a2a2a2a2a2a2a2a2a2a2a2a2a2a2a200070000000000 = busy\n\
0 route 0 = routed local 1+a1a1a1a1a1a1a1a1a1a1a1a1a1a1a1a10101000e000000ca187f0000010500000028000000 2+a1a1a1a1a1a1a1a1a1a1a1a1a1a1a1a100060100000000\n\
0 admit 1 a2a2a2a2a2a2a2a2a2a2a2a2a2a2a2a200070000000000 = admitted 1\n\
0 route 1 = routed local 1-a2a2a2a2a2a2a2a2a2a2a2a2a2a2a2a20101000e000000ca187f0000010500000028000000 2-a2a2a2a2a2a2a2a2a2a2a2a2a2a2a2a200060100000000\n\
0 take 2 = taken a1a1a1a1a1a1a1a1a1a1a1a1a1a1a1a100060100000000\n\
0 admit 1 a3a3a3a3a3a3a3a3a3a3a3a3a3a3a3a300070000000000 = admitted 2\n\
0 route 2 = routed local 1-a3a3a3a3a3a3a3a3a3a3a3a3a3a3a3a30101000e000000ca187f0000010500000028000000 2+a3a3a3a3a3a3a3a3a3a3a3a3a3a3a3a300060100000000\n\
end\n";

/// The local servent sends a Ping and a Query.
pub(crate) const ORIGINATED: &str = "gnutella-history 1\n\
config 4 8 4 8 8 100\n\
own eeeeeeeeeeeeeeeeeeeeeeeeeeeeeeee 127.0.0.1 6346 5 40\n\
0 connect = connected 1\n\
0 originate d1d1d1d1d1d1d1d1d1d1d1d1d1d1d1d100050000000000 = sent 1+d1d1d1d1d1d1d1d1d1d1d1d1d1d1d1d100050000000000\n\
0 admit 1 d1d1d1d1d1d1d1d1d1d1d1d1d1d1d1d10101000e00000001007f0000020100000002000000 = admitted 0\n\
0 route 0 = routed local\n\
0 originate d3d3d3d3d3d3d3d3d3d3d3d3d3d3d3d38007000400000000007800 = sent 1+d3d3d3d3d3d3d3d3d3d3d3d3d3d3d3d38007000400000000007800\n\
end\n";

/// Two servents are remembered, and a Push goes to the one that answered last.
pub(crate) const FORGOTTEN_SERVENTS: &str = "gnutella-history 1\n\
config 4 8 2 8 8 100\n\
own eeeeeeeeeeeeeeeeeeeeeeeeeeeeeeee 127.0.0.1 6346 5 40\n\
0 connect = connected 1\n\
0 connect = connected 2\n\
0 connect = connected 3\n\
0 admit 1 b1b1b1b1b1b1b1b1b1b1b1b1b1b1b1b18005000400000000007800 = admitted 0\n\
0 route 0 = routed local 2+b1b1b1b1b1b1b1b1b1b1b1b1b1b1b1b18004010400000000007800 3+b1b1b1b1b1b1b1b1b1b1b1b1b1b1b1b18004010400000000007800\n\
0 admit 2 b1b1b1b1b1b1b1b1b1b1b1b1b1b1b1b18104001b00000000ca187f0000021c0000005e5e5e5e5e5e5e5e5e5e5e5e5e5e5e5e = admitted 1\n\
0 route 1 = routed away 1+b1b1b1b1b1b1b1b1b1b1b1b1b1b1b1b18103011b00000000ca187f0000021c0000005e5e5e5e5e5e5e5e5e5e5e5e5e5e5e5e\n\
0 admit 2 b1b1b1b1b1b1b1b1b1b1b1b1b1b1b1b18104001b00000000ca187f0000021c0000006f6f6f6f6f6f6f6f6f6f6f6f6f6f6f6f = admitted 2\n\
0 route 2 = routed away 1+b1b1b1b1b1b1b1b1b1b1b1b1b1b1b1b18103011b00000000ca187f0000021c0000006f6f6f6f6f6f6f6f6f6f6f6f6f6f6f6f\n\
0 admit 3 b1b1b1b1b1b1b1b1b1b1b1b1b1b1b1b18104001b00000000ca187f0000021c0000005e5e5e5e5e5e5e5e5e5e5e5e5e5e5e5e = admitted 3\n\
0 route 3 = routed away 1+b1b1b1b1b1b1b1b1b1b1b1b1b1b1b1b18103011b00000000ca187f0000021c0000005e5e5e5e5e5e5e5e5e5e5e5e5e5e5e5e\n\
0 admit 2 b1b1b1b1b1b1b1b1b1b1b1b1b1b1b1b18104001b00000000ca187f0000021c0000007f7f7f7f7f7f7f7f7f7f7f7f7f7f7f7f = admitted 4\n\
0 route 4 = routed away 1+b1b1b1b1b1b1b1b1b1b1b1b1b1b1b1b18103011b00000000ca187f0000021c0000007f7f7f7f7f7f7f7f7f7f7f7f7f7f7f7f\n\
0 admit 1 c1c1c1c1c1c1c1c1c1c1c1c1c1c1c1c14005001a0000005e5e5e5e5e5e5e5e5e5e5e5e5e5e5e5e010000007f000001ca18 = admitted 5\n\
0 route 5 = routed away 3+c1c1c1c1c1c1c1c1c1c1c1c1c1c1c1c14004011a0000005e5e5e5e5e5e5e5e5e5e5e5e5e5e5e5e010000007f000001ca18\n\
0 admit 1 c2c2c2c2c2c2c2c2c2c2c2c2c2c2c2c24005001a0000006f6f6f6f6f6f6f6f6f6f6f6f6f6f6f6f010000007f000001ca18 = admitted 6\n\
0 route 6 = dropped noroute\n\
end\n";
