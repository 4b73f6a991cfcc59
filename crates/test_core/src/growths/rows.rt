//! The rows over which each request for memory is refused: rows of `scenarios/`, their steps as a list.

/// A row: its scenario, its trace, and how many requests for memory there are: of its opening, of room for all of its
/// calls, if that is asked for ahead of them, and else of its calls.
pub(crate) struct Row {
    pub requests: [u32; 3],
    pub scenario: &'static str,
    pub trace: &'static str,
}

/// All of them.
pub(crate) const ROWS: [Row; 8] = [
    // first_semaphore
    Row {
        requests: [38, 5, 5],
        scenario: r#"limit = 100
step = [
  { do = "try_get", who = 0, sem = 0 }, { do = "put", who = 0, sem = 0 }, { do = "try_get", who = 0, sem = 0 },
  { do = "peek", who = 0, sem = 0 },
]
[board]
threads = 1
sems = [0]
"#,
        trace: "board threads=1 sems=1 flags=0 xbufs=0 mutexes=0 groups=0 limit=100
1 T0 try_get sem=0 -> Again
2 T0 put sem=0 -> done
3 T0 try_get sem=0 -> done
4 T0 peek sem=0 -> count 0
",
    },
    // lowest_line_first
    Row {
        requests: [38, 7, 8],
        scenario: r#"step = [
  { do = "request", who = 0, line = 9, stage = "oob", callback = 0 },
  { do = "request", who = 0, line = 2, stage = "oob", callback = 7 },
  { do = "request", who = 0, line = 1023, stage = "oob", callback = 1 }, { do = "stall", who = 0, stage = "oob" },
  { do = "arrive", who = 0, line = 9 }, { do = "arrive", who = 0, line = 1023 },
  { do = "arrive", who = 0, line = 2 }, { do = "unstall", who = 0, stage = "oob" },
  { do = "peek", who = 0, sem = 0 },
]
[board]
threads = 1
sems = [0]
"#,
        trace: "board threads=1 sems=1 flags=0 xbufs=0 mutexes=0 groups=0 limit=1000
1 T0 request line=9 stage=oob callback=0 tag=0 -> done
2 T0 request line=2 stage=oob callback=7 tag=0 -> done
3 T0 request line=1023 stage=oob callback=1 tag=0 -> done
4 T0 stall stage=oob -> done
5 T0 arrive line=9 -> done
6 T0 arrive line=1023 -> done
7 T0 arrive line=2 -> done
8 T0 unstall stage=oob -> done
  line 2 oob count 1 handled
  line 9 oob count 1 handled
  line 1023 oob count 1 handled
9 T0 peek sem=0 -> count 1
",
    },
    // periodic_timer
    Row {
        requests: [37, 6, 7],
        scenario: r#"step = [
  { do = "new_timer", who = 0, callback = 0, tag = 0 },
  { do = "start_timer", who = 0, timer = 0, date = 100, interval = 10 }, { do = "tick", who = 0, delta = 135 },
  { do = "overruns", who = 0, timer = 0 }, { do = "tick", who = 0, delta = 4 },
  { do = "tick", who = 0, delta = 1 }, { do = "now", who = 0 },
]
[board]
threads = 1
"#,
        trace: "board threads=1 sems=0 flags=0 xbufs=0 mutexes=0 groups=0 limit=1000
1 T0 new_timer callback=0 tag=0 -> number 0
2 T0 start_timer timer=0 date=100 interval=10 -> done
3 T0 tick delta=135 -> done
  clock
  timer 0 count 1 missed 3 handled
4 T0 overruns timer=0 -> number 3
5 T0 tick delta=4 -> done
6 T0 tick delta=1 -> done
  clock
  timer 0 count 2 missed 0 handled
7 T0 now -> number 140
",
    },
    // timer_before_deadline
    Row {
        requests: [38, 6, 7],
        scenario: r#"step = [
  { do = "new_timer", who = 0, callback = 1, tag = 0 },
  { do = "start_timer", who = 0, timer = 0, date = 50, interval = 0 },
  { do = "attach", who = 1, policy = "fifo 10", stage = "oob" },
  { do = "begin_get", who = 1, sem = 0, until = 50 }, { do = "tick", who = 0, delta = 50 },
  { do = "finish", who = 1 },
]
[board]
threads = 2
sems = [0]
"#,
        trace: "board threads=2 sems=1 flags=0 xbufs=0 mutexes=0 groups=0 limit=1000
1 T0 new_timer callback=1 tag=0 -> number 0
2 T0 start_timer timer=0 date=50 interval=0 -> done
3 T1 attach policy=fifo 10 stage=oob -> done
4 T1 begin_get sem=0 until=50 -> begun
5 T0 tick delta=50 -> done
  clock
  timer 0 count 1 missed 0 handled
6 T1 finish keep=false -> done
",
    },
    // inheritance_chain
    Row {
        requests: [40, 7, 8],
        scenario: r#"step = [
  { do = "attach", who = 1, policy = "fifo 8", stage = "oob" },
  { do = "attach", who = 2, policy = "fifo 28", stage = "oob" },
  { do = "attach", who = 3, policy = "fifo 78", stage = "oob" }, { do = "claim", who = 2, mutex = 0, owner = 1 },
  { do = "rank_of", who = 0, thread = 1 }, { do = "claim", who = 3, mutex = 1, owner = 2, until = 100 },
  { do = "rank_of", who = 0, thread = 1 }, { do = "rank_of", who = 0, thread = 2 },
  { do = "tick", who = 0, delta = 100 }, { do = "rank_of", who = 0, thread = 1 },
  { do = "rank_of", who = 0, thread = 2 }, { do = "pick", who = 0 },
]
[board]
threads = 4
mutexes = ["normal", "normal"]
"#,
        trace: "board threads=4 sems=0 flags=0 xbufs=0 mutexes=2 groups=0 limit=1000
1 T1 attach policy=fifo 8 stage=oob -> done
2 T2 attach policy=fifo 28 stage=oob -> done
3 T3 attach policy=fifo 78 stage=oob -> done
4 T2 claim mutex=0 owner=1 until=none -> begun
5 T0 rank_of thread=1 -> number 540
6 T3 claim mutex=1 owner=2 until=100 -> begun
7 T0 rank_of thread=1 -> number 590
8 T0 rank_of thread=2 -> number 590
9 T0 tick delta=100 -> done
  clock
  deadline T3
10 T0 rank_of thread=1 -> number 540
11 T0 rank_of thread=2 -> number 540
12 T0 pick -> thread 3
",
    },
    // cross_buffer
    Row {
        requests: [44, 7, 8],
        scenario: r#"step = [
  { do = "attach", who = 1, policy = "fifo 10", stage = "oob" },
  { do = "write", who = 0, xbuf = 0, way = "in", bytes = "61626364" },
  { do = "write", who = 0, xbuf = 0, way = "in", bytes = "65" },
  { do = "write", who = 0, xbuf = 0, way = "in", bytes = "6162636465" },
  { do = "read", who = 1, xbuf = 0, way = "in", len = 3 },
  { do = "write", who = 0, xbuf = 0, way = "in", bytes = "65666768" },
  { do = "write", who = 0, xbuf = 0, way = "in", bytes = "656667" },
  { do = "read", who = 1, xbuf = 0, way = "in", len = 9 },
  { do = "write", who = 1, xbuf = 0, way = "in", bytes = "61" },
  { do = "read", who = 1, xbuf = 0, way = "in", len = 0 }, { do = "read", who = 1, xbuf = 0, way = "in", len = 1 },
]
[board]
threads = 2
xbufs = [[4, 4]]
"#,
        trace: "board threads=2 sems=0 flags=0 xbufs=1 mutexes=0 groups=0 limit=1000
1 T1 attach policy=fifo 10 stage=oob -> done
2 T0 write xbuf=0 way=in bytes=61626364 -> done
3 T0 write xbuf=0 way=in bytes=65 -> Again
4 T0 write xbuf=0 way=in bytes=6162636465 -> TooBig
5 T1 read xbuf=0 way=in len=3 -> bytes 616263
6 T0 write xbuf=0 way=in bytes=65666768 -> Again
7 T0 write xbuf=0 way=in bytes=656667 -> done
8 T1 read xbuf=0 way=in len=9 -> bytes 64656667
9 T1 write xbuf=0 way=in bytes=61 -> WrongStage
10 T1 read xbuf=0 way=in len=0 -> bytes -
11 T1 read xbuf=0 way=in len=1 -> Again
",
    },
    // flag_waiters
    Row {
        requests: [38, 7, 7],
        scenario: r#"step = [
  { do = "attach", who = 1, policy = "fifo 20", stage = "oob" },
  { do = "attach", who = 2, policy = "fifo 10", stage = "oob" },
  { do = "begin_take", who = 1, flags = 0, kind = "exact 6" },
  { do = "begin_take", who = 2, flags = 0, kind = "of 1" }, { do = "post_flags", who = 0, flags = 0, bits = 2 },
  { do = "post_flags", who = 0, flags = 0, bits = 5 }, { do = "finish", who = 1 }, { do = "finish", who = 2 },
  { do = "peek_flags", who = 0, flags = 0 }, { do = "post_flags", who = 0, flags = 0, bits = 0 },
]
[board]
threads = 3
flags = [0]
"#,
        trace: "board threads=3 sems=0 flags=1 xbufs=0 mutexes=0 groups=0 limit=1000
1 T1 attach policy=fifo 20 stage=oob -> done
2 T2 attach policy=fifo 10 stage=oob -> done
3 T1 begin_take flags=0 kind=exact 6 until=none -> begun
4 T2 begin_take flags=0 kind=of 1 until=none -> begun
5 T0 post_flags flags=0 bits=2 -> done
6 T0 post_flags flags=0 bits=5 -> done
7 T1 finish keep=false -> bits 6
8 T2 finish keep=false -> bits 1
9 T0 peek_flags flags=0 -> bits 0
10 T0 post_flags flags=0 bits=0 -> Invalid
",
    },
    // quota_refill
    Row {
        requests: [38, 6, 6],
        scenario: r#"step = [
  { do = "attach", who = 1, policy = "quota 0 5", stage = "oob" }, { do = "rank_of", who = 0, thread = 1 },
  { do = "pick", who = 0 }, { do = "tick", who = 0, delta = 100000000 }, { do = "pick", who = 0 },
  { do = "tick", who = 0, delta = 900000000 }, { do = "pick", who = 0 },
]
[board]
threads = 2
groups = [10]
"#,
        trace: "board threads=2 sems=0 flags=0 xbufs=0 mutexes=0 groups=1 limit=1000
1 T1 attach policy=quota 0 5 stage=oob -> done
2 T0 rank_of thread=1 -> number 261
3 T0 pick -> thread 1
4 T0 tick delta=100000000 -> done
5 T0 pick -> thread none
6 T0 tick delta=900000000 -> done
7 T0 pick -> thread 1
",
    },
];
