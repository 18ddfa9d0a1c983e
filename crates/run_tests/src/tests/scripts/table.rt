//! Runs that end with each status, with the bytes that each has to write.

/// A run of the program, with the status and the output that it must have.
#[derive(Clone, Copy)]
pub struct Run {
    /// The words of the command line, with a space between them.
    pub words: &'static str,
    /// The names of the clip files, with a space between them.
    pub clips: &'static str,
    pub script: &'static str,
    pub status: u8,
    pub output: &'static str,
}

/// The runs.
pub const RUNS: [Run; 14] = [
    Run {
        words: "run 1 1",
        clips: "",
        script: "1.1 BEGIN\n1.1 PLAY 1-0 RED\n1.1 COMMIT\n1.1 FROB 1\n2.7 PLAY 1-0 #FF00FF00\nT 2\n1.1 BYE\n1.1 KILL\n2.7 KILL\nzzz\n",
        status: 0,
        output: "1.1 202 BEGIN OK\n1.1 202 PLAY OK\n1.1 202 COMMIT OK\n1.1 400 ERROR\n1.1 FROB 1\n2.7 202 PLAY OK\nF 1 1\n00ff00ff\nF 1 2\n00ff00ff\n2.7 202 KILL OK\n",
    },
    Run {
        words: "run --config two --workers 64",
        clips: "three.rclp",
        script: "1.1 CLS\n1.1 PLAY 2-0 THREE LOOP\nT 2\n",
        status: 0,
        output: "1.1 200 CLS OK\n1.1 \"THREE\" 1x1 3 0\n1.1 \n1.1 202 PLAY OK\nF 1 1\n0000000000000000\nF 2 1\n000000ff\nF 1 2\n0000000000000000\nF 2 2\n000050ff\n",
    },
    Run {
        words: "run --config two",
        clips: "three.rclp",
        script: "1.1 PLAY 2-0 THREE\nT\n1.1 PAUSE 2-0\nT\n1.1 LOADBG 2-0 RED AUTO\n1.1 RESUME 2-0\nT 3\n1.1 STOP 2-0\n1.1 CLEAR 2\n1.1 INFO\nT\n",
        status: 0,
        output: "1.1 202 PLAY OK\nF 1 1\n0000000000000000\nF 2 1\n000000ff\n1.1 202 PAUSE OK\nF 1 2\n0000000000000000\nF 2 2\n000050ff\n1.1 202 LOADBG OK\n1.1 202 RESUME OK\nF 1 3\n0000000000000000\nF 2 3\n000050ff\nF 1 4\n0000000000000000\nF 2 4\n0000a0ff\nF 1 5\n0000000000000000\nF 2 5\n0000ffff\n1.1 202 STOP OK\n1.1 202 CLEAR OK\n1.1 200 INFO OK\n1.1 1 2x1 EMPTY\n1.1 2 1x1 EMPTY\n1.1 \nF 1 6\n0000000000000000\nF 2 6\n00000000\n",
    },
    Run {
        words: "run --config two",
        clips: "low1.rclp low2.rclp high1.rclp high2.rclp",
        script: "1.1 PLAY 2-0 LOW1\nT\n1.1 PLAY 2-0 LOW2\nT\n1.1 PLAY 2-0 HIGH1\nT\n1.1 PLAY 2-0 HIGH2\nT\n",
        status: 0,
        output: "1.1 202 PLAY OK\nF 1 1\n0000000000000000\nF 2 1\n00004080\n1.1 202 PLAY OK\nF 1 2\n0000000000000000\nF 2 2\n00004080\n1.1 202 PLAY OK\nF 1 3\n0000000000000000\nF 2 3\n00008080\n1.1 202 PLAY OK\nF 1 4\n0000000000000000\nF 2 4\n00008080\n",
    },
    Run {
        words: "run --config two --digest",
        clips: "three.rclp",
        script: "1.1 PLAY 2-0 THREE\nT 2",
        status: 0,
        output: "1.1 202 PLAY OK
D 1 1 af5570f5a1810b7af78caf4bc70a660f0df51e42baf91d4de5b2328de0e83dfc
D 2 1 e3820096cb82366b860b8a4e668453a7aaaf423af03bdf289fa308ea03a79332
D 1 2 af5570f5a1810b7af78caf4bc70a660f0df51e42baf91d4de5b2328de0e83dfc
D 2 2 528e90ed2693270b3661c9f5af8c7ce302dc39968b9e1e24511272fba9ee3906
",
    },
    Run {
        words: "run 1 1",
        clips: "",
        script: "1.1 REQ a1 PLAY 1-0 RED\n1.1 req b MIXER 1-0 OPACITY\n1.1 REQ\n1.1 REQ c\n1.1 REQ \"x y\" INFO\n1.1 REQ d REQ e INFO\n1.1 REQ f BYE\n",
        status: 0,
        output: "1.1 RES a1 202 PLAY OK\n1.1 RES b 201 MIXER OK\n1.1 1\n1.1 402 REQ ERROR\n1.1 RES c 402 REQ ERROR\n1.1 403 REQ ERROR\n1.1 RES d 400 ERROR\n1.1 REQ d REQ e INFO\n",
    },
    Run {
        words: "run 1 1",
        clips: "",
        script: "1.1 REQ aaaaaaaaaaaaaaaaaaaaaaaaaaaaaaaaaaaaaaaaaaaaaaaaaaaaaaaaaaaaaaaa BEGIN\n1.1 REQ aaaaaaaaaaaaaaaaaaaaaaaaaaaaaaaaaaaaaaaaaaaaaaaaaaaaaaaaaaaaaaaaa STOP 1-0\n1.1 REQ 2 STOP 1-0\n1.1 REQ 3 INFO\n1.1 STOP 1-1\n1.1 REQ 4 COMMIT\n1.1 REQ ! INFO\n1.1 REQ 5 \"INFO\n1.1 REQ ~ KILL\n",
        status: 0,
        output: "1.1 RES aaaaaaaaaaaaaaaaaaaaaaaaaaaaaaaaaaaaaaaaaaaaaaaaaaaaaaaaaaaaaaaa 202 BEGIN OK\n1.1 403 REQ ERROR\n1.1 RES 2 202 STOP OK\n1.1 RES 3 403 INFO ERROR\n1.1 202 STOP OK\n1.1 RES 4 202 COMMIT OK\n1.1 RES ! 200 INFO OK\n1.1 1 1x1 EMPTY\n1.1 \n1.1 400 ERROR\n1.1 REQ 5 \"INFO\n1.1 RES ~ 202 KILL OK\n",
    },
    Run {
        words: "run 1 1",
        clips: "",
        script: "T\nzzz\n",
        status: 2,
        output: "F 1 1\n00000000\nE line 2\n",
    },
    Run {
        words: "run --config sound",
        clips: "song.rclp",
        script: "1.1 PLAY 1-0 SONG LOOP\n1.1 PLAY 2-0 route://1\nT\n1.1 BEGIN\n1.1 PLAY 1-0 RED PUSH 3\n1.1 MIXER 1-0 VOLUME 0.5 DEFER\n1.1 COMMIT\nT\n1.1 MIXER 1 COMMIT\n1.1 MIXER 1-0 VOLUME\nT\n1.1 SWAP 1-0 2-0\n1.1 PAUSE 2-0\n1.1 INFO\n",
        status: 0,
        output: "1.1 202 PLAY OK
1.1 202 PLAY OK
F 1 1
00ff00ff00ff00ff
e80318fc
F 2 1
00000000
00000000
1.1 202 BEGIN OK
1.1 202 PLAY OK
1.1 202 MIXER OK
1.1 202 COMMIT OK
F 1 2
ff0000ffff0000ff
3505cbfa
F 2 2
00ff00ff
e80318fc
1.1 202 MIXER OK
1.1 201 MIXER OK
1.1 0.5
F 1 3
0000ffff00ff00ff
a6005aff
F 2 3
ff0000ff
3505cbfa
1.1 202 SWAP OK
1.1 202 PAUSE OK
1.1 200 INFO OK
1.1 1 2x1 PLAYING
1.1 2 1x1 PAUSED\n1.1 \n",
    },
    Run {
        words: "run --config two",
        clips: "a.rclp A.RCLP",
        script: "T\n",
        status: 3,
        output: "E media twice A\n",
    },
    Run {
        words: "run 1 1",
        clips: "",
        script: "1.1 PLAY 1-0 RED\n1.1 MIXER 1-0 OPACITY 0 4 EASEINQUAD\nT\n1.1 MIXER 1-0 OPACITY\n1.1 MIXER 1-0 CLEAR\n1.1 MIXER 1-0 OPACITY 0 4 EASEOUTQUAD\nT\n1.1 MIXER 1-0 OPACITY\n1.1 MIXER 1-0 CLEAR\n1.1 MIXER 1-0 OPACITY 0 4 EASEINCUBIC\nT\n1.1 MIXER 1-0 OPACITY\n1.1 MIXER 1-0 CLEAR\n1.1 MIXER 1-0 OPACITY 0 4 EASEOUTCUBIC\nT\n1.1 MIXER 1-0 OPACITY\n",
        status: 0,
        output: "1.1 202 PLAY OK
1.1 202 MIXER OK
F 1 1
0000efef
1.1 201 MIXER OK
1.1 0.9375
1.1 202 MIXER OK
1.1 202 MIXER OK
F 1 2
00008f8f
1.1 201 MIXER OK
1.1 0.5625
1.1 202 MIXER OK
1.1 202 MIXER OK
F 1 3
0000fbfb
1.1 201 MIXER OK
1.1 0.984375
1.1 202 MIXER OK
1.1 202 MIXER OK
F 1 4
00006c6c
1.1 201 MIXER OK
1.1 0.421875
",
    },
    Run {
        words: "run 1 1",
        clips: "",
        script: "1.1 PLAY 1-0 BLUE\n1.1 PLAY 1-0 RED MIX 2 EASEOUTQUAD\nT 2\n",
        status: 0,
        output: "1.1 202 PLAY OK\n1.1 202 PLAY OK\nF 1 1\n4000bfff\nF 1 2\n0000ffff\n",
    },
    Run {
        words: "run --config sound",
        clips: "song.rclp",
        script: "1.1 PLAY 1-0 SONG LOOP\nT\n1.1 PLAY 1-0 RED WIPE 4 EASEINQUAD\nT 4\n",
        status: 0,
        output: "1.1 202 PLAY OK
F 1 1
00ff00ff00ff00ff
e80318fc
F 2 1
00000000
00000000
1.1 202 PLAY OK
F 1 2
ff0000ffff0000ff
5307adf8
F 2 2
00000000
00000000
F 1 3
00ff00ff00ff00ff
ee0212fd
F 2 3
00000000
00000000
F 1 4
0000ffffff0000ff
6b0395fc
F 2 4
00000000
00000000
F 1 5
0000ffff0000ffff
00000000
F 2 5
00000000
00000000
",
    },
    Run {
        words: "run --config none",
        clips: "",
        script: "T\n",
        status: 4,
        output: "E device\n",
    },
];
