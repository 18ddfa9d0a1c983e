//! Runs that were worked out by hand from what the documents say, with the bytes that each has to write.

/// A run of the program, with the status and the output that it must have.
#[derive(Clone, Copy)]
pub struct Run {
    pub shows: &'static str,
    /// The words of the command line, with a space between them.
    pub words: &'static str,
    pub script: &'static str,
    pub status: u8,
    pub output: &'static str,
}

/// The runs.
pub const RUNS: [Run; 36] = [
    Run {
        shows: "a colour in each pixel",
        words: "run 4 2",
        script: "1.1 PLAY 1-0 #FFFF0000\nT\n",
        status: 0,
        output: "1.1 202 PLAY OK\nF 1 1\n0000ffff0000ffff0000ffff0000ffff\n0000ffff0000ffff0000ffff0000ffff\n",
    },
    Run {
        shows: "a channel that holds nothing",
        words: "run 2 1",
        script: "T\n",
        status: 0,
        output: "F 1 1\n0000000000000000\n",
    },
    Run {
        shows: "a script without a line",
        words: "run 2 1",
        script: "",
        status: 0,
        output: "",
    },
    Run {
        shows: "half of a layer over another",
        words: "run 1 1",
        script: "1.1 PLAY 1-0 BLUE\n1.1 PLAY 1-1 RED\n1.1 MIXER 1-1 OPACITY 0.5\nT\n",
        status: 0,
        output: "1.1 202 PLAY OK\n1.1 202 PLAY OK\n1.1 202 MIXER OK\nF 1 1\n7f0080ff\n",
    },
    Run {
        shows: "a background that starts with a mix",
        words: "run 1 1",
        script: "1.1 PLAY 1-1 BLUE\n1.1 LOADBG 1-1 RED MIX 2\n1.1 PLAY 1-1\nT 2\n",
        status: 0,
        output: "1.1 202 PLAY OK\n1.1 202 LOADBG OK\n1.1 202 PLAY OK\nF 1 1\n800080ff\nF 1 2\n0000ffff\n",
    },
    Run {
        shows: "a wipe",
        words: "run 4 1",
        script: "1.1 PLAY 1-0 BLUE\n1.1 PLAY 1-0 RED WIPE 4 RIGHT\nT\n",
        status: 0,
        output: "1.1 202 PLAY OK\n1.1 202 PLAY OK\nF 1 1\n0000ffffff0000ffff0000ffff0000ff\n",
    },
    Run {
        shows: "a push of a clip by a colour",
        words: "run --config wide",
        script: "1.1 PLAY 1-0 BARS\n1.1 PLAY 1-0 BLUE PUSH 4 LEFT\nT\n",
        status: 0,
        output: "1.1 202 PLAY OK\n1.1 202 PLAY OK\nF 1 1\n000014ff00001eff000028ffff0000ff\n",
    },
    Run {
        shows: "a fill into a half, into no width, and mirrored",
        words: "run --config wide",
        script: "1.1 PLAY 1-1 BARS
1.1 MIXER 1-1 FILL 0.5 0 0.5 1
T
1.1 MIXER 1-1 FILL 0 0 0 1
T
1.1 MIXER 1-1 FILL 1 0 -1 1
T
",
        status: 0,
        output: "1.1 202 PLAY OK
1.1 202 MIXER OK
F 1 1
0000000000000000000014ff000028ff
1.1 202 MIXER OK
F 1 2
00000000000000000000000000000000
1.1 202 MIXER OK
F 1 3
000028ff00001eff000014ff00000aff
",
    },
    Run {
        shows: "a window on a clip",
        words: "run --config wide",
        script: "1.1 PLAY 1-0 BARS\n1.1 MIXER 1-0 CLIP 0.25 0 0.5 1\nT\n",
        status: 0,
        output: "1.1 202 PLAY OK\n1.1 202 MIXER OK\nF 1 1\n00000000000014ff00001eff00000000\n",
    },
    Run {
        shows: "two settings that wait, and take effect in one frame",
        words: "run 1 1",
        script: "1.1 PLAY 1-1 BLUE
1.1 PLAY 1-2 RED
1.1 MIXER 1-1 OPACITY 0 DEFER
1.1 MIXER 1-2 OPACITY 0.5 DEFER
T
1.1 MIXER 1 COMMIT
T
",
        status: 0,
        output: "1.1 202 PLAY OK
1.1 202 PLAY OK
1.1 202 MIXER OK
1.1 202 MIXER OK
F 1 1
0000ffff
1.1 202 MIXER OK
F 1 2
00008080
",
    },
    Run {
        shows: "a setting that waits keeps its place when layers are exchanged",
        words: "run 1 1",
        script: "1.1 PLAY 1-1 RED
1.1 MIXER 1-1 OPACITY 0.5 DEFER
1.1 SWAP 1-1 1-2 TRANSFORMS
1.1 MIXER 1 COMMIT
1.1 MIXER 1-1 OPACITY
1.1 MIXER 1-2 OPACITY
T
",
        status: 0,
        output: "1.1 202 PLAY OK
1.1 202 MIXER OK
1.1 202 SWAP OK
1.1 202 MIXER OK
1.1 201 MIXER OK
1.1 0.5
1.1 201 MIXER OK
1.1 1
F 1 1
0000ffff
",
    },
    Run {
        shows: "a batch, and a query of another connection before its commit",
        words: "run 1 1",
        script: "1.1 BEGIN\n1.1 PLAY 1-0 BLUE\n1.1 PLAY 1-1 #80FF0000\n2.1 MIXER 1-0 OPACITY\nT\n1.1 COMMIT\nT\n",
        status: 0,
        output: "1.1 202 BEGIN OK
1.1 202 PLAY OK
1.1 202 PLAY OK
2.1 201 MIXER OK
2.1 1
F 1 1
00000000
1.1 202 COMMIT OK
F 1 2
7f0080ff
",
    },
    Run {
        shows: "a batch that is dropped, and a commit without one",
        words: "run 1 1",
        script: "1.1 BEGIN\n1.1 FROB 1\n1.1 DISCARD\n1.1 COMMIT\n",
        status: 0,
        output: "1.1 202 BEGIN OK\n1.1 400 ERROR\n1.1 FROB 1\n1.1 202 DISCARD OK\n1.1 403 COMMIT ERROR\n",
    },
    Run {
        shows: "a background that starts by itself before the end, with a mix",
        words: "run --config one",
        script: "1.1 PLAY 1-0 THREE\n1.1 LOADBG 1-0 BLUE MIX 2 AUTO\nT 4\n",
        status: 0,
        output: "1.1 202 PLAY OK\n1.1 202 LOADBG OK\nF 1 1\n000000ff\nF 1 2\n800028ff\nF 1 3\nff0000ff\nF 1 4\nff0000ff\n",
    },
    Run {
        shows: "a mix that starts in the first frame of a clip",
        words: "run --config wide",
        script: "1.1 PLAY 1-0 BARS\n1.1 LOADBG 1-0 BLUE MIX 5 AUTO\nT\n",
        status: 0,
        output: "1.1 202 PLAY OK\n1.1 202 LOADBG OK\nF 1 1\n330008ff330010ff330018ff330020ff\n",
    },
    Run {
        shows: "a clip that is loaded and then resumed",
        words: "run --config one",
        script: "1.1 LOAD 1-0 THREE\nT\nT\n1.1 RESUME 1-0\nT\nT\n",
        status: 0,
        output: "1.1 202 LOAD OK\nF 1 1\n000000ff\nF 1 2\n000000ff\n1.1 202 RESUME OK\nF 1 3\n000000ff\nF 1 4\n000050ff\n",
    },
    Run {
        shows: "refusals of a line",
        words: "run 1 1",
        script: "1.1 PLAY 1-0 \"MISSING\"\n1.1 PLAY 9-0 RED\n1.1 PLAY\n1.1 MIXER 1-0 OPACITY x\n",
        status: 0,
        output: "1.1 404 PLAY ERROR\n1.1 401 PLAY ERROR\n1.1 402 PLAY ERROR\n1.1 403 MIXER ERROR\n",
    },
    Run {
        shows: "a clip that is begun behind its last frame",
        words: "run --config one",
        script: "1.1 PLAY 1-0 THREE SEEK 3\n",
        status: 0,
        output: "1.1 403 PLAY ERROR\n",
    },
    Run {
        shows: "clips that are cut short or too long",
        words: "run --config cut",
        script: "1.1 CLS\n1.1 PLAY 1-0 SHORTER\n",
        status: 0,
        output: "1.1 200 CLS OK\n1.1 \"LONGER\" UNREADABLE\n1.1 \"SHORTER\" UNREADABLE\n1.1 \n1.1 502 PLAY FAILED\n",
    },
    Run {
        shows: "a channel that shows itself",
        words: "run 1 1",
        script: "1.1 PLAY 1-1 route://1\nT\n1.1 PLAY 1-0 RED\nT\n1.1 CLEAR 1-0\nT 2\n",
        status: 0,
        output: "1.1 202 PLAY OK
F 1 1
00000000
1.1 202 PLAY OK
F 1 2
0000ffff
1.1 202 CLEAR OK
F 1 3
0000ffff
F 1 4
0000ffff
",
    },
    Run {
        shows: "a layer that shows the layer below",
        words: "run 1 1",
        script: "1.1 PLAY 1-0 RED\n1.1 PLAY 1-1 route://1-0\nT\n1.1 PLAY 1-0 BLUE\nT 2\n",
        status: 0,
        output: "1.1 202 PLAY OK\n1.1 202 PLAY OK\nF 1 1\n0000ffff\n1.1 202 PLAY OK\nF 1 2\n0000ffff\nF 1 3\nff0000ff\n",
    },
    Run {
        shows: "a query that a full journal does not take",
        words: "run --config short",
        script: "1.1 PLAY 1-0 RED\n1.1 PLAY 1-0 BLUE\n1.1 MIXER 1-0 OPACITY\nT\n",
        status: 0,
        output: "1.1 202 PLAY OK\n1.1 202 PLAY OK\n1.1 503 MIXER FAILED\nF 1 1\nff0000ff\n",
    },
    Run {
        shows: "a keyer, and the layer that it keys",
        words: "run --config wide",
        script: "1.1 PLAY 1-1 HALF\n1.1 MIXER 1-1 FILL 0 0 0.5 1\n1.1 MIXER 1-1 KEYER 1\n1.1 PLAY 1-2 BLUE\nT\n",
        status: 0,
        output: "1.1 202 PLAY OK
1.1 202 MIXER OK
1.1 202 MIXER OK
1.1 202 PLAY OK
F 1 1
ff0000ff800000800000000000000000
",
    },
    Run {
        shows: "a value on its way",
        words: "run 1 1",
        script: "1.1 PLAY 1-0 RED\n1.1 MIXER 1-0 OPACITY 0 4\n1.1 MIXER 1-0 OPACITY\nT\n1.1 MIXER 1-0 OPACITY\nT 3\n",
        status: 0,
        output: "1.1 202 PLAY OK
1.1 202 MIXER OK
1.1 201 MIXER OK
1.1 1
F 1 1
0000bfbf
1.1 201 MIXER OK
1.1 0.75
F 1 2
00008080
F 1 3
00004040
F 1 4
00000000
",
    },
    Run {
        shows: "decimals, quotes, and a quote without an end",
        words: "run 1 1",
        script: "1.1 MIXER 1-0 FILL -0.25 .5 1.0000009 +2
1.1 mixer 1-0 fill
1.1 play 1-0 \"r\"ed
1.1 PLAY 1-0 \"RED
",
        status: 0,
        output: "1.1 202 MIXER OK
1.1 201 MIXER OK
1.1 -0.25 0.5 1 2
1.1 202 PLAY OK
1.1 400 ERROR
1.1 PLAY 1-0 \"RED
",
    },
    Run {
        shows: "two tones, and sums held to 16 bits",
        words: "run --config three_pairs",
        script: "1.1 PLAY 1-0 TONE\n1.1 MIXER 1-0 VOLUME 0.5\n1.1 PLAY 1-1 TONE\nT\n",
        status: 0,
        output: "1.1 202 PLAY OK\n1.1 202 MIXER OK\n1.1 202 PLAY OK\nF 1 1\n000000ff\ndc0524faff7f008000000000\n",
    },
    Run {
        shows: "nothing is answered after the end",
        words: "run 1 1",
        script: "1.1 KILL\n1.1 VERSION\n",
        status: 0,
        output: "1.1 202 KILL OK\n",
    },
    Run {
        shows: "a layer exchanged with itself, and a transition that is cleared",
        words: "run 1 1",
        script: "1.1 SWAP 1-0 1-0\n1.1 PLAY 1-0 RED MIX 9\n1.1 CLEAR 1-0\nT\n1.1 INFO\n1.1 KILL\n1.1 VERSION\n",
        status: 0,
        output: "1.1 202 SWAP OK
1.1 202 PLAY OK
1.1 202 CLEAR OK
F 1 1
00000000
1.1 200 INFO OK
1.1 1 1x1 EMPTY
1.1 
1.1 202 KILL OK
",
    },
    Run {
        shows: "words that name no size",
        words: "run 0 2",
        script: "",
        status: 1,
        output: "E usage\n",
    },
    Run {
        shows: "a configuration without pulses",
        words: "run --config stopped",
        script: "",
        status: 2,
        output: "E config key rate\n",
    },
    Run {
        shows: "a line that is none",
        words: "run 1 1",
        script: "1.1PLAY\n",
        status: 2,
        output: "E line 1\n",
    },
    Run {
        shows: "two clips of one name",
        words: "run --config twice",
        script: "",
        status: 3,
        output: "E media twice A\n",
    },
    Run {
        shows: "a loop from the second frame on",
        words: "run --config one",
        script: "1.1 PLAY 1-0 THREE SEEK 1 LOOP\nT 3\n",
        status: 0,
        output: "1.1 202 PLAY OK\nF 1 1\n000050ff\nF 1 2\n0000a0ff\nF 1 3\n000050ff\n",
    },
    Run {
        shows: "a background that starts after the last frame",
        words: "run --config one",
        script: "1.1 PLAY 1-0 THREE\n1.1 LOADBG 1-0 BLUE AUTO\nT 4\n",
        status: 0,
        output: "1.1 202 PLAY OK\n1.1 202 LOADBG OK\nF 1 1\n000000ff\nF 1 2\n000050ff\nF 1 3\n0000a0ff\nF 1 4\nff0000ff\n",
    },
    Run {
        shows: "a command that a full journal does not take",
        words: "run --config short",
        script: "1.1 PLAY 1-0 RED\n1.1 PLAY 1-0 BLUE\n1.1 PLAY 1-0 GREEN\nT\n",
        status: 0,
        output: "1.1 202 PLAY OK\n1.1 202 PLAY OK\n1.1 503 PLAY FAILED\nF 1 1\nff0000ff\n",
    },
    Run {
        shows: "two channels that are exchanged",
        words: "run --config two",
        script: "1.1 PLAY 1-0 RED\n1.1 PLAY 2-5 BLUE\n1.1 SWAP 1 2\nT\n1.1 INFO\n",
        status: 0,
        output: "1.1 202 PLAY OK
1.1 202 PLAY OK
1.1 202 SWAP OK
F 1 1
ff0000ff
F 2 1
0000ffff
1.1 200 INFO OK
1.1 1 1x1 PLAYING
1.1 2 1x1 PLAYING
1.1 
",
    },
];
