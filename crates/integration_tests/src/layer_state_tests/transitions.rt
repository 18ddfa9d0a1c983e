//! Lives with transitions.
use super::lives::Source::{Blue, Clip, Red};
use super::lives::Step::{
    ComesIn, Load, LoadBg, Mixes, Nothing, Pause, Play, Resume, Shows, Start, Stop,
};
use super::lives::{BLUE_IN_4, BLUE_NEXT, CLIP, CLIP_IN_2, LONG, LOOP, Life, RED};

/// What a transition shows.
pub static TRANSITIONS: [Life; 7] = [
    Life {
        name: "a MIX over a colour",
        steps: &[
            Start(RED),
            Shows(Red, &[0]),
            Start(BLUE_IN_4),
            Mixes(
                Blue,
                Red,
                &[(0, 0, 1), (0, 0, 2), (0, 0, 3), (0, 0, 4), (0, 0, 4)],
            ),
        ],
    },
    Life {
        name: "a MIX over nothing",
        steps: &[Start(BLUE_IN_4), ComesIn(Blue, &[1, 2, 3, 4, 4])],
    },
    Life {
        name: "a MIX to a clip",
        steps: &[
            Start(RED),
            Start(CLIP_IN_2),
            Mixes(Clip, Red, &[(0, 0, 1), (1, 0, 2), (2, 0, 2), (2, 0, 2)]),
        ],
    },
    Life {
        name: "a clip that is replaced goes on",
        steps: &[
            Start(LONG),
            Shows(Clip, &[0, 1, 2]),
            Start(BLUE_IN_4),
            Mixes(Blue, Clip, &[(0, 3, 1), (0, 4, 2), (0, 5, 3)]),
        ],
    },
    Life {
        name: "a clip that is replaced stays on its last frame",
        steps: &[
            Start(CLIP),
            Shows(Clip, &[0, 1]),
            Start(BLUE_IN_4),
            Mixes(Blue, Clip, &[(0, 2, 1), (0, 2, 2)]),
        ],
    },
    Life {
        name: "a looped clip that is replaced begins anew",
        steps: &[
            Start(LOOP),
            Shows(Clip, &[0, 1]),
            Start(BLUE_IN_4),
            Mixes(Blue, Clip, &[(0, 2, 1), (0, 0, 2), (0, 1, 3)]),
        ],
    },
    Life {
        name: "a paused clip that is replaced stands",
        steps: &[
            Start(LONG),
            Shows(Clip, &[0, 1]),
            Pause,
            Shows(Clip, &[2]),
            Start(BLUE_IN_4),
            Mixes(Blue, Clip, &[(0, 2, 1), (0, 2, 2)]),
        ],
    },
];

/// What a command in a transition does.
pub static BROKEN_TRANSITIONS: [Life; 6] = [
    Life {
        name: "PAUSE in a transition",
        steps: &[
            Start(LONG),
            Shows(Clip, &[0]),
            Start(BLUE_IN_4),
            Mixes(Blue, Clip, &[(0, 1, 1)]),
            Pause,
            Mixes(Blue, Clip, &[(0, 2, 2), (0, 2, 2)]),
            Resume,
            Mixes(Blue, Clip, &[(0, 2, 2), (0, 3, 3)]),
        ],
    },
    Life {
        name: "a transition in a transition",
        steps: &[
            Start(RED),
            Start(BLUE_IN_4),
            Mixes(Blue, Red, &[(0, 0, 1)]),
            Start(CLIP_IN_2),
            Mixes(Clip, Blue, &[(0, 0, 1), (1, 0, 2), (2, 0, 2)]),
        ],
    },
    Life {
        name: "a CUT in a transition",
        steps: &[
            Start(RED),
            Start(BLUE_IN_4),
            Mixes(Blue, Red, &[(0, 0, 1)]),
            Start(CLIP),
            Shows(Clip, &[0, 1]),
        ],
    },
    Life {
        name: "LOAD in a transition",
        steps: &[
            Start(RED),
            Start(BLUE_IN_4),
            Mixes(Blue, Red, &[(0, 0, 1)]),
            Load(CLIP),
            Shows(Clip, &[0, 0]),
        ],
    },
    Life {
        name: "STOP in a transition",
        steps: &[
            Start(RED),
            Start(BLUE_IN_4),
            Mixes(Blue, Red, &[(0, 0, 1)]),
            Stop,
            Play,
            Nothing(1),
        ],
    },
    Life {
        name: "AUTO over a clip that came by a MIX",
        steps: &[
            Start(RED),
            Start(CLIP_IN_2),
            LoadBg(BLUE_NEXT),
            Mixes(Clip, Red, &[(0, 0, 1), (1, 0, 2), (2, 0, 2)]),
            Shows(Blue, &[0]),
        ],
    },
];
